// Worked examples of the three rules, over the plain machine: a table in specs/Worked.antt, proved in proofs/. There is no code
// here.
#![tactic(auto)]
