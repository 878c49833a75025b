// The plain machine and its closed sets: definitions in specs/, theorems in proofs/. There is no code here.
#![tactic(auto)]
