// Refused records left out of a journal: definitions in specs/, theorems in proofs/. There is no code here.
#![tactic(auto)]
