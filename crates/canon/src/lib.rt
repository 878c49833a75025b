// The canonical form of a grant under document 02, 3: definitions in specs/, theorems in proofs/. There is no code here.
#![tactic(auto)]
