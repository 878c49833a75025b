// The listing of a journal, in specs/, and the theorems on it, in proofs/. There is no code here.
#![tactic(auto)]
