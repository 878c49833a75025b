// What is demanded of the book, in specs/, and the theorems that it meets, in proofs/. There is no code here.
#![tactic(auto)]
