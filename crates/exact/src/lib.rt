// The bytes of a record, in specs/, and the theorems that the reader of records is exact, in proofs/. There is no code here.
#![tactic(auto)]
