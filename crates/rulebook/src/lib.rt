// Document 01 as definitions, in specs/, with its theorems, in proofs/: no function.
#![tactic(auto)]
