// Demand 3 over the public calls: what it is about in specs/, what it says and why it holds in proofs/: no function.
#![tactic(auto)]
