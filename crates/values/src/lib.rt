// Lists as the values of a function: definitions in specs/, laws in proofs/, no function.
#![tactic(auto)]
