// The sorting of knots by `KnotVector::from`, and that knots that never fall pass it unchanged: definitions and statements in specs/, laws and proofs in proofs/, no function.
#![tactic(auto)]
