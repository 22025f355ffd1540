// How many numbers below one pass a test, whether some does and which is the last, and sums over the numbers below one: definitions in specs/, laws in proofs/, no function.
#![tactic(auto)]
