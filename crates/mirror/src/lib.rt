// That links are mirrored, and theorems on lists of direct calls: definitions and statements in specs/, laws and proofs in proofs/, no function.
#![tactic(auto)]
