// Theorems on map files: definitions and statements in specs/, proofs in proofs/, and no function.
#![tactic(auto)]
