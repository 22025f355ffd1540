// Lists of calls on a map: definitions and statements in specs/, proofs in proofs/, and no function.
#![tactic(auto)]
