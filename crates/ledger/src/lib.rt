// The ledger of sides over every list of insertions: definitions and statements in specs/, proofs in proofs/, and no function.
#![tactic(auto)]
