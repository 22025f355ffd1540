// That every list of calls leaves a sound map: definitions and statements in specs/, proofs in proofs/, and no function.
#![tactic(auto)]
