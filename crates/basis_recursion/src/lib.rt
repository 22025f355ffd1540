// That the basis formula is the recursion of Cox and de Boor, in exact arithmetic: definitions and statements in specs/, proofs in proofs/, and no function.
#![tactic(auto)]
