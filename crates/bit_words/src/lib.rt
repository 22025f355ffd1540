// Sets of numbers kept in words, a bit for each number: definitions in specs/, laws in proofs/, no function.
#![tactic(auto)]
