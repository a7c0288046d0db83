// Lamport's order over the log of a barn: definitions in specs/, theorems in proofs/, and no code.
#![tactic(auto)]
