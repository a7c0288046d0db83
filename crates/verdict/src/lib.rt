// The verdict on a whole log: definitions in specs/, theorems in proofs/, and no code.
#![tactic(auto)]
