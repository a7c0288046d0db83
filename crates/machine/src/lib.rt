// The protocol as machines over a cut of a log: definitions in specs/, the theorems of demands 2 and 3 in proofs/, and no code.
#![tactic(auto)]
