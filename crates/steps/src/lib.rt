// What a step does to the work room, and that it follows the machine: definitions in specs/, theorems in proofs/, and no code.
#![tactic(auto)]
