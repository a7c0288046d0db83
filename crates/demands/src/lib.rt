// The three demands, from the promise of a run alone. No code.
#![tactic(auto)]
