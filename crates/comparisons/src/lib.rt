// What comparing says of the report of an accepted log, and which bytes are a well-formed report. No code.
#![tactic(auto)]
