// Runs of stores to lent bytes: what one is, and laws. There is no code.
#![tactic(auto)]
