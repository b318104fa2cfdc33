// The laws that tie a signed number of the code, an i64, to ℕ. There is no code.
#![tactic(auto)]
