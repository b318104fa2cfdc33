// What several crates rest on: signed and natural whole numbers, lists, and tests that the checker computes. There is
// no code.
#![tactic(auto)]
