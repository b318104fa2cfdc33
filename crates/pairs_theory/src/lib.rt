// What the checker works out of the models' formulas: pairs to hold beside another program's, and that no fixed ends
// keep the promise. There is no code.
#![tactic(auto)]
