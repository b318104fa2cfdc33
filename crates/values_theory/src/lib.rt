// The table of proved values: its rows in specs/, that each holds in proofs/. There is no code.
#![tactic(auto)]
