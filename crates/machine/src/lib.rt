// No code: a game played through as a plain machine, and that the moves over lent cells are the machine's.
#![tactic(auto)]
