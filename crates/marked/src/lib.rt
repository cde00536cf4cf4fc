// No code: the marked examples of the scope, and that the definitions give them.
#![tactic(auto)]
