// No code: how the marked example M3 of the scope is shown, and that the definition gives it.
#![tactic(auto)]
