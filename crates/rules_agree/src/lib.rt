// No code: no file shows a difference between the two rules of rounding.
#![tactic(auto)]
