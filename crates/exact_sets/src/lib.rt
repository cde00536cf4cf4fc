// No code: for each number that a public call can answer, an input that is answered with it.
#![tactic(auto)]
