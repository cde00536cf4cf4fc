// No code: what was written as version 3 reads back.
#![tactic(auto)]
