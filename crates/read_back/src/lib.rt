// No code: what was written as version 4 reads back.
#![tactic(auto)]
