// No code: what both versions write of a header's fields is read back (proofs/).
#![tactic(auto)]
