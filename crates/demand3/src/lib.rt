// No code: demand 3 of both upgrades on a page, two calls one behind the other, and what their promises come
// to.
#![tactic(auto)]
