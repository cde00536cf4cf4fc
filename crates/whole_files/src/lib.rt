// Whole files in and new files out. What the system refuses is answered by its error number.
#![tactic(auto)]

pub mod input; // a file read to its end
pub mod output; // a file made, and none overwritten
