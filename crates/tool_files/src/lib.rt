// The files of a run: a file's bytes in a buffer, and what is told of a file that could not be read or made.
#![tactic(auto)]

pub mod loading; // a file's bytes in a buffer
pub mod troubles; // what is told of a file besides refusals
