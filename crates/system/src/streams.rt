// The standard streams: bytes to standard output and standard error, and which of the three are terminals.
use crate::names::error_of;
use std::io::{IsTerminal, Print};
use std::rt::{Clock, Env, Files};

pub trait Streams {
    // Writes bytes to standard output, in one go where the system takes them so, or answers its error number.
    fn put(&self, bytes: &[u8]) -> Result<(), i32>;

    // The same to standard error.
    fn tell(&self, bytes: &[u8]) -> Result<(), i32>;

    fn is_input_terminal(&self) -> bool;

    fn is_output_terminal(&self) -> bool;

    fn is_error_terminal(&self) -> bool;
}

impl Streams for HostRuntime {
    fn put(&self, bytes: &[u8]) -> Result<(), i32> {
        Print::write_all(&self.stdout(), bytes).map_err(error_of)
    }

    fn tell(&self, bytes: &[u8]) -> Result<(), i32> {
        Print::write_all(&self.stderr(), bytes).map_err(error_of)
    }

    fn is_input_terminal(&self) -> bool {
        self.stdin().is_terminal()
    }

    fn is_output_terminal(&self) -> bool {
        self.stdout().is_terminal()
    }

    fn is_error_terminal(&self) -> bool {
        self.stderr().is_terminal()
    }
}

// All that the tool asks of the system.
pub trait System: Files + Env + Clock + Input + Streams {}

impl System for HostRuntime {}
