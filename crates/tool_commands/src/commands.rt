// The commands by name. A new one is a variant here, a line in `command_of` and one in `run`.
use std::env::FillError;
use std::rt::Env;
use tool_names::ROOM;

// What is to be done.
#[derive(Clone, Copy)]
pub enum Command {
    Check,
    Recount,
    Badge,
    Upgrade,
    Resave,
    Show,
    Play,
    Help,
    Missing,
    Unknown,
}

// The command of a name.
fn command_of(name: &[u8]) -> Command {
    match name {
        b"check" => Command::Check,
        b"recount" => Command::Recount,
        b"badge" => Command::Badge,
        b"upgrade" => Command::Upgrade,
        b"resave" => Command::Resave,
        b"show" => Command::Show,
        b"play" => Command::Play,
        b"help" | b"--help" | b"-h" => Command::Help,
        _ => Command::Unknown,
    }
}

// The command that word i names.
pub(crate) fn command_at(rt: &impl Env, i: usize) -> Command {
    let mut word = [0u8; ROOM];
    match rt.arg(i, &mut word) {
        Ok(n) => command_of(&word[..n]),
        Err(FillError::TooLong) => Command::Unknown,
        Err(FillError::NotPresent) => Command::Missing,
    }
}
