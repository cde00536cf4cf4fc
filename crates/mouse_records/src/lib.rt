// The record of a mouse event in versions 3 and 4, with the pauses before it: how long it is, and written.
#![tactic(auto)]

ghost use Rattle.std.specs.Prelude.{◌≡◌, ◌+◌, ◌-◌, length, if◌then◌else◌, nat_eq};
ghost use Rattle.mouse_records.specs.Pauses.{pauses_of};
ghost use Rattle.mouse_records.specs.Records.{difference, nothing_yet};

use pauses::{pauses_len, wait_of};
use times::GameMs;

mod pauses; // the wait between two mouse events
pub mod writing; // the records

// The bytes of a record of version 3, and of one of version 4 behind its pauses.
const RECORD_3_LEN: usize = 8;

const RECORD_4_LEN: usize = 6;

// The last mouse event: its milliseconds and position. Before the first one all are 0.
#[derive(Clone, Copy)]
pub struct Last {
    pub ms: GameMs,
    pub x: u16,
    pub y: u16,
}

// The mouse event before the first one.
pub fn nothing_yet() -> Last
    ensures { result ≡ nothing_yet }
{
    Last {
        ms: GameMs(0),
        x: 0,
        y: 0,
    }
}

// The difference from one number to another, modulo 65536.
pub fn difference(from: u16, to: u16) -> u16
    ensures { result ≡ difference from to }
{
    to.wrapping_sub(from)
}

// How many bytes a mouse event takes: in version 4 its pauses and a record, in version 3 always one record.
#[tactic(auto, using(crate::proofs::Waits::pauses_long))]
pub fn mouse_len(version: u8, last: GameMs, ms: GameMs) -> usize
    ensures { result ≡ (if nat_eq version 4 then length (pauses_of (ms.0 - last.0)) + 6 else 8) }
{
    if version != 4 {
        return RECORD_3_LEN;
    }
    pauses_len(wait_of(last, ms)) + RECORD_4_LEN
}
