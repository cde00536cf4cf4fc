// The record of a mouse event of version 4 behind the first event, told by its bytes alone: for loops that
// pass many of them.
ghost use Rattle.std.specs.Prelude.{◌≡◌};
ghost use Rattle.records_v4.specs.MouseRecords.{is_mouse, MouseHere, ReadsMouse};

use crate::LAST_KIND;
use record_fields::u16_of;

// The bytes of such a record.
pub const RECORD_LEN: usize = 6;

// The smallest code of a mouse event.
const FIRST_KIND: u8 = 1;

// A record: its code, and what it changes.
#[derive(Clone, Copy)]
pub struct MouseRecord {
    pub code: u8,
    pub wait: u8,
    pub dx: u16,
    pub dy: u16,
}

// Whether the whole record of a mouse event stands at a place.
pub fn is_mouse(file: &[u8], at: usize) -> bool
    ensures { result ≡ is_mouse file.now at }
{
    if file.len() <= at {
        return false;
    }
    if file.len() - at < RECORD_LEN {
        return false;
    }
    let code = file[at];
    if code < FIRST_KIND {
        return false;
    }
    code <= LAST_KIND
}

// Reads the record of a mouse event that stands at a place.
fn record_at(file: &[u8], at: usize) -> MouseRecord
    requires { MouseHere file.now at }
    ensures { ReadsMouse file.now at result }
{
    MouseRecord {
        code: file[at],
        wait: file[at + 1],
        dx: u16_of(file[at + 2], file[at + 3]),
        dy: u16_of(file[at + 4], file[at + 5]),
    }
}

// Reads the record of a mouse event; one of zeros where none stands at the place.
pub fn mouse_at(file: &[u8], at: usize) -> MouseRecord
    ensures { ReadsMouse file.now at result }
{
    if is_mouse(file, at) {
        return record_at(file, at);
    }
    MouseRecord {
        code: 0,
        wait: 0,
        dx: 0,
        dy: 0,
    }
}
