// The event records of version 4, by what stands at a place of the file: the first, and those after it.
#![tactic(auto)]

ghost use Rattle.std.specs.Prelude.{◌≡◌, ◌<◌, length, get_or};
ghost use Rattle.records_v4.specs.Tells.{TellsFirst, TellsLater};

use game::refusals::{CODE_UNKNOWN, FILE_ENDS, FIRST_CODE_UNKNOWN};
use game::{GameState, MouseKind};
use record_fields::u16_of;
use times::GameMs;

pub mod mouse; // a mouse event's record behind the first, by its bytes

// The code that ends the events.
const END: u8 = 0;
// The largest code of a mouse event.
pub const LAST_KIND: u8 = 12;
// The smallest code that is skipped alone; all above are, but for a pause.
const FIRST_SKIPPED: u8 = 100;
// The code of a pause.
const PAUSE: u8 = 255;

// The first record of version 4: a mouse event in 6 bytes, or the refusal.
#[derive(Clone, Copy)]
pub enum FirstRecord {
    Mouse {
        kind: MouseKind,
        ms: GameMs,
        x: u16,
        y: u16,
    },
    Refused(u8),
}

// A record of version 4 after the first: a mouse event in 6 bytes, told by what it changes; a game state in
// 2; the end; a code that is skipped alone; a pause in 3; or the refusal.
#[derive(Clone, Copy)]
pub enum LaterRecord {
    Mouse {
        kind: MouseKind,
        wait: u8,
        dx: u16,
        dy: u16,
    },
    State {
        state: GameState,
        wait: u8,
    },
    Stop,
    Skip,
    Pause {
        ms: u16,
    },
    Refused(u8),
}

// Reads the first record of version 4 at a place; 8 for a code that it may not begin with, also where that is
// the last byte.
pub fn first_record(file: &[u8], at: usize) -> FirstRecord
    ensures { TellsFirst file.now at result }
{
    if file.len() <= at {
        return FirstRecord::Refused(FILE_ENDS);
    }
    let kind = MouseKind::from(file[at]);
    if !game::may_begin(kind) {
        return FirstRecord::Refused(FIRST_CODE_UNKNOWN);
    }
    if file.len() - at < 6 {
        return FirstRecord::Refused(FILE_ENDS);
    }
    FirstRecord::Mouse {
        kind,
        ms: GameMs(file[at + 1] as u32),
        x: u16_of(file[at + 2], file[at + 3]),
        y: u16_of(file[at + 4], file[at + 5]),
    }
}

// Reads the record at a place whose code is above 12.
fn other_record(file: &[u8], at: usize, code: u8) -> LaterRecord
    requires { (at < length file.now) × (code ≡ get_or file.now at 0) × (12 < code) }
    ensures { TellsLater file.now at result }
{
    if code == PAUSE {
        if file.len() - at < 3 {
            return LaterRecord::Refused(FILE_ENDS);
        }
        return LaterRecord::Pause {
            ms: u16_of(file[at + 1], file[at + 2]),
        };
    }
    if FIRST_SKIPPED <= code {
        return LaterRecord::Skip;
    }
    match GameState::from_code(code) {
        Some(state) => {
            if file.len() - at < 2 {
                return LaterRecord::Refused(FILE_ENDS);
            }
            LaterRecord::State {
                state,
                wait: file[at + 1],
            }
        }
        None => LaterRecord::Refused(CODE_UNKNOWN),
    }
}

// Reads the record of version 4 after the first at a place; 1 where the file ends inside it, 9 for a code
// that stands for nothing.
pub fn later_record(file: &[u8], at: usize) -> LaterRecord
    ensures { TellsLater file.now at result }
{
    if file.len() <= at {
        return LaterRecord::Refused(FILE_ENDS);
    }
    let code = file[at];
    if LAST_KIND < code {
        return other_record(file, at, code);
    }
    if code == END {
        return LaterRecord::Stop;
    }
    if file.len() - at < 6 {
        return LaterRecord::Refused(FILE_ENDS);
    }
    LaterRecord::Mouse {
        kind: MouseKind::from(code),
        wait: file[at + 1],
        dx: u16_of(file[at + 2], file[at + 3]),
        dy: u16_of(file[at + 4], file[at + 5]),
    }
}
