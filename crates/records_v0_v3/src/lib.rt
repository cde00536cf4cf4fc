// The event records of versions 0 to 3, by what stands at a place of the file.
#![tactic(auto)]

ghost use Rattle.std.specs.Prelude.{◌≡◌};
ghost use Rattle.records_v0_v3.specs.Records.{kind_in};
ghost use Rattle.records_v0_v3.specs.Tells.{TellsOld};

use game::MouseKind;
use game::refusals::FILE_ENDS;
use record_fields::{u16_of, u24_of};
use times::GameMs;

// The code that ends the events and a checksum follows.
pub const END_AND_CHECKSUM: u8 = 0;
// The code that ends the events, and no checksum follows.
pub const END_ALONE: u8 = 255;
// The largest code that has a name before version 3.
const LAST_NAMED: u8 = 9;

// A record of versions 0 to 3: a mouse event in 8 bytes; the end in one, and whether a checksum follows; or
// the refusal.
#[derive(Clone, Copy)]
pub enum OldRecord {
    Mouse {
        kind: MouseKind,
        ms: GameMs,
        x: u16,
        y: u16,
    },
    End {
        checksum: bool,
    },
    Refused(u8),
}

// Names the kind of a code: 10 to 12 have names from version 3 on, and before are ub.
#[tactic(auto, unfolding(crate::specs::Records::kind_in))]
fn kind_in(version: u8, code: u8) -> MouseKind
    ensures { result ≡ kind_in version code }
{
    if 2 < version {
        return MouseKind::from(code);
    }
    if LAST_NAMED < code {
        return MouseKind::Ub;
    }
    MouseKind::from(code)
}

// Reads the record of versions 0 to 3 at a place; 1 where the file ends inside it.
pub fn old_record(file: &[u8], version: u8, at: usize) -> OldRecord
    ensures { TellsOld version file.now at result }
{
    if file.len() <= at {
        return OldRecord::Refused(FILE_ENDS);
    }
    let code = file[at];
    if code == END_AND_CHECKSUM {
        return OldRecord::End { checksum: true };
    }
    if code == END_ALONE {
        return OldRecord::End { checksum: false };
    }
    if file.len() - at < 8 {
        return OldRecord::Refused(FILE_ENDS);
    }
    OldRecord::Mouse {
        kind: kind_in(version, code),
        ms: GameMs(u24_of(file[at + 1], file[at + 2], file[at + 3])),
        x: u16_of(file[at + 4], file[at + 5]),
        y: u16_of(file[at + 6], file[at + 7]),
    }
}
