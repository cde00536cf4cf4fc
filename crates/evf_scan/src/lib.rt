// The events of a file counted in one pass, and where they end.
#![tactic(auto)]

ghost use Rattle.std.specs.Prelude.{◌≡◌, ◌≤◌};
ghost use Rattle.evf_scan.specs.Scanning.{scan_of};
ghost use Rattle.evf_scan.specs.Counts.{CountsOld, CountsLater};

use evf_events::{EventCursor, Step};
use game::refusals::{FILE_ENDS, MS_TOO_LARGE, VERSION_UNKNOWN};
use record_fields::LARGEST_MS;
use records_v0_v3::{END_ALONE, END_AND_CHECKSUM};
use records_v4::{LaterRecord, later_record};
use times::GameMs;

// The number of events and where they end, as a step says it; or the refusal.
#[derive(Clone, Copy)]
pub enum Scan {
    All {
        events: usize,
        at: usize,
        checksum: bool,
    },
    Refused(u8),
}

// Counts the events of versions 0 to 3 from a place on. Their kinds do not matter, so neither does the
// version.
fn scan_old(file: &[u8], from: usize) -> Scan
    ensures { CountsOld file.now from 0 result }
{
    let mut events: usize = 0;
    for at in (from..file.len()).step_by(8) {
        let code = file[at];
        if code == END_AND_CHECKSUM || code == END_ALONE {
            return Scan::All {
                events,
                at: at + 1,
                checksum: code == END_AND_CHECKSUM,
            };
        }
        if file.len() - at < 8 {
            return Scan::Refused(FILE_ENDS);
        }
        events += 1;
    }
    Scan::Refused(FILE_ENDS)
}

// Counts the events of version 4 from a place behind the first record on, where the last one was at `last`
// and `before` of them are counted.
fn scan_later(file: &[u8], from: usize, last: GameMs, before: usize) -> Scan
    requires { before ≤ from }
    ensures { CountsLater file.now from last.0 0 before result }
{
    let mut ms = u64::from(last.0);
    let mut pending: u64 = 0;
    let mut at = from;
    let mut events = before;
    while ms <= LARGEST_MS {
        match later_record(file, at) {
            LaterRecord::Mouse { wait, .. } => {
                ms += pending + u64::from(wait);
                pending = 0;
                at += 6;
                events += 1;
            }
            LaterRecord::State { wait, .. } => {
                ms += pending + u64::from(wait);
                pending = 0;
                at += 2;
                events += 1;
            }
            LaterRecord::Skip => at += 1,
            LaterRecord::Pause { ms: pause } => {
                pending += u64::from(pause);
                at += 3;
                if LARGEST_MS < pending {
                    return Scan::Refused(MS_TOO_LARGE);
                }
            }
            LaterRecord::Stop => return Scan::All {
                events,
                at: at + 1,
                checksum: true,
            },
            LaterRecord::Refused(n) => return Scan::Refused(n),
        }
    }
    Scan::Refused(MS_TOO_LARGE)
}

// Counts all events from a cursor on in one pass: how many there are and where they end, as the cursor's
// steps would come to it; or the refusal of the first step that fails.
pub fn scan_events(cursor: EventCursor, file: &[u8]) -> Scan
    ensures { result ≡ scan_of file.now cursor }
{
    if cursor.version < 4 {
        return scan_old(file, cursor.at);
    }
    if 4 < cursor.version {
        return Scan::Refused(VERSION_UNKNOWN);
    }
    if !cursor.first {
        return scan_later(file, cursor.at, cursor.ms, 0);
    }
    match cursor.first_step(file) {
        Step::Got(_, c) => scan_later(file, c.at, c.ms, 1),
        Step::End { at, checksum } => Scan::All {
            events: 0,
            at,
            checksum,
        },
        Step::Refused(n) => Scan::Refused(n),
    }
}
