// The events of a file of versions 0 to 3, passed once judged and once written; and runs of plain events in a
// file of version 4.
#![tactic(auto)]

ghost use Rattle.passes.specs.EventPasses.{Surveys, PutsEvents};

use evf_records::{Run, Seen, before_row, judge_move, put_move};
use plain::{look_plain, put_plain};
use records_v0_v3::{OldRecord, old_record};

mod plain; // runs of events that take no pause
pub mod plain_v4; // the same in a file of version 4

// The bytes of a record of versions 0 to 3.
const OLD_LEN: usize = 8;

// What is known of a file's events in one pass: as they are to be written, and where they end; or the
// refusal.
#[derive(Clone, Copy)]
pub enum Survey {
    All {
        seen: Seen,
        at: usize,
        checksum: bool,
    },
    Refused(u8),
}

// Judges and measures for version 4, by a rule, the events of versions 0 to 3 from a place on.
pub fn look_over(file: &[u8], version: u8, from: usize, rule: u8) -> Survey
    ensures { Surveys file.now version from rule result }
{
    let mut at = from;
    let mut seen = before_row(4, rule);
    loop {
        match old_record(file, version, at) {
            OldRecord::Mouse { kind, ms, x, y } => {
                let on = look_plain(
                    file,
                    version,
                    at + OLD_LEN,
                    judge_move(seen, kind, ms, x, y),
                );
                seen = on.seen;
                at = on.at;
            }
            OldRecord::End { checksum } => {
                return Survey::All {
                    seen,
                    at: at + 1,
                    checksum,
                };
            }
            OldRecord::Refused(n) => return Survey::Refused(n),
        }
    }
}

// Writes the events of versions 0 to 3 from a place on, from where `run` stands.
pub fn put_events(file: &[u8], version: u8, from: usize, out: &mut [u8], run: Run)
    ensures { PutsEvents file.now version from run out.old out.new }
{
    let mut at = from;
    let mut r = run;
    while let OldRecord::Mouse { kind, ms, x, y } = old_record(file, version, at) {
        r = put_move(out, r, kind, ms, x, y);
        let on = put_plain(file, version, at + OLD_LEN, out, r);
        r = on.run;
        at = on.at;
    }
}
