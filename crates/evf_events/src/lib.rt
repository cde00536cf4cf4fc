// The events of a file, given singly by a cursor: the records of versions 0 to 3 and of version 4.
#![tactic(auto)]

ghost use Rattle.std.specs.Prelude.{◌≡◌};
ghost use Rattle.records_v0_v3.specs.Records.{old_record};
ghost use Rattle.records_v4.specs.Records.{first_record, moves, becomes};
ghost use Rattle.evf_events.specs.Events.{mouse_at, whole, where_ms_fit, changed, later_from, step_of};
ghost use Rattle.evf_events.specs.Start.{first_cursor, open_of};

use byte_reader::ByteReader;
use game::refusals::{MS_TOO_LARGE, VERSION_UNKNOWN};
use game::{Event, GameState, MouseKind};
use record_fields::LARGEST_MS;
use records_v0_v3::{OldRecord, old_record};
use records_v4::{FirstRecord, LaterRecord, first_record, later_record};
use times::GameMs;

// Where reading stands: the place of the next record, whether version 4's first record is still to come, the
// last event's milliseconds and the last mouse position.
#[derive(Clone, Copy)]
pub struct EventCursor {
    pub version: u8,
    pub at: usize,
    pub first: bool,
    pub ms: GameMs,
    pub x: u16,
    pub y: u16,
}

// The next event with the cursor behind it; or the place behind the end's code and whether a checksum
// follows; or the refusal.
#[derive(Clone, Copy)]
pub enum Step {
    Got(Event, EventCursor),
    End { at: usize, checksum: bool },
    Refused(u8),
}

// Answers a mouse event at `ms` and `x`, `y`, with the cursor at `at`, the place behind its record.
fn mouse(version: u8, at: usize, kind: MouseKind, ms: u32, x: u16, y: u16) -> Step
    ensures { result ≡ mouse_at version at kind ms x y }
{
    Step::Got(
        Event::Mouse {
            seconds: times::seconds_of(GameMs(ms)),
            kind,
            x,
            y,
        },
        EventCursor {
            version,
            at,
            first: false,
            ms: GameMs(ms),
            x,
            y,
        },
    )
}

impl EventCursor {
    // Steps over a record of versions 0 to 3.
    fn old_step(self, file: &[u8]) -> Step
        ensures { result ≡ whole self.version (old_record self.version file.now self.at) }
    {
        let at = self.at;
        match old_record(file, self.version, at) {
            OldRecord::Mouse { kind, ms, x, y } => mouse(self.version, at + 8, kind, ms.0, x, y),
            OldRecord::End { checksum } => Step::End {
                at: at + 1,
                checksum,
            },
            OldRecord::Refused(n) => Step::Refused(n),
        }
    }

    // Steps over the first record of version 4, which is taken to stand at the cursor whatever its `version` and
    // `first` say: the event with the cursor behind it, or 1 or 8.
    pub fn first_step(self, file: &[u8]) -> Step
        ensures { result ≡ whole self.version (first_record file.now self.at) }
    {
        let at = self.at;
        match first_record(file, at) {
            FirstRecord::Mouse { kind, ms, x, y } => mouse(self.version, at + 6, kind, ms.0, x, y),
            FirstRecord::Refused(n) => Step::Refused(n),
        }
    }

    // Answers a mouse event at `ms`, moved on by `dx` and `dy` modulo 65536, with the cursor at `at`; 10
    // where a u32 has not that many ms.
    fn moved(self, at: usize, ms: u64, kind: MouseKind, dx: u16, dy: u16) -> Step
        ensures { result ≡ where_ms_fit ms (changed self at ms (moves kind dx dy)) }
    {
        let Ok(clock) = u32::try_from(ms) else {
            return Step::Refused(MS_TOO_LARGE);
        };
        let x = self.x.wrapping_add(dx);
        let y = self.y.wrapping_add(dy);
        mouse(self.version, at, kind, clock, x, y)
    }

    // Answers a game state at `ms`, which leaves the mouse where it is, with the cursor at `at`; 10 where a
    // u32 has not that many ms.
    fn came_to(self, at: usize, ms: u64, state: GameState) -> Step
        ensures { result ≡ where_ms_fit ms (changed self at ms (becomes state)) }
    {
        let Ok(clock) = u32::try_from(ms) else {
            return Step::Refused(MS_TOO_LARGE);
        };
        let seconds = times::seconds_of(GameMs(clock));
        Step::Got(
            Event::State { seconds, state },
            EventCursor {
                at,
                first: false,
                ms: GameMs(clock),
                ..self
            },
        )
    }

    // Steps over records of version 4 after the first, up to the next event or the end.
    fn later_step(self, file: &[u8]) -> Step
        ensures { result ≡ later_from file.now self self.at 0 }
    {
        let last = u64::from(self.ms.0);
        let mut at = self.at;
        let mut pending: u64 = 0;
        loop {
            match later_record(file, at) {
                LaterRecord::Mouse { kind, wait, dx, dy } => {
                    return self.moved(at + 6, last + (pending + u64::from(wait)), kind, dx, dy);
                }
                LaterRecord::State { state, wait } => {
                    return self.came_to(at + 2, last + (pending + u64::from(wait)), state);
                }
                LaterRecord::Stop => {
                    return Step::End {
                        at: at + 1,
                        checksum: true,
                    };
                }
                LaterRecord::Skip => at += 1,
                LaterRecord::Pause { ms } => {
                    pending += u64::from(ms);
                    at += 3;
                    if LARGEST_MS < pending {
                        return Step::Refused(MS_TOO_LARGE);
                    }
                }
                LaterRecord::Refused(n) => return Step::Refused(n),
            }
        }
    }

    // Steps to the next event, past pauses and skipped codes: the event with the cursor behind it; the end,
    // its checksum unread; or 1, 2, 8, 9 or 10.
    #[tactic(auto, unfolding(crate::specs::Events::step_of))]
    pub fn step(self, file: &[u8]) -> Step
        ensures { result ≡ step_of file.now self }
    {
        if self.version < 4 {
            return self.old_step(file);
        }
        if 4 < self.version {
            return Step::Refused(VERSION_UNKNOWN);
        }
        if self.first {
            return self.first_step(file);
        }
        self.later_step(file)
    }
}

// The cursor at a file's first record, or the refusal of what stands before it.
#[derive(Clone, Copy)]
pub enum Start {
    At(EventCursor),
    Refused(u8),
}

impl EventCursor {
    // Makes the cursor at `at`, a place where the first record of a version stands.
    pub fn at_first(version: u8, at: usize) -> EventCursor
        ensures { result ≡ first_cursor version at }
    {
        EventCursor {
            version,
            at,
            first: true,
            ms: GameMs(0),
            x: 0,
            y: 0,
        }
    }

    // Opens a file: the cursor at its first record, or 1 to 7.
    pub fn open(file: &[u8]) -> Start
        ensures { result ≡ open_of file.now }
    {
        let o = evf_header::read_opening(file);
        match o.next {
            ByteReader::At(at) => Start::At(EventCursor::at_first(o.header.version, at)),
            ByteReader::Refused(n) => Start::Refused(n),
        }
    }
}
