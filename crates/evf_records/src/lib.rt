// The event records of versions 3 and 4 as they are written: a row judged and measured in one pass, and
// written in another.
#![tactic(auto)]

ghost use Rattle.std.specs.Prelude.{◌≡◌};
ghost use Rattle.evf_records.specs.Steps.{unseen, unseen_behind, seen_version, seen_rule, seen_length};
ghost use Rattle.evf_records.specs.Steps.{seen_last, seen_start_bad, seen_event_bad, seen_begun4, seen_past};
ghost use Rattle.evf_records.specs.Steps.{run_from, run_past, run_off, run_on4, run_rule, run_place, run_last};
ghost use Rattle.evf_records.specs.Steps.{seen_after, seen_by, ran_after, wrote_after, put_by, JudgesMove};
ghost use Rattle.evf_records.specs.Steps.{PutsMove};

use byte_writer::{Length, advance, length_of};
use game::{Event, MouseKind};
use judging::{first_mouse_fault, in_version_4, keep_first, mouse_fault};
use mouse_records::writing::put_mouse;
use mouse_records::{Last, mouse_len, nothing_yet};
use times::{GameMs, rounded_ms};

mod judging; // whether an entry can be written, and how long it is

// What keeps a version from beginning with a row (21), the first of these that holds: there is no entry; the
// first one is a game state; its kind; its milliseconds, which are given.
#[derive(Clone, Copy)]
pub enum FirstFault {
    NoEntry,
    NotMouse,
    Kind,
    TooLate(GameMs),
}

// What keeps a version from holding a row (22): the first entry, by its place from 0 among all entries, that
// is ub, or earlier than the last mouse event before it, or past version 3's milliseconds.
#[derive(Clone, Copy)]
pub enum EntryFault {
    Unnamed {
        place: usize,
    },
    Earlier {
        place: usize,
        last: GameMs,
        ms: GameMs,
    },
    PastVersion3 {
        place: usize,
        ms: GameMs,
    },
}

// What is known of the entries of a row so far, for a version and a rule of rounding: their number, what
// keeps the version from holding them, the last mouse event, and how many bytes they take.
#[derive(Clone, Copy)]
pub struct Seen {
    version: u8,
    rule: u8,
    entries: usize,
    first_fault: Option<FirstFault>,
    entry_fault: Option<EntryFault>,
    last: Last,
    len: Length,
}

// Where writing entries stands. Nothing is written where it is off.
#[derive(Clone, Copy)]
pub struct Run {
    version: u8,
    rule: u8,
    off: bool,
    at: usize,
    last: Last,
}

// Starts judging a row for a version by a rule, with `bytes` counted before it.
pub fn before_row_behind(version: u8, rule: u8, bytes: usize) -> Seen
    ensures { result ≡ unseen_behind version rule bytes }
{
    Seen {
        version,
        rule,
        entries: 0,
        first_fault: in_version_4(version, FirstFault::NoEntry),
        entry_fault: None,
        last: nothing_yet(),
        len: length_of(bytes),
    }
}

// Starts judging a row for a version by a rule, with no bytes counted before it.
pub fn before_row(version: u8, rule: u8) -> Seen
    ensures { result ≡ unseen version rule }
{
    before_row_behind(version, rule, 0)
}

impl Seen {
    // Gives the version that the row is judged for.
    pub fn version(self) -> u8
        ensures { result ≡ seen_version self }
    {
        self.version
    }

    // Gives the rule that the row is judged by.
    pub fn rule(self) -> u8
        ensures { result ≡ seen_rule self }
    {
        self.rule
    }

    // Gives how many bytes the row takes so far.
    pub fn length(self) -> Length
        ensures { result ≡ seen_length self }
    {
        self.len
    }

    // Tells whether the version cannot begin with the row: 21.
    pub fn start_bad(self) -> bool
        ensures { result ≡ seen_start_bad self }
    {
        self.first_fault.is_some()
    }

    // Tells whether the version cannot hold an entry: 22.
    pub fn event_bad(self) -> bool
        ensures { result ≡ seen_event_bad self }
    {
        self.entry_fault.is_some()
    }

    // Gives the last mouse event.
    pub fn last(self) -> Last
        ensures { result ≡ seen_last self }
    {
        self.last
    }

    // Tells whether an entry was seen, for version 4: only then may a run of plain events follow at once.
    pub fn begun_4(self) -> bool
        ensures { result ≡ seen_begun4 self }
    {
        self.entries != 0 && self.version == 4
    }

    // Passes over a run of plain events: so many entries and bytes more, and the last mouse event among them.
    pub fn past_plain(self, last: Last, entries: usize, bytes: usize) -> Seen
        ensures { result ≡ seen_past self last entries bytes }
    {
        Seen {
            entries: advance(self.entries, entries),
            last,
            len: self.len.plus(bytes),
            ..self
        }
    }
}

impl Run {
    // Starts writing from a place by a rule, before the first entry.
    pub fn from_place(version: u8, rule: u8, at: usize) -> Run
        ensures { result ≡ run_from version rule at }
    {
        Run {
            version,
            rule,
            off: false,
            at,
            last: nothing_yet(),
        }
    }

    // Gives writing that is off, which writes nothing.
    pub fn off(version: u8, rule: u8) -> Run
        ensures { result ≡ run_off version rule }
    {
        Run {
            version,
            rule,
            off: true,
            at: 0,
            last: nothing_yet(),
        }
    }

    // Gives writing of version 4 that stands at a place behind a run of plain events, whose last one is
    // given.
    pub fn past_plain(rule: u8, at: usize, last: Last) -> Run
        ensures { result ≡ run_past rule at last }
    {
        Run {
            version: 4,
            rule,
            off: false,
            at,
            last,
        }
    }

    // Tells whether writing is on, in version 4.
    pub fn on_4(self) -> bool
        ensures { result ≡ run_on4 self }
    {
        !self.off && self.version == 4
    }

    // Gives the rule that is written by.
    pub fn rule(self) -> u8
        ensures { result ≡ run_rule self }
    {
        self.rule
    }

    // Gives the place where the next entry goes.
    pub fn place(self) -> usize
        ensures { result ≡ run_place self }
    {
        self.at
    }

    // Gives the mouse event before the next entry.
    pub fn last(self) -> Last
        ensures { result ≡ run_last self }
    {
        self.last
    }
}

// Judges and measures one mouse event more, at given milliseconds.
pub fn judge_move(seen: Seen, kind: MouseKind, ms: GameMs, x: u16, y: u16) -> Seen
    ensures { JudgesMove seen kind ms.0 x y result }
{
    let version = seen.version;
    let entries = seen.entries;
    let before = seen.last.ms;
    let start = first_mouse_fault(version, kind, ms);
    let fault = mouse_fault(version, entries, before, kind, ms);
    Seen {
        entries: advance(entries, 1),
        first_fault: keep_first(entries, start, seen.first_fault),
        entry_fault: seen.entry_fault.or(fault),
        last: Last { ms, x, y },
        len: seen.len.plus(mouse_len(version, before, ms)),
        ..seen
    }
}

// Judges and measures one entry more. A game state is not written: it takes no bytes and leaves the last
// mouse event as it is, but it counts as an entry.
pub fn judge_entry(seen: Seen, e: Event) -> Seen
    ensures { result ≡ seen_after seen e }
{
    match e {
        Event::Mouse {
            seconds,
            kind,
            x,
            y,
        } => {
            let ms = rounded_ms(seconds, seen.rule);
            judge_move(seen, kind, ms, x, y)
        }
        Event::State { .. } => {
            let start = in_version_4(seen.version, FirstFault::NotMouse);
            Seen {
                entries: advance(seen.entries, 1),
                first_fault: keep_first(seen.entries, start, seen.first_fault),
                ..seen
            }
        }
    }
}

// Judges and measures the entries of a row more.
pub fn judge_row(row: &[Event], from: Seen) -> Seen
    ensures { result ≡ seen_by from row.now }
{
    let mut seen = from;
    for e in row {
        seen = judge_entry(seen, *e);
    }
    seen
}

// Writes one mouse event, at given milliseconds. Answers where writing stands then.
pub fn put_move(out: &mut [u8], run: Run, kind: MouseKind, ms: GameMs, x: u16, y: u16) -> Run
    ensures { PutsMove run kind ms.0 x y out.old out.new result }
{
    if run.off {
        return run;
    }
    let last = Last { ms, x, y };
    let at = put_mouse(out, run.at, run.version, run.last, kind, last);
    Run { at, last, ..run }
}

// Writes one entry. Answers where writing stands then.
pub fn put_entry(out: &mut [u8], run: Run, e: Event) -> Run
    ensures { (result ≡ ran_after run e) × (out.new ≡ wrote_after out.old run e) }
{
    match e {
        Event::Mouse {
            seconds,
            kind,
            x,
            y,
        } => {
            let ms = rounded_ms(seconds, run.rule);
            put_move(out, run, kind, ms, x, y)
        }
        Event::State { .. } => run,
    }
}

// Writes the entries of a row. Answers where writing stands then.
pub fn put_row(row: &[Event], out: &mut [u8], from: Run) -> Run
    ensures { (result ≡ (put_by from out.old row.now).0)
        × (out.new ≡ (put_by from out.old row.now).1) }
{
    let mut run = from;
    for e in row {
        run = put_entry(out, run, *e);
    }
    run
}
