// Runs of plain events in a file of version 4: a mouse event right behind another one has the same record in
// every file. One loop does no more than such events ask.
ghost use Rattle.std.specs.Prelude.{◌≡◌, ◌+◌, ◌≤◌, true};
ghost use Rattle.evf_records.specs.Steps.{run_past, seen_begun4, seen_last};
ghost use Rattle.passes.specs.PlainRuns.{seen_to};
ghost use Rattle.passes.specs.PlainV4.{cursor_at, is_behind, moved_by};
ghost use Rattle.passes.specs.PlainV4.{JudgesRun, PutsRun};

use crate::plain::{has_room, put_record};
use evf_events::EventCursor;
use evf_records::{Run, Seen};
use mouse_records::Last;
use records_v4::mouse::{MouseRecord, RECORD_LEN, is_mouse, mouse_at};
use times::GameMs;

// The latest moment behind which every wait of a record still fits a u32.
const LATEST: u32 = 4294967040;

// Where reading stands behind a run, what is known of the events up to there, and how many are left.
#[derive(Clone, Copy)]
pub struct RunJudged {
    pub cursor: EventCursor,
    pub seen: Seen,
    pub left: usize,
}

// Where reading and writing stand behind a run, and how many events are left.
#[derive(Clone, Copy)]
pub struct RunPut {
    pub cursor: EventCursor,
    pub run: Run,
    pub left: usize,
}

// Whether a cursor of version 4 stands behind the mouse event `last`, in time and place.
#[tactic(auto, unfolding(crate::specs::PlainV4::is_behind))]
fn is_behind(c: EventCursor, last: Last) -> bool
    ensures { result ≡ is_behind c last }
{
    c.version == 4 && !c.first && c.ms.0 == last.ms.0 && c.x == last.x && c.y == last.y
}

// The cursor behind the mouse event `last`.
fn cursor_at(at: usize, last: Last) -> EventCursor
    ensures { result ≡ cursor_at at last }
{
    EventCursor {
        version: 4,
        at,
        first: false,
        ms: last.ms,
        x: last.x,
        y: last.y,
    }
}

// The mouse event behind another one, by what its record tells.
fn moved(last: Last, r: MouseRecord) -> Last
    requires { last.ms.0 + r.wait ≤ 4294967295 }
    ensures { result ≡ moved_by last r }
{
    Last {
        ms: GameMs(last.ms.0 + r.wait as u32),
        x: last.x.wrapping_add(r.dx),
        y: last.y.wrapping_add(r.dy),
    }
}

// What is known behind a run that takes n bytes, and its last event.
fn judged_to(at: usize, last: Last, seen: Seen, n: usize, left: usize) -> RunJudged
    ensures { result ≡ record { cursor = cursor_at at last; seen = seen_to seen last n; left = left } }
{
    RunJudged {
        cursor: cursor_at(at, last),
        seen: seen.past_plain(last, n / RECORD_LEN, n),
        left,
    }
}

// Judges and measures a run of so many events at most from a place on, behind the last mouse event.
fn judge_moves(file: &[u8], from: usize, seen: Seen, left: usize) -> RunJudged
    requires { seen_begun4 seen ≡ true }
    ensures { JudgesRun file.now (cursor_at from (seen_last seen)) seen left result.cursor result.seen
        result.left }
{
    let mut at = from;
    let mut last = seen.last();
    for taken in 0..left {
        if !is_mouse(file, at) || LATEST < last.ms.0 {
            return judged_to(at, last, seen, at - from, left - taken);
        }
        last = moved(last, mouse_at(file, at));
        at += RECORD_LEN;
    }
    judged_to(at, last, seen, at - from, 0)
}

// Judges and measures a run of so many events at most. It is empty where the cursor does not stand behind the
// last mouse event.
pub fn judge_run(file: &[u8], c: EventCursor, seen: Seen, left: usize) -> RunJudged
    ensures { JudgesRun file.now c seen left result.cursor result.seen result.left }
{
    if !seen.begun_4() || !is_behind(c, seen.last()) {
        return RunJudged {
            cursor: c,
            seen,
            left,
        };
    }
    judge_moves(file, c.at, seen, left)
}

// Where reading and writing stand behind a run, and its last event.
fn run_to(at: usize, rule: u8, to: usize, last: Last, left: usize) -> RunPut
    ensures { result ≡ record { cursor = cursor_at at last; run = run_past rule to last; left = left } }
{
    RunPut {
        cursor: cursor_at(at, last),
        run: Run::past_plain(rule, to, last),
        left,
    }
}

// Writes a run of so many events at most from a place on, behind the mouse event `first`, up to the buffer's
// end.
fn put_moves(
    file: &[u8],
    from: usize,
    out: &mut [u8],
    rule: u8,
    start: usize,
    first: Last,
    left: usize,
) -> RunPut
    ensures { PutsRun file.now (cursor_at from first) (run_past rule start first) out.old left
        result.cursor result.run out.new result.left }
{
    let mut at = from;
    let mut to = start;
    let mut last = first;
    for taken in 0..left {
        if !has_room(out.len(), to) || !is_mouse(file, at) || LATEST < last.ms.0 {
            return run_to(at, rule, to, last, left - taken);
        }
        let r = mouse_at(file, at);
        put_record(out, to, r);
        last = moved(last, r);
        at += RECORD_LEN;
        to += RECORD_LEN;
    }
    run_to(at, rule, to, last, 0)
}

// Writes a run of so many events at most. It is empty where writing is off, or of another version, or the
// cursor does not stand behind the last mouse event.
pub fn put_run(file: &[u8], c: EventCursor, out: &mut [u8], run: Run, left: usize) -> RunPut
    ensures { PutsRun file.now c run out.old left result.cursor result.run out.new
        result.left }
{
    if !run.on_4() || !is_behind(c, run.last()) {
        return RunPut {
            cursor: c,
            run,
            left,
        };
    }
    put_moves(file, c.at, out, run.rule(), run.place(), run.last(), left)
}
