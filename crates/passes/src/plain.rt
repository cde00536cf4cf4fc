// Runs of plain events, which version 4 holds in records without pauses: most of a file. One loop does no
// more than such events ask.
ghost use Rattle.std.specs.Prelude.{◌≡◌, ◌+◌, ◌≤◌, true, length};
ghost use Rattle.std.proofs.lemmas.List.Edits.{sets};
ghost use Rattle.mouse_records.specs.Records.{record4};
ghost use Rattle.evf_records.specs.Plain.{is_plain};
ghost use Rattle.evf_records.specs.Steps.{run_past};
ghost use Rattle.passes.specs.PlainRuns.{plain_bytes, HasRoom, LooksOn, PutsOn, seen_to};

use crate::OLD_LEN;
use evf_records::{Run, Seen};
use game::MouseKind;
use mouse_records::{Last, difference};
use records_v0_v3::{OldRecord, old_record};
use records_v4::mouse::{MouseRecord, RECORD_LEN};
use times::GameMs;

// The longest wait that a record tells by itself.
const LONGEST_WAIT: u32 = 255;

// The place behind a run, and what is known of the events up to there.
#[derive(Clone, Copy)]
pub(crate) struct LookedOn {
    pub(crate) at: usize,
    pub(crate) seen: Seen,
}

// The place behind a run, and where writing stands.
#[derive(Clone, Copy)]
pub(crate) struct PutOn {
    pub(crate) at: usize,
    pub(crate) run: Run,
}

// Whether a mouse event is plain behind one at `last`.
#[tactic(auto, unfolding(evf_records::specs::Plain::is_plain))]
fn is_plain(last: GameMs, kind: MouseKind, ms: GameMs) -> bool
    ensures { result ≡ is_plain last.0 kind ms.0 }
{
    !matches!(kind, MouseKind::Ub) && last.0 <= ms.0 && ms.0 - last.0 <= LONGEST_WAIT
}

// What is known behind a run that takes n bytes as it is to be written, and its last event.
fn looked_to(at: usize, seen: Seen, last: Last, n: usize) -> LookedOn
    ensures { result ≡ record { at = at; seen = seen_to seen last n } }
{
    LookedOn {
        at,
        seen: seen.past_plain(last, n / RECORD_LEN, n),
    }
}

// A run judged and measured. It is empty before the first entry, which is judged as no other is.
pub(crate) fn look_plain(file: &[u8], version: u8, from: usize, seen: Seen) -> LookedOn
    ensures { LooksOn file.now version from seen result.at result.seen }
{
    if !seen.begun_4() {
        return LookedOn { at: from, seen };
    }
    let mut at = from;
    let mut n: usize = 0;
    let mut last = seen.last();
    while let OldRecord::Mouse { kind, ms, x, y } = old_record(file, version, at) {
        if !is_plain(last.ms, kind, ms) {
            break;
        }
        last = Last { ms, x, y };
        at += OLD_LEN;
        n += RECORD_LEN;
    }
    looked_to(at, seen, last, n)
}

// Writes a record, which the buffer has room for.
pub(crate) fn put_record(out: &mut [u8], at: usize, r: MouseRecord)
    requires { at + 6 ≤ length out.old }
    ensures { out.new ≡ sets out.old at (plain_bytes r) }
{
    let [dx_high, dx_low] = r.dx.to_be_bytes();
    let [dy_high, dy_low] = r.dy.to_be_bytes();
    out[at] = r.code;
    out[at + 1] = r.wait;
    out[at + 2] = dx_high;
    out[at + 3] = dx_low;
    out[at + 4] = dy_high;
    out[at + 5] = dy_low;
}

// The record of a plain event behind the one at `last`.
fn record_of(last: Last, kind: MouseKind, to: Last) -> MouseRecord
    requires { is_plain last.ms.0 kind to.ms.0 ≡ true }
    ensures { plain_bytes result ≡ record4 last kind to.ms.0 to.x to.y }
{
    MouseRecord {
        code: u8::from(kind),
        wait: (to.ms.0 - last.ms.0) as u8,
        dx: difference(last.x, to.x),
        dy: difference(last.y, to.y),
    }
}

// Whether a buffer of n bytes has room for a record at a place.
pub(crate) fn has_room(n: usize, at: usize) -> bool
    ensures { HasRoom n at result }
{
    at < n && RECORD_LEN <= n - at
}

// Where reading and writing stand behind a run, and its last event.
fn put_to(at: usize, rule: u8, to: usize, last: Last) -> PutOn
    ensures { result ≡ record { at = at; run = run_past rule to last } }
{
    PutOn {
        at,
        run: Run::past_plain(rule, to, last),
    }
}

// Writes a run of version 4 from a place on, behind the mouse event `first`, up to its end or the buffer's.
fn put_run(
    file: &[u8],
    version: u8,
    from: usize,
    out: &mut [u8],
    rule: u8,
    start: usize,
    first: Last,
) -> PutOn
    ensures { PutsOn file.now version from (run_past rule start first) out.old result.at
        result.run out.new }
{
    let mut at = from;
    let mut to = start;
    let mut last = first;
    while has_room(out.len(), to) {
        let OldRecord::Mouse { kind, ms, x, y } = old_record(file, version, at) else {
            break;
        };
        if !is_plain(last.ms, kind, ms) {
            break;
        }
        let next = Last { ms, x, y };
        put_record(out, to, record_of(last, kind, next));
        last = next;
        at += OLD_LEN;
        to += RECORD_LEN;
    }
    put_to(at, rule, to, last)
}

// Writes a run from where writing stands. Where writing is off, or of another version, the run is empty.
pub(crate) fn put_plain(file: &[u8], version: u8, from: usize, out: &mut [u8], run: Run) -> PutOn
    ensures { PutsOn file.now version from run out.old result.at result.run out.new }
{
    if !run.on_4() {
        return PutOn { at: from, run };
    }
    put_run(
        file,
        version,
        from,
        out,
        run.rule(),
        run.place(),
        run.last(),
    )
}
