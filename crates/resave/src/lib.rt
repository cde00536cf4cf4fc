// A replay of any version read and written again as version 4, with its custom metrics and without its game
// states. No board and no row is lent: the events are passed along the cursor, once judged and once written.
// Behind each event a run of plain ones is taken at once.
#![tactic(auto)]

ghost use Rattle.std.specs.Prelude.{◌≡◌, ◌<◌};
ghost use Rattle.evf_events.specs.Events.{first_events};
ghost use Rattle.evf_records.specs.Steps.{unseen, seen_by, put_by};
ghost use Rattle.resave.specs.Resaved.{Resaves, ResavesTold};
ghost use Rattle.resave.specs.Steps.{SavesLent, SavesPacked};

use evf_events::{EventCursor, Step};
use evf_records::{Run, Seen, before_row, judge_entry, put_entry};
use evf_video::Outcome;
use game::Header;
use generate_evf::{Written, refused};
use passes::plain_v4::{judge_run, put_run};
use text::Place;

// The cells of the largest board, 255 × 255.
const MOST_CELLS: usize = 65025;

// Judges and measures for version 4 by a rule so many events from a cursor on.
fn judge_events(file: &[u8], from: EventCursor, events: usize, rule: u8) -> Seen
    ensures { result ≡ seen_by (unseen 4 rule) (first_events events file.now from) }
{
    let mut c = from;
    let mut seen = before_row(4, rule);
    let mut left = events;
    // a run answers how many are left, so that no `for` counts them
    while 0 < left {
        let Step::Got(event, next) = c.step(file) else {
            break;
        };
        let on = judge_run(file, next, judge_entry(seen, event), left - 1);
        seen = on.seen;
        c = on.cursor;
        left = on.left;
    }
    seen
}

// Writes so many events from a cursor on, from where `run` stands.
fn put_events(file: &[u8], from: EventCursor, events: usize, out: &mut [u8], run: Run)
    ensures { out.new ≡ (put_by run out.old
        (first_events events file.now from)).1 }
{
    let mut c = from;
    let mut r = run;
    let mut left = events;
    // a run answers how many are left, so that no `for` counts them
    while 0 < left {
        let Step::Got(event, next) = c.step(file) else {
            return;
        };
        r = put_entry(out, r, event);
        let on = put_run(file, next, out, r, left - 1);
        r = on.run;
        c = on.cursor;
        left = on.left;
    }
}

// Writes a game as version 4 by a rule, its board lent and so many events in the file from a cursor on.
fn save_lent(
    h: Header,
    file: &[u8],
    board: &[i8],
    from: EventCursor,
    events: usize,
    copy: &mut [u8],
    rule: u8,
) -> Written
    ensures { SavesLent file.now h board.now (first_events events file.now from)
        copy.old rule result copy.new }
{
    let seen = judge_events(file, from, events, rule);
    let ready = generate_evf::prepare(h, file, board, seen, copy);
    put_events(file, from, events, copy, ready.run);
    ready.written
}

// The same with its board still packed in the file.
fn save_packed(
    h: Header,
    file: &[u8],
    place: Place,
    from: EventCursor,
    events: usize,
    copy: &mut [u8],
    rule: u8,
) -> Written
    requires { (h.height < 256) × (h.width < 256) }
    ensures { SavesPacked file.now h place (first_events events file.now from)
        copy.old rule result copy.new }
{
    let mut board = [0i8; MOST_CELLS];
    let bits = text::part(file, place);
    board::read_board(bits, h.height as u8, h.width as u8, &mut board);
    save_lent(h, file, &board, from, events, copy, rule)
}

// Writes a file of any version again as version 4 by a rule, into the first bytes of a lent copy: the length,
// 1 to 10, 26, 16, 19 to 22, or 23. A file of version 4 is answered with a length, 1 to 3, 7 to 10, 26, 16 or
// 23. Refused, it changes nothing.
pub fn resave(file: &[u8], copy: &mut [u8], rule: u8) -> Written
    ensures { Resaves file.now copy.old rule result copy.new }
{
    let judged = evf_video::judge(file);
    match judged.outcome {
        Outcome::Read => save_packed(
            judged.header,
            file,
            judged.board,
            judged.cursor,
            judged.events,
            copy,
            rule,
        ),
        Outcome::Refused(n) => refused(n),
    }
}

// The same for hosts, as one number: below `upgrade::SHORTEST_COPY` that of the refusal, else the length of
// the copy, which was written if it is not above the lent copy's.
#[unsafe(no_mangle)]
pub extern "C" fn evf_resave(file: &[u8], copy: &mut [u8], rule: u8) -> usize
    ensures { ResavesTold file.now copy.old rule result copy.new }
{
    upgrade::told(resave(file, copy, rule))
}
