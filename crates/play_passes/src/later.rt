// Runs of mouse events in a file of version 4, one right behind the other: most of its events. A loop
// of their own does no more than they need.
ghost use Rattle.std.specs.Prelude.{◌≡◌, ◌+◌, ◌≤◌, length};
ghost use Rattle.play_passes.specs.Runs.{is_next, cursor_behind, PassesRun};

use crate::pass::Pass;
use evf_events::EventCursor;
use records_v4::mouse::{MouseRecord, RECORD_LEN, is_mouse, mouse_at};
use times::GameMs;

// The latest moment behind which every wait of a record still fits a u32.
const LATEST: u32 = 4294967040;

// The state behind a run, that of the buttons, a game or a badge, the cursor there, and how many events are
// left.
#[derive(Clone, Copy)]
pub(crate) struct Run<S> {
    pub(crate) state: S,
    pub(crate) cursor: EventCursor,
    pub(crate) left: usize,
}

// Whether the next event is a mouse event right at a cursor behind the first event of version 4, and its
// moment is sure to fit a u32.
#[tactic(auto, unfolding(crate::specs::Runs::is_next))]
fn is_next(file: &[u8], c: EventCursor) -> bool
    ensures { result ≡ is_next file.now c }
{
    c.version == 4 && !c.first && c.ms.0 <= LATEST && is_mouse(file, c.at)
}

// The cursor behind a record.
fn behind(c: EventCursor, r: MouseRecord) -> EventCursor
    requires { (c.at + 6 ≤ 18446744073709551615) × (c.ms.0 + r.wait ≤ 4294967295) }
    ensures { result ≡ cursor_behind c r }
{
    EventCursor {
        at: c.at + RECORD_LEN,
        ms: GameMs(c.ms.0 + u32::from(r.wait)),
        x: c.x.wrapping_add(r.dx),
        y: c.y.wrapping_add(r.dy),
        ..c
    }
}

// Takes a run from a cursor on, so many events at most.
pub(crate) fn pass_run<P: Pass>(
    file: &[u8],
    from: EventCursor,
    most: usize,
    board: &[i8],
    cells: &mut [u16],
    start: P,
) -> Run<P>
    ensures { PassesRun (P.after board.now) file.now from most (start, cells.old)
        result.cursor result.left (result.state, cells.new)
        × (length cells.new ≡ length cells.old) }
{
    let mut p = start;
    let mut c = from;
    for taken in 0..most {
        if !is_next(file, c) {
            return Run {
                state: p,
                cursor: c,
                left: most - taken,
            };
        }
        let r = mouse_at(file, c.at);
        c = behind(c, r);
        p = p.click(board, cells, r.code, c.x, c.y);
    }
    Run {
        state: p,
        cursor: c,
        left: 0,
    }
}
