// The events of a file passed for a play, without a row: once for the buttons that they press, and once for
// what they do to the board, or to the board and the no-flag badge. Each is a `Pass`: they share their loops.
#![tactic(auto)]

ghost use Rattle.std.specs.Prelude.{◌≡◌};
ghost use mathlib.Core.List.{foldl};
ghost use Rattle.evf_events.specs.Events.{first_events};
ghost use Rattle.buttons.specs.Pressing.{none_down, pressed};
ghost use Rattle.moves.specs.Moves.{moved_by};
ghost use Rattle.badge.specs.Judging.{judged_by};

use badge::Judging;
use buttons::{Buttons, no_buttons};
use evf_events::{EventCursor, Step};
use later::pass_run;
use moves::Position;
use old::pass_old;
use pass::Pass;

mod later; // runs of mouse events in version 4
mod old; // versions 0 to 3, by the codes of their records
mod pass; // what a pass does at an event

// Takes events, a step and the run behind it at a time.
fn pass_steps<P: Pass>(
    file: &[u8],
    first: EventCursor,
    most: usize,
    board: &[i8],
    cells: &mut [u16],
    from: P,
) -> P
    ensures { (result, cells.new)
        ≡ foldl (P.after board.now) (from, cells.old)
        (first_events most file.now first) }
{
    let mut p = from;
    let mut c = first;
    let mut left = most;
    // no `for`: a run takes as many as it finds
    while 0 < left {
        let Step::Got(event, next) = c.step(file) else {
            return p;
        };
        p = p.event(board, cells, event);
        let on = pass_run(file, next, left - 1, board, cells, p);
        p = on.state;
        c = on.cursor;
        left = on.left;
    }
    p
}

// Takes the events from a cursor on, `most` of them or as many as there are.
fn pass_events<P: Pass>(
    file: &[u8],
    first: EventCursor,
    most: usize,
    board: &[i8],
    cells: &mut [u16],
    from: P,
) -> P
    ensures { (result, cells.new)
        ≡ foldl (P.after board.now) (from, cells.old)
        (first_events most file.now first) }
{
    if first.version < 4 {
        return pass_old(file, first, most, board, cells, from);
    }
    pass_steps(file, first, most, board, cells, from)
}

// Sees what the buttons do along the events from a cursor on, `most` of them or as many as there are.
pub fn press_events(file: &[u8], first: EventCursor, most: usize) -> Buttons
    ensures { result ≡ foldl pressed none_down (first_events most file.now first) }
{
    pass_events(file, first, most, &[], &mut [], no_buttons())
}

// Plays the events from a cursor on, `most` of them or as many as there are.
pub fn play_events(
    file: &[u8],
    first: EventCursor,
    most: usize,
    board: &[i8],
    cells: &mut [u16],
    from: Position,
) -> Position
    ensures { (result, cells.new)
        ≡ foldl (moved_by board.now) (from, cells.old)
        (first_events most file.now first) }
{
    pass_events(file, first, most, board, cells, from)
}

// Judges the badge along the events from a cursor on, `most` of them or as many as there are.
pub fn judge_events(
    file: &[u8],
    first: EventCursor,
    most: usize,
    board: &[i8],
    cells: &mut [u16],
    from: Judging,
) -> Judging
    ensures { (result, cells.new)
        ≡ foldl (judged_by board.now) (from, cells.old)
        (first_events most file.now first) }
{
    pass_events(file, first, most, board, cells, from)
}
