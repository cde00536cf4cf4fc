// What a pass does at an event: the buttons see it, a game plays it, the no-flag badge judges it.
ghost use Rattle.std.specs.Prelude.{◌≡◌, ℕ, List, length, ℤ, true};
ghost use Rattle.std.specs.Prelude.{Float};
ghost use Rattle.game.specs.declared.Event.{Event};
ghost use Rattle.game.specs.declared.Event.TheVariants.{Mouse};
ghost use Rattle.records_v0_v3.specs.Records.{kind_in};
ghost use Rattle.moves.specs.Moves.{moved_by};
ghost use Rattle.badge.specs.Judging.{judged_by};
ghost use Rattle.play_passes.specs.Passing.{pressed_by};

use badge::{Judging, judge_click, judge_event};
use buttons::{Buttons, press, press_kind};
use game::{Event, MouseKind};
use moves::{Position, act_at, act_of, play_event};

// A state that a pass carries along a file's events, over a board and the lent cells.
pub(crate) trait Pass: Copy {
    // What an event leaves of the state and the lent cells.
    ghost after: { List ℤ → Self × List ℕ → Event → Self × List ℕ };

    fn event(self, board: &[i8], cells: &mut [u16], event: Event) -> Self
        ensures { ((result, cells.new) ≡ after board.now (self, cells.old) event)
            × (length cells.new ≡ length cells.old) };

    // Takes a mouse event by its code and pixel: no pass asks for its moment, nor for the version.
    fn click(self, board: &[i8], cells: &mut [u16], code: u8, x: u16, y: u16) -> Self
        ensures { ((version : ℕ) (t : Float)
            → (result, cells.new) ≡ after board.now (self, cells.old) (Mouse t (kind_in version code) x y))
            × (length cells.new ≡ length cells.old) };

    // Whether mouse events of a code are sure to change nothing.
    fn is_idle(code: u8) -> bool
        ensures { result ≡ true → (board : List ℤ) (a : Self × List ℕ) (version : ℕ) (t : Float) (x y : ℕ)
            → a ≡ after board a (Mouse t (kind_in version code) x y) };
}

// The buttons ask for neither a board nor cells.
impl Pass for Buttons {
    ghost after = { pressed_by };

    fn event(self, _board: &[i8], _cells: &mut [u16], event: Event) -> Buttons {
        press(self, event)
    }

    fn click(self, _board: &[i8], _cells: &mut [u16], code: u8, _x: u16, _y: u16) -> Buttons {
        press_kind(self, MouseKind::from(code))
    }

    fn is_idle(_code: u8) -> bool {
        false
    }
}

impl Pass for Position {
    ghost after = { moved_by };

    fn event(self, board: &[i8], cells: &mut [u16], event: Event) -> Position {
        play_event(board, cells, self, event)
    }

    fn click(self, board: &[i8], cells: &mut [u16], code: u8, x: u16, y: u16) -> Position {
        act_at(board, cells, self, act_of(MouseKind::from(code)), x, y)
    }

    fn is_idle(code: u8) -> bool {
        crate::old::is_idle(code)
    }
}

impl Pass for Judging {
    ghost after = { judged_by };

    fn event(self, board: &[i8], cells: &mut [u16], event: Event) -> Judging {
        judge_event(board, cells, self, event)
    }

    // Inlined, as nearly all events are idle: in a program with two places that call it, a call for each makes
    // judging a game of version 4 a third longer.
    #[inline(always)]
    fn click(self, board: &[i8], cells: &mut [u16], code: u8, x: u16, y: u16) -> Judging {
        if crate::old::is_idle(code) {
            return self;
        }
        judge_click(board, cells, self, MouseKind::from(code), x, y)
    }

    fn is_idle(code: u8) -> bool {
        crate::old::is_idle(code)
    }
}
