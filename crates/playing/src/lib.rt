// Plays a game through: what a player sees of the board after a row of events, and how the game stands.
// Linear in the events and the cells: each cell is uncovered once, and no event looks at the whole board.
#![tactic(auto)]

ghost use Rattle.std.specs.Prelude.{◌≡◌, ◌≤◌};
ghost use mathlib.Core.List.{foldl};
ghost use Rattle.lists.specs.Lists.{each};
ghost use Rattle.flood.specs.Spread.{size};
ghost use Rattle.moves.specs.Moves.{moved_by};
ghost use Rattle.playing.specs.Play.{Plays};
ghost use Rattle.playing.specs.Beginning.{refusal_at, refused_at, safe, begun_at, covered_at};

use buttons::{Buttons, no_buttons, press_row};
use game::Event;
use game::refusals::{BUTTONS_TOGETHER, PIXELS_ZERO};
use moves::{Played, Position, play_event};

// The rows and columns of a board.
#[derive(Clone, Copy)]
pub struct Sizes {
    pub height: usize,
    pub width: usize,
}

// Answers a refused position, on which no event acts.
pub fn refused(n: u8) -> Position
    ensures { result ≡ refused_at n }
{
    Position {
        height: 0,
        width: 0,
        pixels: 0,
        left: 0,
        stands: Played::Refused(n),
    }
}

// The first refusal of a game that is to be played on `cells` lent cells in `entries` lent entries, its row's
// buttons seen: 15, 17, 24, 27 or 28, or the contract's 0 where there is none.
pub fn refusal(sizes: Sizes, pixels: u8, cells: usize, entries: usize, buttons: Buttons) -> u8
    ensures { result ≡ refusal_at sizes pixels cells entries buttons }
{
    let work = game::work_refusal(sizes.height, sizes.width, cells, entries);
    if work != 0 {
        return work;
    }
    if pixels == 0 {
        return PIXELS_ZERO;
    }
    if buttons.chord {
        return BUTTONS_TOGETHER;
    }
    0
}

// How many of the first n cells of a board hold no mine.
#[tactic(auto, using(crate::proofs::Beginning::size_next))]
fn count_safe(board: &[i8], n: usize) -> usize
    ensures { (result ≡ size (each n (safe board.now))) × (result ≤ n) }
{
    let mut left: usize = 0;
    for k in 0..n {
        if !board::is_mine(board, k) {
            left += 1;
        }
    }
    left
}

// Begins a game: refused where it cannot be played; else all its cells are covered.
pub fn begin(
    sizes: Sizes,
    pixels: u8,
    board: &[i8],
    buttons: Buttons,
    cells: &mut [u16],
) -> Position
    ensures { (result ≡ begun_at sizes pixels board.now buttons cells.old)
        × (cells.new ≡ covered_at sizes pixels board.now buttons cells.old) }
{
    let n = refusal(sizes, pixels, board.len(), cells.len(), buttons);
    if n != 0 {
        return refused(n);
    }
    let height = sizes.height as u8;
    let width = sizes.width as u8;
    flood::cover(height, width, cells);
    Position {
        height,
        width,
        pixels,
        left: count_safe(board, board::cells_of(height, width)),
        stands: Played::Undecided,
    }
}

// Plays every entry of a lent row.
pub fn play_row(row: &[Event], board: &[i8], cells: &mut [u16], from: Position) -> Position
    ensures { (result ≡ (foldl (moved_by board.now) (from, cells.old) row.now).0)
        × (cells.new
        ≡ (foldl (moved_by board.now) (from, cells.old) row.now).1) }
{
    let mut p = from;
    for event in row {
        p = play_event(board, cells, p, *event);
    }
    p
}

// How a position stands.
pub fn answer(p: Position) -> Played
    ensures { result ≡ p.stands }
{
    p.stands
}

// Plays a game through, from a board that is all covered: how it stands after the last entry of the row, or
// 15, 17, 24, 27 or 28, the first of them that holds. Refused, it changes nothing; else the first height x
// width of the lent cells are 0 covered, 1 flagged or 2 uncovered, and those behind are as they were.
pub fn play(sizes: Sizes, pixels: u8, board: &[i8], row: &[Event], cells: &mut [u16]) -> Played
    ensures { Plays sizes pixels board.now row.now cells.old result
        cells.new }
{
    let buttons = press_row(row, no_buttons());
    let from = begin(sizes, pixels, board, buttons, cells);
    let last = play_row(row, board, cells, from);
    answer(last)
}
