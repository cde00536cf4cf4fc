// What an event does to a game that is played through: which cell it acts on, what happens there, and how the
// game stands then. No event looks at the whole board.
#![tactic(auto)]

ghost use Rattle.std.specs.Prelude.{◌≡◌, ◌*◌};
ghost use Rattle.moves.specs.declared.Act.TheVariants.{Uncover};
ghost use Rattle.moves.specs.Moves.{goes_on, under_of, clicked_cell, act_of, swapped_entry, flagged_at};
ghost use Rattle.moves.specs.Moves.{judged_from, position_acted, cells_acted, position_after, cells_after};

use game::{Event, MouseKind};

// An entry of the lent cells for a flagged cell; `flood` has those for covered and uncovered ones.
pub const FLAGGED: u16 = 1;

// How a game stands, or the number of its refusal.
#[derive(Clone, Copy)]
pub enum Played {
    Undecided,
    Won,
    Lost,
    Refused(u8),
}

// A game in play, but for its cells: how many cells without a mine are still to be uncovered, its sizes, and
// how it stands. The widest field stands first, since a loop carries the gaps between fields along.
#[derive(Clone, Copy)]
pub struct Position {
    pub left: usize,
    pub height: u8,
    pub width: u8,
    pub pixels: u8,
    pub stands: Played,
}

// What a click does to the cell under it.
#[derive(Clone, Copy)]
pub enum Act {
    Uncover,
    Flag,
    Nothing,
}

// Whether a game is neither decided nor refused.
fn goes_on(stands: Played) -> bool
    ensures { result ≡ goes_on stands }
{
    matches!(stands, Played::Undecided)
}

// The cell under a pixel; the number of all cells, which is none of them, where the board has none there: no
// `Option`, since the clause of `clicked_cell` says so.
fn under(p: Position, x: u16, y: u16) -> usize
    ensures { result ≡ under_of p x y }
{
    let none = board::cells_of(p.height, p.width);
    if p.pixels == 0 {
        return none;
    }
    let row = (y as usize) / (p.pixels as usize);
    let column = (x as usize) / (p.pixels as usize);
    let height = p.height as usize;
    let width = p.width as usize;
    if row < height && column < width {
        return row * width + column;
    }
    none
}

// The cell that a click at a pixel acts on: the one under it; none of them where the game does not go on.
pub fn clicked_cell(p: Position, x: u16, y: u16) -> usize
    ensures { result ≡ clicked_cell p x y }
{
    let stands = p.stands;
    if goes_on(stands) {
        return under(p, x, y);
    }
    board::cells_of(p.height, p.width)
}

// What a kind does to the cell under it.
pub fn act_of(kind: MouseKind) -> Act
    ensures { result ≡ act_of kind }
{
    match kind {
        MouseKind::Lr => Act::Uncover,
        MouseKind::Rc | MouseKind::Pf => Act::Flag,
        _ => Act::Nothing,
    }
}

// An entry whose flag is set or lifted.
fn swap_flag(entry: u16) -> u16
    ensures { result ≡ swapped_entry entry }
{
    match entry {
        flood::COVERED => FLAGGED,
        FLAGGED => flood::COVERED,
        n => n,
    }
}

// Sets or lifts the flag of cell k; nothing where the board or the lent cells have none.
fn flag_at(cells: &mut [u16], height: u8, width: u8, k: usize)
    ensures { cells.new ≡ flagged_at (height * width) cells.old k }
{
    if k < board::cells_of(height, width) && k < cells.len() {
        cells[k] = swap_flag(cells[k]);
    }
}

// The position once `took` cells were uncovered: lost where a mine was, won where no other cell is left.
fn judge(p: Position, took: usize, mine: bool) -> Position
    ensures { result ≡ judged_from p took mine }
{
    let mut left = p.left;
    let mut stands = p.stands;
    if took == 0 {
        return p;
    }
    if mine {
        stands = Played::Lost;
    } else if left <= took {
        left = 0;
        stands = Played::Won;
    } else {
        left -= took;
    }
    Position { left, stands, ..p }
}

// Uncovers the cell under a pixel, with all that this opens, and judges the game.
fn release(board: &[i8], cells: &mut [u16], p: Position, x: u16, y: u16) -> Position
    ensures { (result ≡ position_acted board.now cells.old p Uncover x y)
        × (cells.new ≡ cells_acted board.now cells.old p Uncover x y) }
{
    let k = clicked_cell(p, x, y);
    let took = flood::uncover(board, p.height, p.width, cells, k);
    judge(p, took, board::is_mine(board, k))
}

// Does an act at a pixel.
pub fn act_at(board: &[i8], cells: &mut [u16], p: Position, act: Act, x: u16, y: u16) -> Position
    ensures { (result ≡ position_acted board.now cells.old p act x y)
        × (cells.new ≡ cells_acted board.now cells.old p act x y) }
{
    match act {
        Act::Uncover => release(board, cells, p, x, y),
        Act::Flag => {
            flag_at(cells, p.height, p.width, clicked_cell(p, x, y));
            p
        }
        Act::Nothing => p,
    }
}

// Plays one event more. A position that is refused or decided stays, and so do its cells.
pub fn play_event(board: &[i8], cells: &mut [u16], from: Position, event: Event) -> Position
    ensures { (result ≡ position_after board.now cells.old from event)
        × (cells.new ≡ cells_after board.now cells.old from event) }
{
    match event {
        Event::Mouse {
            seconds: _,
            kind,
            x,
            y,
        } => act_at(board, cells, from, act_of(kind), x, y),
        Event::State {
            seconds: _,
            state: _,
        } => from,
    }
}
