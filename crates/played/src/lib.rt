// What `evf play` prints of a game that is played through: a line for each event that changes the board, the
// board as text, and how the game stands. What does not fit is dropped, as everywhere in `byte_writer`.
#![tactic(auto)]

ghost use Rattle.std.specs.Prelude.{◌≡◌, get_or};
ghost use Rattle.byte_writer.specs.Places.{Writes};
ghost use Rattle.moves.specs.Moves.{cells_after};
ghost use Rattle.played.specs.Changes.{place_at, took_by, move_of};
ghost use Rattle.played.specs.Lines.{move_line, change_line, played_line, verdict_line};
ghost use Rattle.played.specs.Seen.{seen_at, seen_row, seen_text};

use board_text::char_at;
use byte_writer::{write_bytes, write_u8};
use event_lines::write_name;
use game::{Event, MouseKind};
use lines::write_count;
use moves::{FLAGGED, Played, Position, clicked_cell, play_event};
use names::kind_name;
use times::{HALVES_AWAY, rounded_ms};
use words::write_refusal;

// The position after an event, whether the event changed the board, the row and the column that it fell on,
// and how many cells it uncovered.
#[derive(Clone, Copy)]
pub struct Move {
    pub position: Position,
    pub changed: bool,
    pub row: usize,
    pub column: usize,
    pub took: usize,
}

// The entry of cell k, 0 where none is lent.
fn entry_at(cells: &[u16], k: usize) -> u16
    ensures { result ≡ get_or cells.now k 0 }
{
    cells.get(k).copied().unwrap_or(0)
}

// The row or column of a pixel.
#[tactic(auto, unfolding(crate::specs::Changes::place_at))]
fn place_at(pixel: u16, pixels: u8) -> usize
    ensures { result ≡ place_at pixel pixels }
{
    usize::from(pixel)
        .checked_div(usize::from(pixels))
        .unwrap_or(0)
}

// How many cells were uncovered on the way from one position to the next.
fn took_by(from: Position, to: Position) -> usize
    ensures { result ≡ took_by from to }
{
    match to.stands {
        Played::Lost => 1,
        _ => from.left.saturating_sub(to.left),
    }
}

// Plays one event more, and says what it changed.
#[tactic(auto, unfolding(crate::specs::Changes::move_of))]
pub fn play_move(board: &[i8], cells: &mut [u16], from: Position, event: Event) -> Move
    ensures { (result ≡ move_of board.now cells.old from event)
        × (cells.new ≡ cells_after board.now cells.old from event) }
{
    match event {
        Event::Mouse { x, y, .. } => {
            let k = clicked_cell(from, x, y);
            let before = entry_at(cells, k);
            let to = play_event(board, cells, from, event);
            let after = entry_at(cells, k);
            Move {
                position: to,
                changed: before != after,
                row: place_at(y, from.pixels),
                column: place_at(x, from.pixels),
                took: took_by(from, to),
            }
        }
        Event::State { .. } => Move {
            position: from,
            changed: false,
            row: 0,
            column: 0,
            took: 0,
        },
    }
}

// Each of these writes from a place on and answers the place behind.

// The line of event n, which changed the board.
fn write_move(
    out: &mut [u8],
    at: usize,
    n: usize,
    kind: MouseKind,
    ms: u32,
    row: usize,
    column: usize,
    took: usize,
) -> usize
    ensures { Writes out.old out.new at (move_line n kind ms row column took) result }
{
    let at = write_bytes(out, at, b"event ");
    let at = write_count(out, at, n as u64, b"\t");
    let at = write_name(out, at, kind_name(kind));
    let at = write_bytes(out, at, b"\t");
    let at = write_count(out, at, ms as u64, b" ms\trow ");
    let at = write_count(out, at, row as u64, b"\tcolumn ");
    let at = write_count(out, at, column as u64, b"\t");
    write_count(out, at, took as u64, b" uncovered\n")
}

// The line of event n, where it changed the board; nothing of any other.
pub fn write_change(out: &mut [u8], at: usize, n: usize, m: Move, event: Event) -> usize
    ensures { Writes out.old out.new at (change_line n m event) result }
{
    if !m.changed {
        return at;
    }
    match event {
        Event::Mouse { seconds, kind, .. } => {
            let ms = rounded_ms(seconds, HALVES_AWAY);
            write_move(out, at, n, kind, ms.0, m.row, m.column, m.took)
        }
        Event::State { .. } => at,
    }
}

// The line of a game of which so many events were played, with a word on how it stands.
fn write_played(out: &mut [u8], at: usize, word: &[u8], events: usize) -> usize
    ensures { Writes out.old out.new at (played_line word.now events) result }
{
    let at = write_bytes(out, at, b"played\t");
    let at = write_bytes(out, at, word);
    let at = write_bytes(out, at, b"\t");
    write_count(out, at, events as u64, b" events\n")
}

// The last line of a game: how it stands after so many events, or its refusal.
pub fn write_verdict(out: &mut [u8], at: usize, stands: Played, events: usize) -> usize
    ensures { Writes out.old out.new at (verdict_line stands events) result }
{
    match stands {
        Played::Undecided => write_played(out, at, b"undecided", events),
        Played::Won => write_played(out, at, b"won", events),
        Played::Lost => write_played(out, at, b"lost", events),
        Played::Refused(n) => write_refusal(out, at, n),
    }
}

// What is seen of cell k.
#[tactic(auto, unfolding(crate::specs::Seen::seen_at))]
fn seen_at(board: &[i8], cells: &[u16], k: usize) -> u8
    ensures { result ≡ seen_at board.now cells.now k }
{
    match entry_at(cells, k) {
        flood::COVERED => b'#',
        FLAGGED => b'F',
        _ => char_at(board, k),
    }
}

// A row of a board as it is seen, and the end of its line.
fn write_seen_row(
    out: &mut [u8],
    at: usize,
    board: &[i8],
    cells: &[u16],
    width: u8,
    row: u8,
) -> usize
    ensures { Writes out.old out.new at
        (seen_row board.now cells.now width row) result }
{
    let start = board::cells_of(row, width);
    let mut to = at;
    for c in 0..width as usize {
        to = write_u8(out, to, seen_at(board, cells, start + c));
    }
    write_u8(out, to, b'\n')
}

// The rows of a board as it is seen, each in a line.
pub fn write_seen(
    out: &mut [u8],
    at: usize,
    board: &[i8],
    cells: &[u16],
    height: u8,
    width: u8,
) -> usize
    ensures { Writes out.old out.new at
        (seen_text board.now cells.now width height) result }
{
    let mut to = at;
    for row in 0..height {
        to = write_seen_row(out, to, board, cells, width, row);
    }
    to
}
