// A board as text: a line for each row, a character for each cell. Each function writes from a place on and
// answers the place behind; what does not fit is dropped.
#![tactic(auto)]

ghost use Rattle.std.specs.Prelude.{◌≡◌};
ghost use Rattle.byte_writer.specs.Places.{Writes};
ghost use Rattle.board_text.specs.Rows.{char_at, row_text, board_text};

use byte_writer::write_u8;

// The character of cell k; past the end that of 0.
#[tactic(auto, unfolding(crate::specs::Rows::char_at))]
pub fn char_at(board: &[i8], k: usize) -> u8
    ensures { result ≡ char_at board.now k }
{
    match board.get(k).copied().unwrap_or(0) {
        0 => b'.',
        n if n < 0 => b'*',
        n => b'0' + n as u8,
    }
}

// The row of a board that begins at cell `start`, and the end of its line.
fn write_row(out: &mut [u8], at: usize, board: &[i8], width: u8, row: u8) -> usize
    ensures { Writes out.old out.new at (row_text board.now width row) result }
{
    let start = board::cells_of(row, width);
    let mut to = at;
    for c in 0..width as usize {
        to = write_u8(out, to, char_at(board, start + c));
    }
    write_u8(out, to, b'\n')
}

// The rows of a board, each in a line.
pub fn write_board(out: &mut [u8], at: usize, board: &[i8], height: u8, width: u8) -> usize
    ensures { Writes out.old out.new at (board_text board.now width height) result }
{
    let mut to = at;
    for row in 0..height {
        to = write_row(out, to, board, width, row);
    }
    to
}
