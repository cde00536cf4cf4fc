// What `evf show` prints of a file, into a lent buffer.
#![tactic(auto)]

ghost use Rattle.std.specs.Prelude.{◌≡◌, ◌<◌};
ghost use Rattle.std.proofs.lemmas.List.Edits.{sets};
ghost use Rattle.byte_writer.specs.Places.{Writes};
ghost use Rattle.evf_video.specs.Reading.{cells_at};
ghost use Rattle.shown.specs.Shown.{game_shown};
ghost use Rattle.shown.specs.Shows.{Shows};

use board_text::write_board;
use byte_writer::write_u8;
use evf_video::Outcome;
use game::Header;
use shown_header::write_header;
use text::Place;

// The cells of the largest board, 255 by 255.
pub const MOST_CELLS: usize = 65025;

// The bytes in which any file is shown, at most.
pub const MOST_SHOWN: usize = 131072;

// How a file is shown: the place behind what was written, and the number of its refusal, 0 where it is read.
#[derive(Clone, Copy)]
pub struct Shown {
    pub to: usize,
    pub refused: u8,
}

// The header, an empty line and the board whose packed bytes stand at a place.
fn write_game(
    out: &mut [u8],
    file: &[u8],
    h: Header,
    place: Place,
    events: usize,
    board: &mut [i8; MOST_CELLS],
) -> usize
    requires { (h.height < 256) × (h.width < 256) }
    ensures { Writes out.old out.new 0
        (game_shown file.now h (cells_at file.now h place) events) result
        × (board.new ≡ sets board.old 0 (cells_at file.now h place)) }
{
    let height = h.height as u8;
    let width = h.width as u8;
    board::read_board(text::part(file, place), height, width, board);
    let at = write_header(out, file, h, events);
    let at = write_u8(out, at, b'\n');
    write_board(out, at, board, height, width)
}

// Reads a file into the board and writes what is shown of it into `out`, from its start on. Of a file that is
// refused nothing is written.
pub fn write_shown(file: &[u8], board: &mut [i8; MOST_CELLS], out: &mut [u8]) -> Shown
    ensures { Shows file.now board.old board.new out.old
        out.new result }
{
    let j = evf_video::judge(file);
    let outcome = j.outcome;
    match outcome {
        Outcome::Read => {
            let header = j.header;
            let place = j.board;
            let to = write_game(out, file, header, place, j.events, board);
            Shown { to: to, refused: 0 }
        }
        Outcome::Refused(n) => Shown { to: 0, refused: n },
    }
}
