// Counts a file's openings and 3BV anew, beside the 3BV that its header claims, and writes the line that
// `evf recount` prints of it. What does not fit is dropped, as everywhere in `byte_writer`.
#![tactic(auto)]

ghost use Rattle.std.specs.Prelude.{◌≡◌, ◌<◌};
ghost use Rattle.byte_writer.specs.Places.{Writes};
ghost use Rattle.recounted.specs.Recounting.{game_recount, file_recount};
ghost use Rattle.recounted.specs.Lines.{counts_line, Recounts};

use byte_writer::write_bytes;
use evf_video::Outcome;
use game::Header;
use lines::write_count;
use openings::{Recount, recount_bbbv};
use shown::MOST_CELLS;
use tally::Fate;
use text::Place;
use words::write_refusal;

// The 3BV that a file's header claims, the 3BV and the openings of its mines; or the number of a refusal.
#[derive(Clone, Copy)]
pub enum FileRecount {
    Counts {
        claimed: usize,
        counted: usize,
        openings: usize,
    },
    Refused(u8),
}

// Recounts the board of a game, whose packed bytes stand at a place, in lent arrays.
fn recount_lent(
    file: &[u8],
    h: Header,
    place: Place,
    board: &mut [i8; MOST_CELLS],
    work: &mut [u16; MOST_CELLS],
) -> FileRecount
    requires { (h.height < 256) × (h.width < 256) }
    ensures { result ≡ game_recount file.now h place }
{
    board::read_board(
        text::part(file, place),
        h.height as u8,
        h.width as u8,
        board,
    );
    match recount_bbbv(h.height, h.width, board, work) {
        Recount::Counts(openings, bbbv) => FileRecount::Counts {
            claimed: h.bbbv,
            counted: bbbv,
            openings: openings,
        },
        Recount::Refused(n) => FileRecount::Refused(n),
    }
}

// Recounts the board of a game in arrays of its own. Nothing else is done where they are made, since a proof
// that sees many zeros counts them.
fn recount_game(file: &[u8], h: Header, place: Place) -> FileRecount
    requires { (h.height < 256) × (h.width < 256) }
    ensures { result ≡ game_recount file.now h place }
{
    let mut board = [0i8; MOST_CELLS];
    let mut work = [0u16; MOST_CELLS];
    recount_lent(file, h, place, &mut board, &mut work)
}

// Recounts a file from its bytes alone. It is refused just where reading refuses it, with 1 to 10.
pub fn recount_file(file: &[u8]) -> FileRecount
    ensures { result ≡ file_recount file.now }
{
    let j = evf_video::judge(file);
    let outcome = j.outcome;
    match outcome {
        Outcome::Read => {
            let header = j.header;
            let place = j.board;
            recount_game(file, header, place)
        }
        Outcome::Refused(n) => FileRecount::Refused(n),
    }
}

// The place behind a line, and what became of its file: done where the header claims the 3BV that was counted.
#[derive(Clone, Copy)]
pub struct RecountedLine {
    pub to: usize,
    pub fate: Fate,
}

// Writes the counts of a file and a word on them, and answers the place behind them.
fn write_counts(
    out: &mut [u8],
    at: usize,
    claimed: usize,
    counted: usize,
    openings: usize,
    word: &[u8],
) -> usize
    ensures { Writes out.old out.new at
        (counts_line claimed counted openings word.now) result }
{
    let at = write_bytes(out, at, b"recounted\t3BV ");
    let at = write_count(out, at, claimed as u64, b" in the header\t3BV ");
    let at = write_count(out, at, counted as u64, b" recounted\t");
    let at = write_count(out, at, openings as u64, b" openings\t");
    let at = write_bytes(out, at, word);
    write_bytes(out, at, b"\n")
}

// Writes the line of a file, recounted or refused.
pub fn write_recounted(out: &mut [u8], at: usize, file: &[u8]) -> RecountedLine
    ensures { Recounts file.now out.old out.new at result }
{
    match recount_file(file) {
        FileRecount::Counts {
            claimed,
            counted,
            openings,
        } => {
            if claimed == counted {
                return RecountedLine {
                    to: write_counts(out, at, claimed, counted, openings, b"same"),
                    fate: Fate::Done,
                };
            }
            RecountedLine {
                to: write_counts(out, at, claimed, counted, openings, b"differs"),
                fate: Fate::Differs,
            }
        }
        FileRecount::Refused(n) => RecountedLine {
            to: write_refusal(out, at, n),
            fate: Fate::Refused,
        },
    }
}
