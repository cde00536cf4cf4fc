// The refusals in words, with what a person can do, written into a lent buffer. What does not fit is dropped,
// as everywhere in `byte_writer`.
#![tactic(auto)]

ghost use Rattle.std.specs.Prelude.{◌≡◌};
ghost use Rattle.byte_writer.specs.Places.{Writes};
ghost use Rattle.words.specs.Words.{words_of, advice_of, refused_line};
ghost use Rattle.words.specs.Pieces.{piece_at, place_of};

use byte_writer::{write_bytes, write_u8};
use lines::write_column;
use text_table::write_text;

// The largest number that has words.
const LAST: u8 = 28;

// Text k of the table: the words and the advice for a number that no refusal has, then those of each refusal.
fn write_piece(out: &mut [u8], at: usize, k: u8) -> usize
    ensures { Writes out.old out.new at (piece_at k) result }
{
    write_text(
        out,
        at,
        b"no refusal has this number\0tell the makers of the program that says so\0\
        the file breaks off\0fetch it again: it was cut off\0\
        not a replay of version 0 to 4\0if it is a replay, look for a newer evf\0\
        a text that must be UTF-8 is not\0save it anew with its own software\0\
        a replay of Arbiter, whose start and end are not understood\0use the tools of Arbiter's own format\0\
        start or end is not a decimal number\0save it anew with its own software\0\
        start or end lies too far in the future\0fetch it again: it is damaged\0\
        the board has no rows\0fetch it again: it is damaged\0\
        the first event has an unknown code\0fetch it again: it is damaged\0\
        an event has an unknown code\0fetch it again: it is damaged\0\
        an event's time is too large\0fetch it again: it is damaged\0\
        no room for the board\0tell the makers of the program that says so\0\
        no room for the events\0tell the makers of the program that says so\0\
        already version 4\0nothing has to be done: keep it as it is\0\
        a text lies outside the file\0tell the makers of the program that says so\0\
        the board's size does not fit the format\0tell the makers of the program that says so\0\
        the board in pixels is too large for version 4\0keep the old file: no copy is made of such a board\0\
        the board has too few cells\0tell the makers of the program that says so\0\
        mines, 3BV or time are too large for the format\0tell the makers of the program that says so\0\
        player, race or unique id is not UTF-8\0keep the old file, or save it anew in UTF-8\0\
        the device id is too long for version 4\0keep the old file: no copy can hold it\0\
        version 4 cannot hold the first event, or there is none\0keep the old file: no copy can hold it\0\
        an event has an unknown kind or goes back in time\0keep the old file: no copy can hold it\0\
        no room for the copy\0tell the makers of the program that says so\0\
        no room to work in\0tell the makers of the program that says so\0\
        the custom metrics are not as many texts as they are said to be\0\
        tell the makers of the program that says so\0\
        the rule of rounding is neither 1 nor 2\0ask for rule 1 or 2\0\
        a cell has no pixels\0fetch it again: it is damaged\0\
        the game has chords, both buttons at once, which evf play does not know\0\
        see the board before the first of them: evf play --after N\0",
        k,
    )
}

// The place in the table of a number's words; the advice stands behind them.
#[tactic(auto, unfolding(crate::specs::Pieces::place_of))]
fn place_of(n: u8) -> u8
    ensures { result ≡ place_of n }
{
    if LAST < n {
        return 0;
    }
    2 * n
}

// Writes what a file has that was refused with a number, and answers the place behind it.
pub fn write_words(out: &mut [u8], at: usize, n: u8) -> usize
    ensures { Writes out.old out.new at (words_of n) result }
{
    write_piece(out, at, place_of(n))
}

// Writes what a person can do about a refusal, and answers the place behind it.
pub fn write_advice(out: &mut [u8], at: usize, n: u8) -> usize
    ensures { Writes out.old out.new at (advice_of n) result }
{
    write_piece(out, at, place_of(n) + 1)
}

// Writes the line of a file that was refused: `refused`, the number and the words, parted by tabs.
pub fn write_refusal(out: &mut [u8], at: usize, n: u8) -> usize
    ensures { Writes out.old out.new at (refused_line n) result }
{
    let mut end = write_bytes(out, at, b"refused");
    end = write_column(out, end, n as u64);
    end = write_u8(out, end, b'\t');
    end = write_words(out, end, n);
    write_u8(out, end, b'\n')
}
