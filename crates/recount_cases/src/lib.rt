// Runs a case of recounting: a board is recounted with a working buffer of a given length, and the answer is
// shown with every entry that the call has to leave as it was.
#![tactic(auto)]

ghost use Rattle.byte_reader.specs.Cursor.{Gives};
ghost use Rattle.recount_cases.specs.Layout.{recount_case};

use byte_reader::ByteReader;
use framing::Parts;
use openings::Recount;
use printing::{Printer, say, say_field};
use std::io::Write;

// The most cells that a case can have, and the most entries that it can ask for.
const MOST_CELLS: usize = 65536;

// Height and width of a board, and the entries of the working buffer.
#[derive(Clone, Copy)]
struct Sizes {
    height: usize,
    width: usize,
    entries: usize,
}

// Shows the entries from a place on, none where there are fewer.
fn show_rest(printer: &mut Printer<impl Write>, work: &[u16], from: usize) {
    say(printer, b" rest");
    if let Some(rest) = work.get(from..) {
        printing::show_entries(printer, rest);
    }
    say(printer, b"\n");
}

// The cells of a board whose height and width are below 256.
fn cells_of(sizes: Sizes) -> usize {
    board::cells_of((sizes.height % 256) as u8, (sizes.width % 256) as u8)
}

// Shows what the recount came to, and the entries that it leaves as they were: those behind the board's
// cells, or all where it was refused.
fn show_answer(printer: &mut Printer<impl Write>, answer: Recount, sizes: Sizes, work: &[u16]) {
    match answer {
        Recount::Counts(openings, bbbv) => {
            say(printer, b" openings");
            say_field(printer, openings as u64);
            say(printer, b" 3bv");
            say_field(printer, bbbv as u64);
            show_rest(printer, work, cells_of(sizes));
        }
        Recount::Refused(why) => {
            say(printer, b" refused");
            say_field(printer, why as u64);
            show_rest(printer, work, 0);
        }
    }
}

// Recounts a board and shows the answer and the entries that have to stay.
fn show(
    printer: &mut Printer<impl Write>,
    number: u64,
    sizes: Sizes,
    board: &[i8],
    work: &mut [u16],
) {
    say(printer, b"case");
    say_field(printer, number);
    say(printer, b" recount");
    let answer = openings::recount_bbbv(sizes.height, sizes.width, board, work);
    show_answer(printer, answer, sizes, work);
}

// Puts the board of a case together and shows its recount, with as many entries of a buffer as its sizes say;
// nothing where there are fewer.
fn show_parts(
    printer: &mut Printer<impl Write>,
    number: u64,
    input: &[u8],
    parts: Parts,
    sizes: Sizes,
    signed: &mut [u8; MOST_CELLS],
    cells: &mut [i8; MOST_CELLS],
    work: &mut [u16; MOST_CELLS],
) {
    let n = framing::put_parts(signed, input, parts);
    let board = framed_games::put_cells(cells, &signed[..n]);
    if let Some(work) = work.get_mut(..sizes.entries) {
        show(printer, number, sizes, board, work);
    }
}

// Makes the three buffers of a case, the working buffer all AAAA, and lends them, and does nothing else: a
// proof that sees so many entries counts them.
fn show_case(
    printer: &mut Printer<impl Write>,
    number: u64,
    input: &[u8],
    parts: Parts,
    sizes: Sizes,
) {
    let mut signed = [0u8; MOST_CELLS];
    let mut cells = [0i8; MOST_CELLS];
    let mut work = [0xAAAAu16; MOST_CELLS];
    show_parts(
        printer,
        number,
        input,
        parts,
        sizes,
        &mut signed,
        &mut cells,
        &mut work,
    );
}

// Runs the case that lies in `input` from a cursor on, as `recount_case` says, and answers the cursor behind
// it. Its number among the cases of its list is shown with it.
pub fn run_case(
    printer: &mut Printer<impl Write>,
    input: &[u8],
    from: ByteReader,
    number: u64,
) -> ByteReader
    ensures { Gives recount_case input.now from tt result }
{
    let height = from.get_u64(input);
    let c = height.next;
    let width = c.get_u64(input);
    let c = width.next;
    let entries = c.get_u32(input);
    let c = entries.next;
    let framed = framing::read_parts(input, c);
    let parts = framed.value;
    let sizes = Sizes {
        height: height.value as usize,
        width: width.value as usize,
        entries: entries.value as usize,
    };
    show_case(printer, number, input, parts, sizes);
    framed.next
}
