// Runs a case of reading: a file is read into a board of so many cells, with a row of so many entries, and
// all that it gives is shown. The cases of re-saving show their copies by it.
#![tactic(auto)]

ghost use Rattle.byte_reader.specs.Cursor.{Gives};
ghost use Rattle.reading_cases.specs.Layout.{reading_case};

use byte_reader::ByteReader;
use evf_events::{EventCursor, Start};
use evf_video::Outcome;
use framing::Parts;
use game::Header;
use printing::{Printer, say, say_field, say_number};
use std::io::Write;
use text::Place;

// The largest board that a case can ask for.
const MOST_CELLS: usize = 65536;

// The longest file that a case can have.
const MOST_BYTES: usize = 262144;

fn show_flags(printer: &mut Printer<impl Write>, h: Header) {
    let flags = [
        h.is_completed,
        h.is_official,
        h.is_fair,
        h.nf,
        h.translated,
        h.use_question,
        h.use_cursor_pos_lim,
        h.use_auto_replay,
    ];
    say(printer, b" ");
    for flag in flags {
        say_number(printer, u64::from(flag));
    }
}

fn show_header(printer: &mut Printer<impl Write>, h: Header, events: usize) {
    say(printer, b"game");
    say_field(printer, h.version as u64);
    show_flags(printer, h);
    say_field(printer, h.height as u64);
    say_field(printer, h.width as u64);
    say_field(printer, h.mine_num as u64);
    say_field(printer, h.cell_pixel_size as u64);
    say_field(printer, h.mode as u64);
    say_field(printer, h.bbbv as u64);
    let time = h.rtime_ms;
    say_field(printer, time.0 as u64);
    let start = h.start_time;
    say_field(printer, start.0);
    let end = h.end_time;
    say_field(printer, end.0);
    say_field(printer, h.level as u64);
    say_field(printer, h.mines_found as u64);
    say_field(printer, events as u64);
    say(printer, b"\n");
}

// A text in hexadecimal, - for an empty one.
fn show_text(printer: &mut Printer<impl Write>, file: &[u8], p: Place) {
    say(printer, b" ");
    if p.len == 0 {
        say(printer, b"-");
    } else {
        printing::show_bytes(printer, text::part(file, p));
    }
}

fn show_texts(printer: &mut Printer<impl Write>, file: &[u8], texts: [Place; 9]) {
    say(printer, b"texts");
    for text in texts {
        show_text(printer, file, text);
    }
    say(printer, b"\n");
}

// The place, the count and the block of the custom metrics.
fn show_metrics(printer: &mut Printer<impl Write>, file: &[u8], block: Place, count: u16) {
    say(printer, b"metrics");
    say_field(printer, block.start as u64);
    say_field(printer, block.len as u64);
    say_field(printer, count as u64);
    printing::show_runs(printer, text::part(file, block));
    say(printer, b"\n");
}

fn show_cells(printer: &mut Printer<impl Write>, cells: &[i8], height: usize, width: usize) {
    say(printer, b"cells ");
    if let (Ok(height), Ok(width)) = (u8::try_from(height), u8::try_from(width)) {
        printing::show_cells(printer, cells, board::cells_of(height, width));
    }
    say(printer, b"\n");
}

fn show_game(
    printer: &mut Printer<impl Write>,
    file: &[u8],
    board: &[i8],
    header: Header,
    events: usize,
) {
    show_header(printer, header, events);
    let texts = header.texts;
    show_texts(printer, file, texts);
    let block = header.metrics;
    show_metrics(printer, file, block, header.metrics_count);
    show_cells(printer, board, header.height, header.width);
    if let Start::At(c) = EventCursor::open(file) {
        listing::show_events(printer, file, c, events);
    }
}

// Reads one file into `board`, with a row of `entries` entries, and shows what it gives.
fn show_reading(printer: &mut Printer<impl Write>, file: &[u8], board: &mut [i8], entries: usize) {
    let answer = evf_video::parse_board(file, board, entries);
    let outcome = answer.outcome;
    match outcome {
        Outcome::Read => {
            let header = answer.header;
            show_game(printer, file, board, header, answer.events)
        }
        Outcome::Refused(n) => {
            say(printer, b"refused");
            say_field(printer, n as u64);
            say(printer, b"\n");
        }
    }
}

// Lends the array as a slice, whose length its type says.
fn show_board(printer: &mut Printer<impl Write>, file: &[u8], board: &mut [i8; MOST_CELLS]) {
    show_reading(printer, file, board, file.len());
}

// Shows the reading of a file into a board that is long enough, with an entry of the row for each byte.
pub fn show_whole(printer: &mut Printer<impl Write>, file: &[u8]) {
    let mut board = [0i8; MOST_CELLS];
    show_board(printer, file, &mut board);
}

// Shows a case: its number and the reading of its file.
fn show(
    printer: &mut Printer<impl Write>,
    number: u64,
    file: &[u8],
    board: &mut [i8],
    entries: usize,
) {
    say(printer, b"case");
    say_field(printer, number);
    say(printer, b"\n");
    show_reading(printer, file, board, entries);
}

// Puts the file of a case together and shows its reading into the first `cells` cells of a board.
fn show_parts(
    printer: &mut Printer<impl Write>,
    number: u64,
    input: &[u8],
    parts: Parts,
    cells: u16,
    entries: u16,
    board: &mut [i8; MOST_CELLS],
    file: &mut [u8; MOST_BYTES],
) {
    let n = framing::put_parts(file, input, parts);
    let board = &mut board[..usize::from(cells)];
    show(printer, number, &file[..n], board, usize::from(entries));
}

// Makes the two buffers of a case and lends them, and does nothing else: a proof that sees so many zeros
// counts them.
fn show_case(
    printer: &mut Printer<impl Write>,
    number: u64,
    input: &[u8],
    parts: Parts,
    cells: u16,
    entries: u16,
) {
    let mut board = [0i8; MOST_CELLS];
    let mut file = [0u8; MOST_BYTES];
    show_parts(
        printer, number, input, parts, cells, entries, &mut board, &mut file,
    );
}

// Runs the case that lies in `input` from a cursor on, as `reading_case` says, and answers the cursor behind
// it. Its number among the cases of its list is shown with it.
pub fn run_case(
    printer: &mut Printer<impl Write>,
    input: &[u8],
    from: ByteReader,
    number: u64,
) -> ByteReader
    ensures { Gives reading_case input.now from tt result }
{
    let cells = from.get_u16(input);
    let c = cells.next;
    let entries = c.get_u16(input);
    let c = entries.next;
    let framed = framing::read_parts(input, c);
    let parts = framed.value;
    show_case(printer, number, input, parts, cells.value, entries.value);
    framed.next
}
