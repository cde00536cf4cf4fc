// Runs a case of writing: a game is written as versions 3 and 4 by a rule, and what each writer answers is
// shown with the whole file lent to it.
#![tactic(auto)]

ghost use Rattle.byte_reader.specs.Cursor.{Gives};
ghost use Rattle.writing_cases.specs.Layout.{writing_case};

use byte_reader::ByteReader;
use evf_records::{Run, Seen};
use framed_games::{Events, Row};
use framing::Parts;
use game::Header;
use generate_evf::{Size, Written};
use printing::{Printer, say, say_field};
use std::io::Write;

// Stands for the length of a file buffer where a game is not written in a version.
const NOT_WRITTEN: u32 = u32::MAX;

// The longest file that a case can ask for.
const MOST_FILE: usize = 262144;

// The most bytes that a case can lend.
const MOST_LENT: usize = 131072;

// The largest board that a case can have.
const MOST_CELLS: usize = 65536;

// The header of a game, the bytes lent for its texts, its board, and its row, with the bytes that are taken to
// be counted before it.
#[derive(Clone, Copy)]
struct Game<'a> {
    header: Header,
    bytes: &'a [u8],
    board: &'a [i8],
    counted: u64,
    row: Events<'a>,
}

// A game as it is framed: where the lent bytes and the board lie in the input.
#[derive(Clone, Copy)]
struct Framed {
    header: Header,
    lent: Parts,
    board: Parts,
    row: Row,
}

// Judges the events of the row for a version by a rule.
fn judge(game: Game, version: u8, rule: u8) -> Seen {
    let before = evf_records::before_row_behind(version, rule, game.counted as usize);
    game.row.fold(before, evf_records::judge_entry)
}

// Writes the events of the row.
fn put_row(file: &mut [u8], row: Events, start: Run) {
    let mut run = start;
    for event in row {
        run = evf_records::put_entry(file, run, event);
    }
}

// Shows what sizing answers.
fn show_size(printer: &mut Printer<impl Write>, size: Size) {
    say(printer, b"size");
    match size {
        Size::Bytes(n) => say_field(printer, n as u64),
        Size::Refused(why) => {
            say(printer, b" refused");
            say_field(printer, why as u64);
        }
    }
    say(printer, b"\n");
}

// Shows what a writer answers.
fn show_written(printer: &mut Printer<impl Write>, written: Written) {
    match written {
        Written::Bytes(n) => {
            say(printer, b"wrote");
            say_field(printer, n as u64);
        }
        Written::Short(n) => {
            say(printer, b"short");
            say_field(printer, n as u64);
        }
        Written::Refused(why) => {
            say(printer, b"refused");
            say_field(printer, why as u64);
        }
    }
    say(printer, b"\n");
}

// Judges, sizes and writes a game; shows both answers and the whole file.
fn write_into(
    printer: &mut Printer<impl Write>,
    file: &mut [u8],
    version: u8,
    rule: u8,
    game: Game,
) {
    let header = game.header;
    let seen = judge(game, version, rule);
    let size = generate_evf::size_of(header, game.bytes, game.board, seen);
    show_size(printer, size);
    let ready = generate_evf::prepare(header, game.bytes, game.board, seen, file);
    put_row(file, game.row, ready.run);
    show_written(printer, ready.written);
    say(printer, b"file");
    printing::show_runs(printer, file);
    say(printer, b"\n");
}

// Writes a game into the first `room` bytes of a file, nothing where it has fewer.
fn write_cut(
    printer: &mut Printer<impl Write>,
    file: &mut [u8; MOST_FILE],
    room: usize,
    version: u8,
    rule: u8,
    game: Game,
) {
    if let Some(file) = file.get_mut(..room) {
        write_into(printer, file, version, rule, game);
    }
}

// Makes the file buffer, all AA, and lends it, and does nothing else: a proof that sees so many bytes counts
// them.
fn write_version(
    printer: &mut Printer<impl Write>,
    room: usize,
    version: u8,
    rule: u8,
    game: Game,
) {
    let mut file = [0xAAu8; MOST_FILE];
    write_cut(printer, &mut file, room, version, rule, game);
}

// The lengths of the files lent to the two writers, none where a game is not written in a version, and the rule
// of both.
#[derive(Clone, Copy)]
struct Asked {
    room_3: Option<u32>,
    room_4: Option<u32>,
    rule: u8,
}

// The length that a number in the input says.
fn room_of(n: u32) -> Option<u32> {
    if n == NOT_WRITTEN { None } else { Some(n) }
}

// Writes a game in both versions, as far as that is asked for.
fn write_both(printer: &mut Printer<impl Write>, number: u64, asked: Asked, game: Game) {
    for (version, room) in [(3, asked.room_3), (4, asked.room_4)] {
        if let Some(room) = room {
            say(printer, b"game");
            say_field(printer, number);
            say(printer, b" version");
            say_field(printer, u64::from(version));
            say(printer, b"\n");
            write_version(printer, room as usize, version, asked.rule, game);
        }
    }
}

// Puts the lent bytes and the board of a game together and writes it.
fn write_parts(
    printer: &mut Printer<impl Write>,
    number: u64,
    asked: Asked,
    framed: Framed,
    input: &[u8],
    bytes: &mut [u8; MOST_LENT],
    signed: &mut [u8; MOST_CELLS],
    cells: &mut [i8; MOST_CELLS],
) {
    let n = framing::put_parts(bytes, input, framed.lent);
    let m = framing::put_parts(signed, input, framed.board);
    let game = Game {
        header: framed.header,
        bytes: &bytes[..n],
        board: framed_games::put_cells(cells, &signed[..m]),
        counted: framed.row.counted,
        row: framed.row.events(input),
    };
    write_both(printer, number, asked, game);
}

// Makes the buffers of a game and lends them, and does nothing else: a proof that sees so many zeros counts
// them.
fn write_case(
    printer: &mut Printer<impl Write>,
    number: u64,
    asked: Asked,
    framed: Framed,
    input: &[u8],
) {
    let mut bytes = [0u8; MOST_LENT];
    let mut signed = [0u8; MOST_CELLS];
    let mut cells = [0i8; MOST_CELLS];
    write_parts(
        printer,
        number,
        asked,
        framed,
        input,
        &mut bytes,
        &mut signed,
        &mut cells,
    );
}

// Runs the case that lies in `input` from a cursor on, as `writing_case` says, by a rule, and answers the
// cursor behind it. Its number among the cases of its list is shown with it.
pub fn run_case(
    printer: &mut Printer<impl Write>,
    input: &[u8],
    from: ByteReader,
    number: u64,
    rule: u8,
) -> ByteReader
    ensures { Gives writing_case input.now from tt result }
{
    let room_3 = from.get_u32(input);
    let c = room_3.next;
    let room_4 = c.get_u32(input);
    let c = room_4.next;
    let asked = Asked {
        room_3: room_of(room_3.value),
        room_4: room_of(room_4.value),
        rule,
    };
    let h = framed_games::read_header(input, c);
    let c = h.next;
    let lent = framing::read_parts(input, c);
    let c = lent.next;
    let board = framing::read_parts(input, c);
    let c = board.next;
    let row = framed_games::read_row(input, c);
    let framed = Framed {
        header: h.header,
        lent: lent.value,
        board: board.value,
        row,
    };
    write_case(printer, number, asked, framed, input);
    framed_games::behind_row(input, row)
}
