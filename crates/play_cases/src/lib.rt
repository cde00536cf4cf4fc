// Runs the cases of playing: a game whose row lies in the input, played by the steps, event by event, or
// judged so for its badge; and every row of three clicks on a small board. Each is shown with every entry of
// the lent cells.
#![tactic(auto)]

mod badges; // a game's badge under every wish, by several versions and both bits
pub mod small; // all rows of three clicks

ghost use Rattle.byte_reader.specs.Cursor.{Gives};
ghost use Rattle.play_cases.specs.Layout.{asked_fields, play_case};

use buttons::Buttons;
use byte_reader::ByteReader;
use framed_games::Events;
use framing::Parts;
use moves::{Played, Position};
use playing::Sizes;
use printing::{Printer, say, say_field};
use std::io::Write;

// The most cells that a case can have, and the most entries that it can ask for.
const MOST_CELLS: usize = 65536;

// What is shown of a game: how it stands once it is played, or its badge.
#[derive(Clone, Copy)]
pub enum Shown {
    Play,
    Badge,
}

// A case's number and what it shows, height and width of its board, the pixels of a cell, and the lent
// entries: how many, and what stands in each.
#[derive(Clone, Copy)]
struct Asked {
    number: u64,
    shown: Shown,
    height: usize,
    width: usize,
    pixels: u8,
    entries: usize,
    before: u16,
}

// The buttons after every event of the row.
fn press_all(row: Events) -> Buttons {
    row.fold(buttons::no_buttons(), buttons::press)
}

// Plays every event of the row.
fn play_all(board: &[i8], cells: &mut [u16], start: Position, row: Events) -> Position {
    let mut position = start;
    for event in row {
        position = moves::play_event(board, cells, position, event);
    }
    position
}

// Shows the number of a case and what is shown of it.
fn show_name(printer: &mut Printer<impl Write>, number: u64, shown: Shown) {
    say(printer, b"case");
    say_field(printer, number);
    match shown {
        Shown::Play => say(printer, b" play"),
        Shown::Badge => say(printer, b" badge"),
    }
}

// Shows how a game stands, up to its cells.
fn show_played(printer: &mut Printer<impl Write>, played: Played) {
    match played {
        Played::Undecided => say(printer, b" undecided cells"),
        Played::Won => say(printer, b" won cells"),
        Played::Lost => say(printer, b" lost cells"),
        Played::Refused(why) => {
            say(printer, b" refused");
            say_field(printer, why as u64);
            say(printer, b" cells");
        }
    }
}

// Shows in a line what is asked of a game: how it stands once it is played, and every entry of its cells; or
// its badge.
fn show(
    printer: &mut Printer<impl Write>,
    asked: Asked,
    board: &[i8],
    cells: &mut [u16],
    row: Events,
) {
    let sizes = Sizes {
        height: asked.height,
        width: asked.width,
    };
    let shown = asked.shown;
    show_name(printer, asked.number, shown);
    let buttons = press_all(row);
    match shown {
        Shown::Play => {
            let start = playing::begin(sizes, asked.pixels, board, buttons, cells);
            let last = play_all(board, cells, start, row);
            show_played(printer, playing::answer(last));
            printing::show_entries(printer, cells);
            say(printer, b"\n");
        }
        Shown::Badge => badges::show(printer, asked, buttons, board, cells, row),
    }
}

// Puts the board of a case together and shows its game with as many entries as are asked for, nothing where
// there are fewer.
fn show_parts(
    printer: &mut Printer<impl Write>,
    asked: Asked,
    parts: Parts,
    signed: &mut [u8; MOST_CELLS],
    board: &mut [i8; MOST_CELLS],
    cells: &mut [u16; MOST_CELLS],
    input: &[u8],
    row: Events,
) {
    let n = framing::put_parts(signed, input, parts);
    let board = framed_games::put_cells(board, &signed[..n]);
    if let Some(cells) = cells.get_mut(..asked.entries) {
        show(printer, asked, board, cells, row);
    }
}

// Makes the three buffers of a case and lends them, and does nothing else: a proof that sees so many entries
// counts them.
fn show_case(
    printer: &mut Printer<impl Write>,
    asked: Asked,
    parts: Parts,
    input: &[u8],
    row: Events,
) {
    let mut signed = [0u8; MOST_CELLS];
    let mut board = [0i8; MOST_CELLS];
    let mut cells = [asked.before; MOST_CELLS];
    show_parts(
        printer,
        asked,
        parts,
        &mut signed,
        &mut board,
        &mut cells,
        input,
        row,
    );
}

// What is asked for, and the cursor behind it.
#[derive(Clone, Copy)]
struct ReadAsked {
    asked: Asked,
    next: ByteReader,
}

// Reads what stands before the board, as `asked_fields` says.
fn read_asked(input: &[u8], from: ByteReader, number: u64, shown: Shown) -> ReadAsked
    ensures { Gives asked_fields input.now from tt result.next }
{
    let height = from.get_u64(input);
    let c = height.next;
    let width = c.get_u64(input);
    let c = width.next;
    let pixels = c.get_u8(input);
    let c = pixels.next;
    let entries = c.get_u32(input);
    let c = entries.next;
    let before = c.get_u16(input);
    let c = before.next;
    let asked = Asked {
        number,
        shown,
        height: height.value as usize,
        width: width.value as usize,
        pixels: pixels.value,
        entries: entries.value as usize,
        before: before.value,
    };
    ReadAsked { asked, next: c }
}

// Runs the case that lies in `input` from a cursor on, as `play_case` says, and answers the cursor behind it:
// its game is played, or judged for its badge. Its number among the cases of its list is shown with it.
fn run_shown(
    printer: &mut Printer<impl Write>,
    input: &[u8],
    from: ByteReader,
    number: u64,
    shown: Shown,
) -> ByteReader
    ensures { Gives play_case input.now from tt result }
{
    let read = read_asked(input, from, number, shown);
    let asked = read.asked;
    let c = read.next;
    let framed = framing::read_parts(input, c);
    let parts = framed.value;
    let c = framed.next;
    let row = framed_games::read_row(input, c);
    show_case(printer, asked, parts, input, row.events(input));
    framed_games::behind_row(input, row)
}

// Runs the case that lies in `input` from a cursor on, as `play_case` says, and answers the cursor behind it:
// its game is played. Its number among the cases of its list is shown with it.
pub fn run_case(
    printer: &mut Printer<impl Write>,
    input: &[u8],
    from: ByteReader,
    number: u64,
) -> ByteReader
    ensures { Gives play_case input.now from tt result }
{
    run_shown(printer, input, from, number, Shown::Play)
}

// The same, and its game is judged for its badge.
pub fn run_badge(
    printer: &mut Printer<impl Write>,
    input: &[u8],
    from: ByteReader,
    number: u64,
) -> ByteReader
    ensures { Gives play_case input.now from tt result }
{
    run_shown(printer, input, from, number, Shown::Badge)
}
