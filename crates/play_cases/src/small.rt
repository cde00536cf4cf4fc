// Plays every row of three clicks on a small board, each click an lr, an rc or a pf on one of its cells, and
// shows how many rows ended how, with a digest of every answer and every entry.
ghost use Rattle.std.specs.Prelude.{◌<◌};
ghost use Rattle.byte_reader.specs.Cursor.{Gives};
ghost use Rattle.play_cases.specs.Layout.{small_case};

use buttons::{no_buttons, press};
use byte_reader::ByteReader;
use game::{Event, MouseKind};
use moves::{Played, play_event};
use playing::Sizes;
use printing::{Printer, say, say_field};
use std::io::Write;

// The lent cells, of the board and of the buffer; a small board has fewer.
const LENT: usize = 8;

// In every entry before a row is played.
const BEFORE: u16 = 9;

// The pixels of a cell.
const PIXELS: u8 = 16;

// The digest of nothing: any number but 0.
pub const NOTHING: u64 = 0x9E37_79B9_7F4A_7C15;

// A board's height, its width and its cells.
#[derive(Clone, Copy)]
struct Small {
    height: u8,
    width: u8,
    cells: usize,
}

// How many rows ended how, and a digest of all answers and entries.
#[derive(Clone, Copy)]
struct Tally {
    undecided: u64,
    won: u64,
    lost: u64,
    digest: u64,
}

// A digest of one number more: Marsaglia's shift register, the number put in.
fn digest(so_far: u64, n: u64) -> u64 {
    let x = so_far ^ n;
    let x = x ^ (x << 13);
    let x = x ^ (x >> 7);
    x ^ (x << 17)
}

// A digest of every entry more.
pub fn digest_entries(so_far: u64, entries: &[u16]) -> u64 {
    entries
        .iter()
        .fold(so_far, |d, entry| digest(d, u64::from(*entry)))
}

// The kind of a click.
fn kind_at(n: usize) -> MouseKind {
    match n {
        0 => MouseKind::Lr,
        1 => MouseKind::Rc,
        _ => MouseKind::Pf,
    }
}

// Click i of a board: of the first kind on each cell, then of the next; at one of the cell's 16 x 16 pixels.
fn click(small: Small, i: usize) -> Event
    requires { (0 < small.width) × (0 < small.cells) }
{
    let k = i % small.cells;
    let row = k / (small.width as usize);
    let column = k % (small.width as usize);
    Event::Mouse {
        seconds: 0.0,
        kind: kind_at(i / small.cells),
        x: (column % 256 * 16 + i % 16) as u16,
        y: (row % 256 * 16 + 15 - i % 16) as u16,
    }
}

// Plays three clicks.
fn play_clicks(small: Small, board: &[i8], cells: &mut [u16], clicks: &[Event]) -> Played {
    let sizes = Sizes {
        height: small.height as usize,
        width: small.width as usize,
    };
    let pressed = clicks
        .iter()
        .fold(no_buttons(), |b, click| press(b, *click));
    let mut p = playing::begin(sizes, PIXELS, board, pressed, cells);
    for click in clicks {
        p = play_event(board, cells, p, *click);
    }
    playing::answer(p)
}

// Counts an answer. No board has 2^64 rows, so that nothing wraps.
fn counted(so_far: Tally, played: Played) -> Tally {
    let mut t = so_far;
    let code = match played {
        Played::Undecided => {
            t.undecided = t.undecided.wrapping_add(1);
            0
        }
        Played::Won => {
            t.won = t.won.wrapping_add(1);
            1
        }
        Played::Lost => {
            t.lost = t.lost.wrapping_add(1);
            2
        }
        Played::Refused(why) => u64::from(why),
    };
    t.digest = digest(t.digest, code);
    t
}

// Plays row k, from entries that are all 9, and counts it.
fn play_row(so_far: Tally, small: Small, board: &[i8], k: usize) -> Tally
    requires { (0 < small.width) × (0 < small.cells) × (small.cells < 8) }
{
    let clicks = 3 * small.cells;
    let row = [
        click(small, k / clicks / clicks),
        click(small, k / clicks % clicks),
        click(small, k % clicks),
    ];
    let mut cells = [BEFORE; LENT];
    let played = play_clicks(small, board, &mut cells, &row);
    let mut t = counted(so_far, played);
    t.digest = digest_entries(t.digest, &cells);
    t
}

// How many rows of three there are of so many clicks.
fn rows_of(clicks: usize) -> usize
    requires { clicks < 24 }
{
    clicks * clicks * clicks
}

// Plays every row.
fn play_rows(small: Small, board: &[i8]) -> Tally
    requires { (0 < small.width) × (0 < small.cells) × (small.cells < 8) }
{
    let mut t = Tally {
        undecided: 0,
        won: 0,
        lost: 0,
        digest: NOTHING,
    };
    for k in 0..rows_of(3 * small.cells) {
        t = play_row(t, small, board, k);
    }
    t
}

// Lays a mine in each cell whose bit is set, the lowest bit for the last cell.
fn put_mines(cells: &mut [i8], layout: u16) {
    let mut bits = layout;
    for cell in cells.iter_mut().rev() {
        *cell = if bits % 2 == 0 { 0 } else { -1 };
        bits /= 2;
    }
}

// Shows a digest as 16 hexadecimal digits.
pub fn show_digest(printer: &mut Printer<impl Write>, d: u64) {
    say(printer, b" digest ");
    printing::say_hex(printer, d);
}

// Shows what all rows came to.
fn show_tally(printer: &mut Printer<impl Write>, t: Tally) {
    say(printer, b" undecided");
    say_field(printer, t.undecided);
    say(printer, b" won");
    say_field(printer, t.won);
    say(printer, b" lost");
    say_field(printer, t.lost);
    show_digest(printer, t.digest);
    say(printer, b"\n");
}

// Plays every row on a board of a layout, behind whose cells mines lie; none where it is too large or has no
// cells.
fn show(printer: &mut Printer<impl Write>, number: u64, small: Small, layout: u16) {
    if small.width == 0 || small.cells == 0 || LENT <= small.cells {
        return;
    }
    let mut board = [-1i8; LENT];
    put_mines(&mut board[..small.cells], layout);
    say(printer, b"case");
    say_field(printer, number);
    say(printer, b" small");
    show_tally(printer, play_rows(small, &board));
}

// Runs the case that lies in `input` from a cursor on, as `small_case` says, and answers the cursor behind it.
// Its number among the cases of its list is shown with it.
pub fn run_case(
    printer: &mut Printer<impl Write>,
    input: &[u8],
    from: ByteReader,
    number: u64,
) -> ByteReader
    ensures { Gives small_case input.now from tt result }
{
    let height = from.get_u8(input);
    let c = height.next;
    let width = c.get_u8(input);
    let c = width.next;
    let layout = c.get_u16(input);
    let small = Small {
        height: height.value,
        width: width.value,
        cells: board::cells_of(height.value, width.value),
    };
    show(printer, number, small, layout.value);
    layout.next
}
