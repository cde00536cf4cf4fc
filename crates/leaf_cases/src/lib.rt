// Runs a case of one of the leaf functions: its sort, and the bytes that it is run on.
#![tactic(auto)]

ghost use Rattle.byte_reader.specs.Cursor.{Gives};
ghost use Rattle.leaf_cases.specs.Layout.{leaf_case};

use byte_reader::ByteReader;
use printing::{Printer, say, say_number};
use std::io::Write;
use text::Place;
use times::{Converted, GameMs};

// The number in up to eight bytes, the high one first; of more than eight the last eight.
fn number(s: &[u8]) -> u64 {
    s.iter()
        .fold(0, |v, b| v % 0x100_0000_0000_0000 * 256 + u64::from(*b))
}

// Shows whether bytes are UTF-8.
fn show_utf8(printer: &mut Printer<impl Write>, s: &[u8]) {
    if text::is_utf8(s) {
        say(printer, b"utf8 yes\n");
    } else {
        say(printer, b"utf8 no\n");
    }
}

// Shows the number that a decimal text says.
fn show_decimal(printer: &mut Printer<impl Write>, s: &[u8]) {
    say(printer, b"decimal ");
    match text::decimal(s) {
        Some(n) => say_number(printer, n),
        None => say(printer, b"none"),
    }
    say(printer, b"\n");
}

// Shows a number written as a decimal text, and that text's length.
fn show_written(printer: &mut Printer<impl Write>, s: &[u8]) {
    let n = number(s);
    let mut out = [0u8; 24];
    text::put_decimal(&mut out, 0, n);
    let len = text::decimal_len(n);
    say(printer, b"written ");
    printing::say_first(printer, &out, len);
    say(printer, b" ");
    say_number(printer, len as u64);
    say(printer, b"\n");
}

// Shows the milliseconds by a rule of the seconds that eight bytes are the bits of.
fn show_ms(printer: &mut Printer<impl Write>, s: &[u8], rule: u8) {
    say(printer, b"ms ");
    match times::s_to_ms(framing::float_of(number(s)), rule) {
        Converted::Ms(ms) => say_number(printer, ms.0 as u64),
        Converted::Refused(why) => {
            say(printer, b"refused ");
            say_number(printer, why as u64);
        }
    }
    say(printer, b"\n");
}

// Shows the bits of the seconds of a number of milliseconds.
fn show_seconds(printer: &mut Printer<impl Write>, s: &[u8]) {
    let n = number(s) % 0x1_0000_0000;
    let seconds = times::seconds_of(GameMs(n as u32));
    say(printer, b"seconds ");
    printing::show_bits(printer, seconds);
    say(printer, b"\n");
}

// Shows a board of a height and a width, one byte each, from the packed bits behind them: its mines, its
// cells, and the bytes that it packs to again. Nothing without the two.
fn show_board(printer: &mut Printer<impl Write>, s: &[u8]) {
    let [height, width, bits @ ..] = s else {
        return;
    };
    let height = *height;
    let width = *width;
    let mut cells = [0i8; 512];
    board::read_board(bits, height, width, &mut cells);
    say(printer, b"board ");
    say_number(printer, board::mines_found(bits, height, width) as u64);
    say(printer, b" ");
    printing::show_cells(printer, &cells, board::cells_of(height, width));
    say(printer, b" ");
    let mut packed = [0u8; 64];
    board::put_board(&cells, height, width, &mut packed, 0);
    let len = board::packed_len(height, width);
    printing::show_bytes(printer, text::part(&packed, Place { start: 0, len }));
    say(printer, b"\n");
}

// Shows the two letters of a country.
fn show_country(printer: &mut Printer<impl Write>, s: &[u8]) {
    let letters = game::two_letters(s);
    let shown = [letters.0, letters.1];
    say(printer, b"country ");
    say(printer, &shown);
    say(printer, b"\n");
}

// Shows a case of a sort, one of seconds by a rule. The sort's code is matched once, here: an enum would be
// matched twice.
fn show(printer: &mut Printer<impl Write>, sort: u8, s: &[u8], rule: u8) {
    match sort {
        1 => show_utf8(printer, s),
        2 => show_decimal(printer, s),
        3 => show_written(printer, s),
        4 => show_ms(printer, s, rule),
        5 => show_seconds(printer, s),
        6 => show_board(printer, s),
        7 => show_country(printer, s),
        _ => say(printer, b"unknown sort\n"),
    }
}

// Runs the case that lies in `input` from a cursor on, as `leaf_case` says, and answers the cursor behind it.
// Only one of seconds looks at the rule.
pub fn run_case(
    printer: &mut Printer<impl Write>,
    input: &[u8],
    from: ByteReader,
    rule: u8,
) -> ByteReader
    ensures { Gives leaf_case input.now from tt result }
{
    let sort = from.get_u8(input);
    let c = sort.next;
    let len = c.get_u16(input);
    let c = len.next;
    let bytes = c.get_buffer(input, len.value as usize);
    let place = bytes.value;
    show(printer, sort.value, text::part(input, place), rule);
    bytes.next
}
