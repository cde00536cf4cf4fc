// What the programs print, piece by piece. No contract can say what is printed: the functions are proved safe
// and ending, and what they print is compared in the gate.
#![tactic(auto)]

use std::fmt::Display;
use std::io::Write;

// Where the programs print: a writer, and how printing went so far. Behind a failed write nothing more is
// written, and `finish` hands out the failure.
#[derive(Drop)]
pub struct Printer<W> {
    writer: W,
    outcome: std::io::Result<()>,
}

impl<W: Write> Printer<W> {
    pub fn new(writer: W) -> Printer<W> {
        Printer {
            writer,
            outcome: Ok(()),
        }
    }

    // Writes what is still gathered in the writer, and tells how printing went.
    pub fn finish(self) -> std::io::Result<()>
    where
        W: Drop,
    {
        let Printer {
            mut writer,
            outcome,
        } = self;
        outcome?;
        writer.flush()
    }
}

// Says bytes as they are.
pub fn say(printer: &mut Printer<impl Write>, s: &[u8]) {
    if printer.outcome.is_ok() {
        printer.outcome = printer.writer.write_all(s);
    }
}

// Says a value as `{}` shows it.
fn say_shown(printer: &mut Printer<impl Write>, value: impl Display + Drop) {
    if printer.outcome.is_ok() {
        printer.outcome = write!(printer.writer, "{value}");
    }
}

// Says the first n bytes, nothing where there are fewer.
pub fn say_first(printer: &mut Printer<impl Write>, s: &[u8], n: usize) {
    if let Some(first) = s.get(..n) {
        say(printer, first);
    }
}

// Says a number in decimal digits.
pub fn say_number(printer: &mut Printer<impl Write>, n: u64) {
    say_shown(printer, n);
}

// Says a space and a number.
pub fn say_field(printer: &mut Printer<impl Write>, n: u64) {
    say_shown(printer, format_args!(" {n}"));
}

// What is shown byte by byte or cell by cell goes to the writer in pieces of this length at most: a write, or
// a value to be formatted, for each takes several times as long.
const PIECE: usize = 4096;

const DIGITS: [u8; 16] = *b"0123456789abcdef";

// The last hexadecimal digit of a number.
fn digit(n: u16) -> u8 {
    DIGITS[(n % 16) as usize]
}

// Shows bytes in hexadecimal.
pub fn show_bytes(printer: &mut Printer<impl Write>, s: &[u8]) {
    for bytes in s.chunks(PIECE / 2) {
        let mut shown = [0u8; PIECE];
        for (two, b) in shown.chunks_exact_mut(2).zip(bytes) {
            two.copy_from_slice(&[digit(u16::from(*b / 16)), digit(u16::from(*b))]);
        }
        say_first(printer, &shown, 2 * bytes.len());
    }
}

// *n, where n is above 1.
fn say_times(printer: &mut Printer<impl Write>, n: usize) {
    if 1 < n {
        say_shown(printer, format_args!("*{n}"));
    }
}

// A number of a buffer, which is shown in all its hexadecimal digits behind a space.
trait Entry: Copy + PartialEq {
    fn show(self, printer: &mut Printer<impl Write>);
}

impl Entry for u8 {
    fn show(self, printer: &mut Printer<impl Write>) {
        say(
            printer,
            &[b' ', digit(u16::from(self / 16)), digit(u16::from(self))],
        );
    }
}

impl Entry for u16 {
    fn show(self, printer: &mut Printer<impl Write>) {
        let shown = [
            b' ',
            digit(self / 4096),
            digit(self / 256),
            digit(self / 16),
            digit(self),
        ];
        say(printer, &shown);
    }
}

// Shows numbers, n equal ones in a row once and with *n.
fn show_equal<T: Entry>(printer: &mut Printer<impl Write>, s: &[T]) {
    for run in s.chunk_by(|a, b| a == b) {
        if let Some(x) = run.first() {
            x.show(printer);
        }
        say_times(printer, run.len());
    }
}

// Shows bytes in hexadecimal, each behind a space, n equal ones in a row as xx*n.
pub fn show_runs(printer: &mut Printer<impl Write>, s: &[u8]) {
    show_equal(printer, s);
}

// Shows the entries of a working buffer in hexadecimal, each behind a space, n equal ones in a row as xxxx*n.
pub fn show_entries(printer: &mut Printer<impl Write>, entries: &[u16]) {
    show_equal(printer, entries);
}

// Says a number as 16 hexadecimal digits.
pub fn say_hex(printer: &mut Printer<impl Write>, n: u64) {
    say_shown(printer, format_args!("{n:016x}"));
}

// Shows a float by its bits, as 16 hexadecimal digits; `nan` for a NaN.
pub fn show_bits(printer: &mut Printer<impl Write>, x: f64) {
    if x.is_nan() {
        say(printer, b"nan");
    } else {
        say_hex(printer, x.to_bits());
    }
}

// A mine as a star, another cell as its digit.
fn glyph(cell: i8) -> u8 {
    match cell {
        0..=8 => b'0' + cell as u8,
        _ => b'*',
    }
}

// Shows the first n cells of a board, or all where there are fewer.
pub fn show_cells(printer: &mut Printer<impl Write>, cells: &[i8], n: usize) {
    for piece in cells[..usize::min(n, cells.len())].chunks(PIECE) {
        let mut shown = [0u8; PIECE];
        for (to, cell) in shown.iter_mut().zip(piece) {
            *to = glyph(*cell);
        }
        say_first(printer, &shown, piece.len());
    }
}
