// Forms that are filled in for a person: texts of a file, numbers, times, levels, yes and no. Each function
// writes from a place on and answers the place behind; what does not fit is dropped.
#![tactic(auto)]

ghost use Rattle.std.specs.Prelude.{◌≡◌, ◌+◌, ◌%◌, ◌≤◌, eqb, get_or};
ghost use Rattle.byte_writer.specs.Places.{Writes};
ghost use Rattle.forms.specs.Values.{yes_no, thousandths, seconds, level_name};
ghost use Rattle.forms.specs.Filled.{piece, taken, filled};

use byte_writer::{write_bytes, write_u8};
use game::Header;
use lines::escapes::write_shown_text;
use lines::write_number;

// The last digit of a number.
fn last_digit(n: u64) -> u8
    ensures { result ≡ 48 + n % 10 }
{
    b'0' + (n % 10) as u8
}

// A point and the last three digits of a number.
#[tactic(auto, unfolding(crate::specs::Values::thousandths))]
fn write_thousandths(out: &mut [u8], at: usize, n: u64) -> usize
    ensures { Writes out.old out.new at (thousandths n) result }
{
    let digits = [b'.', last_digit(n / 100), last_digit(n / 10), last_digit(n)];
    write_bytes(out, at, &digits)
}

// Milliseconds as seconds.
fn write_seconds(out: &mut [u8], at: usize, ms: u64) -> usize
    ensures { Writes out.old out.new at (seconds ms) result }
{
    let end = write_number(out, at, ms / 1000);
    write_thousandths(out, end, ms)
}

// The name of a level.
#[tactic(auto, unfolding(crate::specs::Values::level_name))]
fn write_level_name(out: &mut [u8], at: usize, level: u64) -> usize
    ensures { Writes out.old out.new at (level_name level) result }
{
    match level {
        3 => write_bytes(out, at, b"beginner"),
        4 => write_bytes(out, at, b"intermediate"),
        5 => write_bytes(out, at, b"expert"),
        _ => write_bytes(out, at, b"custom"),
    }
}

// Yes for 1, no for any other number.
fn write_yes_no(out: &mut [u8], at: usize, n: u64) -> usize
    ensures { Writes out.old out.new at (yes_no (eqb n 1)) result }
{
    if n == 1 {
        return write_bytes(out, at, b"yes");
    }
    write_bytes(out, at, b"no")
}

// A byte of a form with the next value.
#[tactic(auto, unfolding(crate::specs::Filled::piece))]
fn write_piece(out: &mut [u8], at: usize, b: u8, n: u64, file: &[u8], h: Header) -> usize
    ensures { Writes out.old out.new at (piece h file.now b n) result }
{
    match b {
        b'#' => write_number(out, at, n),
        b'$' => write_shown_text(out, at, game::text_of(h, file, n as usize)),
        b'?' => write_yes_no(out, at, n),
        b'@' => write_seconds(out, at, n),
        b'%' => write_level_name(out, at, n),
        _ => write_u8(out, at, b),
    }
}

// How many values a byte of a form takes.
#[tactic(auto, unfolding(crate::specs::Filled::taken))]
fn taken_by(b: u8) -> usize
    ensures { (result ≡ taken b) × (result ≤ 1) }
{
    match b {
        b'#' | b'$' | b'?' | b'@' | b'%' => 1,
        _ => 0,
    }
}

// Value k; 0 past the end.
fn value_at(values: &[u64], k: usize) -> u64
    ensures { result ≡ get_or values.now k 0 }
{
    values.get(k).copied().unwrap_or(0)
}

// A form, filled in with the values and with texts of the file.
pub fn write_filled(
    out: &mut [u8],
    at: usize,
    form: &[u8],
    values: &[u64],
    file: &[u8],
    h: Header,
) -> usize
    ensures { Writes out.old out.new at
        (filled h file.now form.now values.now) result }
{
    let mut to = at;
    let mut k: usize = 0;
    for b in form {
        to = write_piece(out, to, *b, value_at(values, k), file, h);
        k += taken_by(*b);
    }
    to
}
