// The fields of a line that a program prints, each written into a lent buffer behind the last. What does not
// fit is dropped, as everywhere in `byte_writer`.
#![tactic(auto)]

ghost use Rattle.std.specs.Prelude.{◌++◌};
ghost use Rattle.text.specs.Decimals.{decimal_bytes};
ghost use Rattle.byte_writer.specs.Places.{Writes};
ghost use Rattle.lines.specs.Fields.{column};

use byte_writer::{advance, write_bytes, write_u8};

pub mod escapes; // texts for a person

// A number in decimal.
pub fn write_number(out: &mut [u8], at: usize, n: u64) -> usize
    ensures { Writes out.old out.new at (decimal_bytes n) result }
{
    text::put_decimal(out, at, n);
    advance(at, text::decimal_len(n))
}

// A number in decimal, and what stands behind it.
pub fn write_count(out: &mut [u8], at: usize, n: u64, what: &[u8]) -> usize
    ensures { Writes out.old out.new at (decimal_bytes n ++ what.now) result }
{
    let end = write_number(out, at, n);
    write_bytes(out, end, what)
}

// A tab and a number in decimal.
pub fn write_column(out: &mut [u8], at: usize, n: u64) -> usize
    ensures { Writes out.old out.new at (column n) result }
{
    let end = write_u8(out, at, b'\t');
    write_number(out, end, n)
}
