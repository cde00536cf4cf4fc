// The refusals as the help tells them, written into a lent buffer. What does not fit is dropped, as everywhere
// in `byte_writer`.
#![tactic(auto)]

ghost use Rattle.byte_writer.specs.Places.{Writes};
ghost use Rattle.refusals_help.specs.Help.{indent, help_line, help_lines};

use byte_writer::{write_bytes, write_u8};
use lines::write_number;
use words::{write_advice, write_words};

// The largest number that has words.
const LAST: u8 = 28;

// Writes a space before a number of one digit.
fn write_indent(out: &mut [u8], at: usize, n: u8) -> usize
    ensures { Writes out.old out.new at (indent n) result }
{
    if n < 10 {
        return write_u8(out, at, b' ');
    }
    at
}

// Writes a refusal of the help: the number and the words, and the advice in a line of its own.
pub fn write_help_line(out: &mut [u8], at: usize, n: u8) -> usize
    ensures { Writes out.old out.new at (help_line n) result }
{
    let mut end = write_indent(out, at, n);
    end = write_number(out, end, n as u64);
    end = write_bytes(out, end, b"  ");
    end = write_words(out, end, n);
    end = write_bytes(out, end, b"\n      ");
    end = write_advice(out, end, n);
    write_u8(out, end, b'\n')
}

// Writes every refusal of the help, in the order of the numbers.
pub fn write_refusals_help(out: &mut [u8], at: usize) -> usize
    ensures { Writes out.old out.new at help_lines result }
{
    let mut end = at;
    for n in 1..=LAST {
        end = write_help_line(out, end, n);
    }
    end
}
