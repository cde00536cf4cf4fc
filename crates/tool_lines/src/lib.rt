// The lines that `evf check` and `evf upgrade` print for a file, but for its name, each written into a lent
// buffer from a place on. What does not fit is dropped, as everywhere in `byte_writer`.
#![tactic(auto)]

ghost use Rattle.byte_writer.specs.Places.{Writes};
ghost use Rattle.tool_lines.specs.Lines.{read_line, Checks, field_if, left_fields, upgraded_line};

use byte_writer::write_bytes;
use evf_video::{Outcome, judge};
use left_out::LeftOut;
use lines::write_count;
use words::write_refusal;

// Writes the line of a file that is read, and answers the place behind it.
pub fn write_read(
    out: &mut [u8],
    at: usize,
    version: u8,
    height: usize,
    width: usize,
    mines: usize,
    events: usize,
) -> usize
    ensures { Writes out.old out.new at (read_line version height width mines events) result }
{
    let at = write_bytes(out, at, b"read\tversion ");
    let at = write_count(out, at, version as u64, b"\t");
    let at = write_count(out, at, height as u64, b" rows, ");
    let at = write_count(out, at, width as u64, b" columns, ");
    let at = write_count(out, at, mines as u64, b" mines\t");
    write_count(out, at, events as u64, b" events\n")
}

// The place behind a line, and whether its file is read.
#[derive(Clone, Copy)]
pub struct Checked {
    pub to: usize,
    pub is_read: bool,
}

// Writes the line of a file, read or refused.
pub fn write_checked(out: &mut [u8], at: usize, file: &[u8]) -> Checked
    ensures { Checks file.now out.old out.new at result }
{
    let j = judge(file);
    match j.outcome {
        Outcome::Read => {
            let h = j.header;
            Checked {
                to: write_read(out, at, h.version, h.height, h.width, h.mine_num, j.events),
                is_read: true,
            }
        }
        Outcome::Refused(n) => Checked {
            to: write_refusal(out, at, n),
            is_read: false,
        },
    }
}

// A field that only some lines have.
fn write_if(out: &mut [u8], at: usize, has: bool, field: &[u8]) -> usize
    ensures { Writes out.old out.new at (field_if has field.now) result }
{
    if has {
        return write_bytes(out, at, field);
    }
    at
}

// Writes the fields of what a copy does not carry, but for game states, and answers the place behind them.
pub fn write_left(out: &mut [u8], at: usize, l: LeftOut) -> usize
    ensures { Writes out.old out.new at (left_fields l) result }
{
    let at = write_if(out, at, l.country, b"\tnot carried: the country, now XX");
    let at = write_if(out, at, l.moments, b"\tnot carried: start and end, now 0");
    if 0 < l.behind {
        let at = write_bytes(out, at, b"\tnot carried: ");
        return write_count(out, at, l.behind as u64, b" bytes behind the end");
    }
    at
}

// Writes the line of a copy of so many bytes and events, and answers the place behind it.
pub fn write_upgraded(out: &mut [u8], at: usize, bytes: usize, events: usize, l: LeftOut) -> usize
    ensures { Writes out.old out.new at (upgraded_line bytes events l) result }
{
    let at = write_bytes(out, at, b"upgraded\t");
    let at = write_count(out, at, bytes as u64, b" bytes\t");
    let at = write_count(out, at, events as u64, b" events");
    let at = write_left(out, at, l);
    write_bytes(out, at, b"\n")
}
