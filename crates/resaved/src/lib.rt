// The lines that `evf resave` prints for a file, but for its name, each written into a lent buffer from a
// place on. What does not fit is dropped, as everywhere in `byte_writer`.
#![tactic(auto)]

ghost use Rattle.byte_writer.specs.Places.{Writes};
ghost use Rattle.resaved.specs.Lines.{resaved_line, older_line, Sends};

use byte_writer::write_bytes;
use evf_video::{Outcome, judge};
use left_out::LeftOut;
use lines::write_count;
use tool_lines::write_left;

// Writes the line of a copy of so many bytes, and answers the place behind it.
pub fn write_resaved(out: &mut [u8], at: usize, bytes: usize, l: LeftOut) -> usize
    ensures { Writes out.old out.new at (resaved_line bytes l) result }
{
    let at = write_bytes(out, at, b"resaved\t");
    let at = write_count(out, at, bytes as u64, b" bytes\t");
    let at = write_count(out, at, l.events as u64, b" events\t");
    let at = write_count(out, at, l.metrics as u64, b" metrics\t");
    let at = write_count(out, at, l.states as u64, b" game states left out");
    let at = write_left(out, at, l);
    write_bytes(out, at, b"\n")
}

// Writes the line of a replay of version 0 to 3, and answers the place behind it.
fn write_version(out: &mut [u8], at: usize, version: u8) -> usize
    ensures { Writes out.old out.new at (older_line version) result }
{
    let at = write_bytes(out, at, b"older\tversion ");
    write_count(
        out,
        at,
        version as u64,
        b": evf upgrade writes it as version 4\n",
    )
}

// The place behind a line, and whether there is one.
#[derive(Clone, Copy)]
pub struct Older {
    pub to: usize,
    pub is_older: bool,
}

// Writes the line of a replay of version 0 to 3, which is not re-saved; of any other file nothing.
pub fn write_older(out: &mut [u8], at: usize, file: &[u8]) -> Older
    ensures { Sends file.now out.old out.new at result }
{
    let j = judge(file);
    let version = j.header.version;
    match j.outcome {
        Outcome::Read if version < 4 => Older {
            to: write_version(out, at, version),
            is_older: true,
        },
        Outcome::Read => Older {
            to: at,
            is_older: false,
        },
        Outcome::Refused(_) => Older {
            to: at,
            is_older: false,
        },
    }
}
