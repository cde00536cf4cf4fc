// What is told of a file besides refusals.
ghost use Rattle.byte_writer.specs.Places.{Writes};
ghost use Rattle.tool_files.specs.Troubles.{trouble_words, failed_line, taken_line};

use byte_writer::{write_bytes, write_u8};
use errors::{number_of, write_error};
use std::rt::Clock;
use system::streams::Streams;
use tally::Fate;
use tool_output::{Run, begin_message, end_line, say_error};
use whole_files::input::Unread;

// Why a file could not be read or made: the system's error; it is too long; its copy would be too long; a
// part file of other bytes is in the way.
#[derive(Clone, Copy)]
pub enum Trouble {
    System(u32),
    Long,
    CopyLong,
    InTheWay,
}

impl From<Unread> for Trouble {
    fn from(why: Unread) -> Trouble {
        match why {
            Unread::Long => Trouble::Long,
            Unread::System(error) => Trouble::System(number_of(error)),
        }
    }
}

// Writes the words of a trouble.
fn write_trouble(out: &mut [u8], at: usize, t: Trouble) -> usize
    ensures { Writes out.old out.new at (trouble_words t) result }
{
    match t {
        Trouble::System(error) => write_error(out, at, error),
        Trouble::Long => write_bytes(out, at, b"longer than 2097152 bytes"),
        Trouble::CopyLong => write_bytes(out, at, b"the copy would be too long"),
        Trouble::InTheWay => write_bytes(
            out,
            at,
            b"a .part file of other bytes is in the way: remove it",
        ),
    }
}

// Writes the line of a file that could not be read or made, behind its name.
fn write_failed(out: &mut [u8], at: usize, t: Trouble) -> usize
    ensures { Writes out.old out.new at (failed_line t) result }
{
    let at = write_bytes(out, at, b"failed\t");
    let at = write_trouble(out, at, t);
    write_u8(out, at, b'\n')
}

// Writes the line of a copy whose name is taken: by the same bytes, or by another file.
fn write_taken(out: &mut [u8], at: usize, is_same: bool) -> usize
    ensures { Writes out.old out.new at (taken_line is_same) result }
{
    if is_same {
        return write_bytes(out, at, b"taken\tthis copy is there already\n");
    }
    write_bytes(
        out,
        at,
        b"taken\tanother file has this name and stays as it is: name another or move it away\n",
    )
}

// Tells a trouble on standard error.
fn complain_of(rt: &impl Streams, line: &mut [u8], name: &[u8], t: Trouble) {
    let at = begin_message(line, name);
    let at = write_trouble(line, at, t);
    let at = write_u8(line, at, b'\n');
    say_error(rt, line, at);
}

// Tells a trouble in the line of a file, behind the first `at` bytes, and on standard error.
pub fn fail(
    rt: &(impl Streams + Clock),
    line: &mut [u8],
    at: usize,
    run: Run,
    name: &[u8],
    t: Trouble,
) -> Run {
    let to = write_failed(line, at, t);
    let next = end_line(rt, line, to, run, Fate::Failed);
    complain_of(rt, line, name, t);
    next
}

// Tells that the name of a copy is taken, behind the first `at` bytes of a line: by the same bytes, which is
// as good as making it, or by another file.
pub fn tell_taken(
    rt: &(impl Streams + Clock),
    line: &mut [u8],
    at: usize,
    run: Run,
    is_same: bool,
) -> Run {
    let to = write_taken(line, at, is_same);
    let fate = if is_same { Fate::Done } else { Fate::Failed };
    end_line(rt, line, to, run, fate)
}
