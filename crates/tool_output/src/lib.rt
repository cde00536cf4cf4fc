// Lines to standard output and standard error, each in one write, and where a run over files stands. A line
// is put together in a buffer that its callers hand down.
#![tactic(auto)]

ghost use Rattle.std.specs.Prelude.{◌≡◌};
ghost use Rattle.byte_writer.specs.Places.{Writes};
ghost use Rattle.tool_output.specs.Runs.{over_of, broken_of};
ghost use Rattle.tool_output.specs.Lines.{about_of, name_field};

use byte_writer::{write_bytes, write_u8};
use errors::{number_of, write_error};
use name_lines::write_shown;
use std::rt::{Clock, Files};
use system::streams::Streams;
use tally::{Fate, Tally, write_counts, write_tally};

// The bytes of a line at most: two names and some words.
pub const LINE: usize = 16384;

// A line of progress is written no sooner than so many milliseconds after the last.
const PROGRESS_MS: u64 = 100;

// The stack that the buffers of a command take, the words behind `evf` and some to spare.
const STACK: u64 = 7340032;

// Where a run over files stands: what became of the files so far; whether there may be many, so that lines
// begin with names; whether progress is shown, when it was last, and whether lines go to a screen; whether
// the run is over, and whether it broke off.
#[derive(Clone, Copy)]
pub struct Run {
    pub tally: Tally,
    pub is_many: bool,
    pub shows: bool,
    pub shown_ms: u64,
    pub is_screen: bool,
    pub is_over: bool,
    pub is_broken: bool,
}

// A run that starts.
pub fn begin(rt: &(impl Streams + Clock), is_many: bool) -> Run {
    Run {
        tally: tally::NONE,
        is_many,
        shows: is_many && rt.is_error_terminal(),
        shown_ms: system::now_ms(rt),
        is_screen: rt.is_output_terminal(),
        is_over: false,
        is_broken: false,
    }
}

// A run that is over.
pub fn over(run: Run) -> Run
    ensures { result ≡ over_of run }
{
    Run {
        is_over: true,
        ..run
    }
}

// A run that broke off.
pub fn broken(run: Run) -> Run
    ensures { result ≡ broken_of run }
{
    Run {
        is_over: true,
        is_broken: true,
        ..run
    }
}

// Writes the first n bytes of a line to standard error, and answers whether they could be written.
pub fn say_error(rt: &impl Streams, line: &[u8], n: usize) -> bool {
    rt.tell(&line[..n.min(line.len())]).is_ok()
}

// Begins a message: what it is about.
pub fn begin_message(line: &mut [u8], what: &[u8]) -> usize
    ensures { Writes line.old line.new 0 (about_of what.now) result }
{
    let at = write_bytes(line, 0, b"evf: ");
    let at = write_shown(line, at, what);
    write_bytes(line, at, b": ")
}

// Writes a message to standard error: what it is about, and words.
pub fn complain(rt: &impl Streams, line: &mut [u8], what: &[u8], words: &[u8]) {
    let at = begin_message(line, what);
    let at = write_bytes(line, at, words);
    let at = write_u8(line, at, b'\n');
    say_error(rt, line, at);
}

// Writes a message to standard error: what it is about, and the words of an error.
pub fn complain_error(rt: &impl Streams, line: &mut [u8], what: &[u8], error: i32) {
    let at = begin_message(line, what);
    let at = write_error(line, at, number_of(error));
    let at = write_u8(line, at, b'\n');
    say_error(rt, line, at);
}

// Whether the stack has room for the buffers of a command; that it has not is told.
pub fn has_room(rt: &(impl Streams + Files)) -> bool {
    if STACK <= system::stack_limit(rt) {
        return true;
    }
    let _ = rt.tell(b"evf: the stack is too small: 7 MiB are needed (ulimit -s 8192)\n");
    false
}

// Takes the progress off a screen that is about to get a line.
fn erase(rt: &impl Streams, run: Run) {
    if run.shows && run.is_screen {
        let _ = rt.tell(b"\r\x1b[K");
    }
}

// Writes the progress over the last.
fn write_progress(rt: &impl Streams, line: &mut [u8], t: Tally) {
    let at = write_bytes(line, 0, b"\r\x1b[K");
    let at = write_counts(line, at, t);
    say_error(rt, line, at);
}

// Rewrites the progress, where it is shown and was long enough ago.
fn show_progress(rt: &(impl Streams + Clock), line: &mut [u8], run: Run) -> Run {
    if !run.shows {
        return run;
    }
    let now = system::now_ms(rt);
    match now.checked_sub(run.shown_ms) {
        Some(passed) if PROGRESS_MS <= passed => {
            write_progress(rt, line, run.tally);
            Run {
                shown_ms: now,
                ..run
            }
        }
        _ => run,
    }
}

// Begins the line of a file: its name, where there may be many.
pub fn begin_line(line: &mut [u8], run: Run, name: &[u8]) -> usize
    ensures { Writes line.old line.new 0 (name_field run.is_many name.now) result }
{
    if run.is_many {
        let at = write_shown(line, 0, name);
        return write_u8(line, at, b'\t');
    }
    0
}

// Writes the first n bytes to standard output in one go. That they cannot be printed is told.
pub fn print(rt: &impl Streams, line: &mut [u8], n: usize) -> bool {
    match rt.put(&line[..n.min(line.len())]) {
        Ok(()) => true,
        Err(error) => {
            complain_error(rt, line, b"standard output", error);
            false
        }
    }
}

// Prints the first n bytes, the line of a file, and counts it.
pub fn end_line(
    rt: &(impl Streams + Clock),
    line: &mut [u8],
    n: usize,
    run: Run,
    fate: Fate,
) -> Run {
    erase(rt, run);
    let is_printed = print(rt, line, n);
    let next = Run {
        tally: run.tally.counted(fate),
        ..run
    };
    if is_printed {
        show_progress(rt, line, next)
    } else {
        broken(next)
    }
}

// Ends a run: the counts, where there may be many files; the status.
pub fn end(rt: &impl Streams, line: &mut [u8], run: Run) -> u8 {
    let t = run.tally;
    if run.is_broken {
        return 2;
    }
    if !run.is_many {
        return t.status();
    }
    if run.shows {
        let _ = rt.tell(b"\r\x1b[K");
    }
    let at = write_tally(line, 0, t);
    if !say_error(rt, line, at) {
        return 2;
    }
    t.status()
}
