// Counts the files of a run by what became of them, tells the counts in a line, and gives the run's status.
#![tactic(auto)]

ghost use Rattle.std.specs.Prelude.{◌≡◌};
ghost use Rattle.byte_writer.specs.Places.{Writes};
ghost use Rattle.tally.specs.Counts.{counted_of, status_of};
ghost use Rattle.tally.specs.Counts.{files_part, differ_part, counts_part, tally_line};

use byte_writer::write_u8;
use lines::write_count;

// What became of a file. One that differs was recounted, and its header claims something else.
#[derive(Clone, Copy)]
pub enum Fate {
    Done,
    Differs,
    Refused,
    Failed,
}

// How many files there were, and of each fate. A count stops at the largest u64.
#[derive(Clone, Copy)]
pub struct Tally {
    pub files: u64,
    pub done: u64,
    pub differ: u64,
    pub refused: u64,
    pub failed: u64,
}

// No file yet.
pub const NONE: Tally = Tally {
    files: 0,
    done: 0,
    differ: 0,
    refused: 0,
    failed: 0,
};

impl Tally {
    // A file more, and what became of it.
    pub fn counted(self, fate: Fate) -> Tally
        ensures { result ≡ counted_of self fate }
    {
        let files = self.files.saturating_add(1);
        match fate {
            Fate::Done => Tally {
                files,
                done: self.done.saturating_add(1),
                ..self
            },
            Fate::Differs => Tally {
                files,
                differ: self.differ.saturating_add(1),
                ..self
            },
            Fate::Refused => Tally {
                files,
                refused: self.refused.saturating_add(1),
                ..self
            },
            Fate::Failed => Tally {
                files,
                failed: self.failed.saturating_add(1),
                ..self
            },
        }
    }

    // The status of a run over these files: 2 where one failed, else 1 where one was refused or differs,
    // else 0.
    pub fn status(self) -> u8
        ensures { result ≡ status_of self }
    {
        if 0 < self.failed {
            return 2;
        }
        if 0 < self.refused || 0 < self.differ {
            return 1;
        }
        0
    }
}

// The number of files: `1 file: `, or `3000 files: `.
fn write_files(out: &mut [u8], at: usize, n: u64) -> usize
    ensures { Writes out.old out.new at (files_part n) result }
{
    if n == 1 {
        return write_count(out, at, n, b" file: ");
    }
    write_count(out, at, n, b" files: ")
}

// The number of files that differ, where there is one: `3 differ, `.
fn write_differ(out: &mut [u8], at: usize, n: u64) -> usize
    ensures { Writes out.old out.new at (differ_part n) result }
{
    if n == 0 {
        return at;
    }
    if n == 1 {
        return write_count(out, at, n, b" differs, ");
    }
    write_count(out, at, n, b" differ, ")
}

// The counts, as `3000 files: 2990 done, 8 refused, 2 failed`, or `2987 done, 3 differ, 8 refused, 2 failed`.
pub fn write_counts(out: &mut [u8], at: usize, t: Tally) -> usize
    ensures { Writes out.old out.new at (counts_part t) result }
{
    let files = write_files(out, at, t.files);
    let done = write_count(out, files, t.done, b" done, ");
    let differ = write_differ(out, done, t.differ);
    let refused = write_count(out, differ, t.refused, b" refused, ");
    write_count(out, refused, t.failed, b" failed")
}

// The counts and a newline.
pub fn write_tally(out: &mut [u8], at: usize, t: Tally) -> usize
    ensures { Writes out.old out.new at (tally_line t) result }
{
    let end = write_counts(out, at, t);
    write_u8(out, end, b'\n')
}
