// A command over many files: their names are the words behind it or, where there are none, the lines of
// standard input. A new command of this sort is a variant of `Task` and a line in `do_name`.
use crate::reports::{Report, report_file};
use byte_writer::write_bytes;
use name_lines::{LONGEST, write_shown_start};
use system::streams::System;
use tally::Fate;
use tool_files::loading::ROOM_IN;
use tool_names::{Next, names_from, next_name, words_from};
use tool_output::{LINE, Run, broken, complain_error, end_line, over};
use tool_upgrade::{Asked, ROOM_OUT, copy_into_folder};

// What is done with each file.
#[derive(Clone, Copy)]
pub enum Task {
    Report(Report),
    Copy(Asked),
}

// The bytes of standard input that are read at once.
pub const BLOCK: usize = 65536;

// Does the task for the file of a name.
fn do_name(
    rt: &impl System,
    task: Task,
    folder: &[u8],
    name: &[u8],
    file: &mut [u8; ROOM_IN],
    copy: &mut [u8; ROOM_OUT],
    line: &mut [u8; LINE],
    run: Run,
) -> Run {
    match task {
        Task::Report(report) => report_file(rt, report, name, file, line, run),
        Task::Copy(asked) => copy_into_folder(rt, asked, name, folder, file, copy, line, run),
    }
}

// Tells a name that is too long, by its first bytes, and passes it over.
fn pass_over(rt: &impl System, name: &[u8], line: &mut [u8; LINE], run: Run) -> Run {
    let at = write_shown_start(line, 0, name);
    let at = write_bytes(line, at, b"\tfailed\tthe name is too long\n");
    end_line(rt, line, at, run, Fate::Failed)
}

// Tells who types names that they are awaited.
pub(crate) fn tell_awaited(rt: &impl System, first: usize) {
    if words_from(rt, first) == 0 && rt.is_input_terminal() {
        let _ = rt.tell(b"evf: names of files are awaited, one a line\n");
    }
}

// Does the task for the next name, or ends the run where there is none.
fn do_next(
    rt: &impl System,
    task: Task,
    folder: &[u8],
    next: Result<Next, i32>,
    file: &mut [u8; ROOM_IN],
    copy: &mut [u8; ROOM_OUT],
    line: &mut [u8; LINE],
    run: Run,
) -> Run {
    match next {
        Ok(Next::Name(name)) => do_name(rt, task, folder, name, file, copy, line, run),
        Ok(Next::Long(name)) => pass_over(rt, name, line, run),
        Ok(Next::Over) => over(run),
        Err(error) => {
            complain_error(rt, line, b"standard input", error);
            broken(run)
        }
    }
}

// Does the task for each file that the words from `first` on name, or the lines of standard input.
pub(crate) fn over_names(
    rt: &impl System,
    task: Task,
    folder: &[u8],
    first: usize,
    block: &mut [u8; BLOCK],
    name: &mut [u8; LONGEST],
    file: &mut [u8; ROOM_IN],
    copy: &mut [u8; ROOM_OUT],
    line: &mut [u8; LINE],
    run: Run,
) -> Run {
    let mut names = names_from(rt, first);
    let mut now = run;
    for _ in 0..u64::MAX {
        let next = next_name(rt, &mut names, block, name);
        now = do_next(rt, task, folder, next, file, copy, line, now);
        if now.is_over {
            break;
        }
    }
    now
}
