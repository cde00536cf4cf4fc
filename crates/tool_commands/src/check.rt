// `evf check FILE...`: what each file is, or why it is refused.
use crate::reports::Report;
use crate::rooms::{Job, with_room};
use system::streams::System;
use tally::Fate;
use tool_lines::write_checked;
use tool_names::{asks_help, is_option};
use tool_output::{LINE, Run, end_line};

// Checks the bytes of a file, and tells it behind the first `at` bytes of its line.
pub(crate) fn check_bytes(
    rt: &impl System,
    file: &[u8],
    line: &mut [u8; LINE],
    at: usize,
    run: Run,
) -> Run {
    let checked = write_checked(line, at, file);
    let fate = if checked.is_read {
        Fate::Done
    } else {
        Fate::Refused
    };
    end_line(rt, line, checked.to, run, fate)
}

// Runs `evf check` on the words from `first` on, and answers the status.
pub(crate) fn run(rt: &impl System, first: usize) -> u8 {
    if asks_help(rt, first) {
        return tool_help::check_help(rt);
    }
    if is_option(rt, first) {
        return tool_help::misused(
            rt,
            b"evf check: no such option; for a file of that name write ./ before it\n",
        );
    }
    with_room(rt, Job::Report(Report::Check), first)
}
