// `evf recount FILE...`: each file's 3BV counted anew, beside the one that its header claims.
use crate::reports::Report;
use crate::rooms::{Job, with_room};
use recounted::write_recounted;
use system::streams::System;
use tool_names::{asks_help, is_option};
use tool_output::{LINE, Run, end_line};

// Recounts the bytes of a file, and tells it behind the first `at` bytes of its line.
pub(crate) fn recount_bytes(
    rt: &impl System,
    file: &[u8],
    line: &mut [u8; LINE],
    at: usize,
    run: Run,
) -> Run {
    let recounted = write_recounted(line, at, file);
    let fate = recounted.fate;
    end_line(rt, line, recounted.to, run, fate)
}

// Runs `evf recount` on the words from `first` on, and answers the status.
pub(crate) fn run(rt: &impl System, first: usize) -> u8 {
    if asks_help(rt, first) {
        return tool_help::recount_help(rt);
    }
    if is_option(rt, first) {
        return tool_help::misused(
            rt,
            b"evf recount: no such option; for a file of that name write ./ before it\n",
        );
    }
    with_room(rt, Job::Report(Report::Recount), first)
}
