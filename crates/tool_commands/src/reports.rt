// A line on each of many files, from its bytes alone. A new command of this sort is a variant of `Report` and
// a line in `report_bytes`.
use crate::badges::badge_bytes;
use crate::check::check_bytes;
use crate::many;
use crate::many::{BLOCK, Task};
use crate::recount::recount_bytes;
use badge_rules::Wish;
use name_lines::LONGEST;
use system::streams::System;
use tool_files::loading::{ROOM_IN, load};
use tool_files::troubles::fail;
use tool_names::words_from;
use tool_output::{LINE, Run, begin_line};
use tool_upgrade::ROOM_OUT;

// What is said of a file.
#[derive(Clone, Copy)]
pub enum Report {
    Check,
    Recount,
    Badge(Wish),
}

// Reports on the bytes of a file, behind the first `at` bytes of its line.
fn report_bytes(
    rt: &impl System,
    report: Report,
    file: &[u8],
    line: &mut [u8; LINE],
    at: usize,
    run: Run,
) -> Run {
    match report {
        Report::Check => check_bytes(rt, file, line, at, run),
        Report::Recount => recount_bytes(rt, file, line, at, run),
        Report::Badge(wish) => badge_bytes(rt, wish, file, line, at, run),
    }
}

// Reports on the file of a name.
pub(crate) fn report_file(
    rt: &impl System,
    report: Report,
    name: &[u8],
    file: &mut [u8; ROOM_IN],
    line: &mut [u8; LINE],
    run: Run,
) -> Run {
    let loaded = load(rt, name, file, line);
    let at = begin_line(line, run, name);
    match loaded {
        Ok(bytes) => report_bytes(rt, report, bytes, line, at, run),
        Err(t) => fail(rt, line, at, run, name, t),
    }
}

// Reports on the files that the words from `first` on name, and answers the status.
pub(crate) fn report_all(
    rt: &impl System,
    report: Report,
    first: usize,
    block: &mut [u8; BLOCK],
    name: &mut [u8; LONGEST],
    file: &mut [u8; ROOM_IN],
    copy: &mut [u8; ROOM_OUT],
    line: &mut [u8; LINE],
) -> u8 {
    many::tell_awaited(rt, first);
    let begun = tool_output::begin(rt, words_from(rt, first) != 1);
    let ended = many::over_names(
        rt,
        Task::Report(report),
        b"",
        first,
        block,
        name,
        file,
        copy,
        line,
        begun,
    );
    tool_output::end(rt, line, ended)
}
