// `evf badge [--older | --newer] FILE...`: whether each game earned the no-flag badge, beside its file's own
// bit.
use crate::reports::Report;
use crate::rooms::{Job, with_room};
use badge_rules::{Rule, Wish};
use badged::{BadgedLine, MOST_CELLS, write_badged};
use byte_writer::advance;
use system::streams::System;
use tool_help::misused;
use tool_names::{any_begins, asks_help, is_option, is_word};
use tool_output::{LINE, Run, end_line};

// Writes the line of a file, whose game is played in arrays of its own. Nothing else is done where they are
// made, since a proof that sees many zeros counts them.
fn write_line(wish: Wish, file: &[u8], line: &mut [u8; LINE], at: usize) -> BadgedLine {
    let mut board = [0i8; MOST_CELLS];
    let mut cells = [0u16; MOST_CELLS];
    write_badged(line, at, wish, file, &mut board, &mut cells)
}

// Judges the badge of a file's bytes, and tells it behind the first `at` bytes of its line.
pub(crate) fn badge_bytes(
    rt: &impl System,
    wish: Wish,
    file: &[u8],
    line: &mut [u8; LINE],
    at: usize,
    run: Run,
) -> Run {
    let badged = write_line(wish, file, line, at);
    let fate = badged.fate;
    end_line(rt, line, badged.to, run, fate)
}

// Judges the files that the words from `first` on name, which stand behind the options.
fn badge_all(rt: &impl System, wish: Wish, first: usize) -> u8 {
    if any_begins(rt, first, b"--older") || any_begins(rt, first, b"--newer") {
        return misused(
            rt,
            b"evf badge: write --older or --newer, one of them and once, before the names; for a file of \
            that name write ./ before it\n",
        );
    }
    if is_option(rt, first) {
        return misused(
            rt,
            b"evf badge: no such option; for a file of that name write ./ before it\n",
        );
    }
    with_room(rt, Job::Report(Report::Badge(wish)), first)
}

// Runs `evf badge` on the words from `first` on, and answers the status.
pub(crate) fn run(rt: &impl System, first: usize) -> u8 {
    if asks_help(rt, first) {
        return tool_help::badge_help(rt);
    }
    if is_word(rt, first, b"--older") {
        return badge_all(rt, Wish::Under(Rule::Older), advance(first, 1));
    }
    if is_word(rt, first, b"--newer") {
        return badge_all(rt, Wish::Under(Rule::Newer), advance(first, 1));
    }
    badge_all(rt, Wish::Version, first)
}
