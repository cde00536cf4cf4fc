// The tool `evf`: `evf check FILE...`, `evf recount FILE...`, `evf badge [--older | --newer] FILE...`,
// `evf upgrade [--rule N] IN OUT`, `evf upgrade [--rule N] --to DIR FILE...`, `evf resave` in the same ways,
// `evf show FILE`, `evf play [--after N] FILE`, `evf help [COMMAND]`. A program of Rattle has no exit status:
// started as `evf --status ...` it writes its status, a digit, to descriptor 3 as the last thing it does, and
// the script `evf` hands it on.
#![tactic(auto)]

mod badges; // a file's no-flag badge
mod check; // what a file is
mod commands; // the commands by name
mod copies; // copies in version 4
mod many; // a command over many files
mod options; // the words before the names of a command that makes copies
mod play; // a game played through
mod recount; // a file's 3BV counted anew
mod reports; // a line on each of many files
mod rooms; // buffers
mod show; // a game for a person

use answers::Copying;
use badge_rules::Wish;
use byte_writer::advance;
use commands::Command;
use reports::Report;
use rooms::Job;
use system::names::open_read;
use system::streams::System;
use tool_play::Wanted;

// The descriptor of the status.
const STATUS_FILENO: i32 = 3;

// Takes a descriptor that is closed: it becomes /dev/null open for reading, to which nothing can be written. It
// is open for as long as what is answered is kept.
fn hold_one<R: System>(rt: &R) -> Option<R::File> {
    open_read(rt, b"/dev/null").ok()
}

// Takes the descriptors of the three standard streams, where they are closed, so that no file that is opened
// gets one.
fn hold_streams<R: System>(rt: &R) -> (Option<R::File>, Option<R::File>, Option<R::File>) {
    (hold_one(rt), hold_one(rt), hold_one(rt))
}

// Does what the words from `first` on ask, and answers the status.
fn run(rt: &impl System, first: usize) -> u8 {
    match commands::command_at(rt, first) {
        Command::Check => check::run(rt, advance(first, 1)),
        Command::Recount => recount::run(rt, advance(first, 1)),
        Command::Badge => badges::run(rt, advance(first, 1)),
        Command::Upgrade => copies::run(rt, Copying::Upgrade, advance(first, 1)),
        Command::Resave => copies::run(rt, Copying::Resave, advance(first, 1)),
        Command::Show => show::run(rt, advance(first, 1)),
        Command::Play => play::run(rt, advance(first, 1)),
        Command::Help => tool_help::run(rt, advance(first, 1)),
        Command::Missing => tool_help::misused(rt, b"evf: no command\n"),
        Command::Unknown => tool_help::misused(rt, b"evf: no such command\n"),
    }
}

// Does what `evf recount` does with the names of standard input, whatever the words of the program are.
pub fn recount_input(rt: &impl System) {
    let _streams = hold_streams(rt);
    if tool_output::has_room(rt) {
        recount::run(rt, usize::MAX);
    }
}

// Does what `evf badge` does with the files that the words from `first` on name, whatever those before are.
pub fn badge_words(rt: &impl System, wish: Wish, first: usize) {
    let _streams = hold_streams(rt);
    if tool_output::has_room(rt) {
        rooms::with_room(rt, Job::Report(Report::Badge(wish)), first);
    }
}

// Does what `evf play` does with the file that a word names, whatever the other words are.
pub fn play_word(rt: &impl System, wanted: Wanted, word: usize) {
    let _streams = hold_streams(rt);
    if tool_output::has_room(rt) {
        rooms::with_room(rt, Job::Play(wanted), word);
    }
}

// Does what the words of the program ask. The stack is looked at here, before anything that has buffers is
// called.
pub fn start(rt: &impl System) {
    let _streams = hold_streams(rt);
    let has_room = tool_output::has_room(rt);
    if !tool_names::is_word(rt, 1, b"--status") {
        if has_room {
            run(rt, 1);
        }
        return;
    }
    let status = if has_room { run(rt, 2) } else { 2 };
    io::write_all(STATUS_FILENO, &[b'0' + status % 10]);
}
