// `evf help [COMMAND]`: what there is, and each refusal in words with what can be done.
#![tactic(auto)]

use byte_writer::write_bytes;
use refusals_help::write_refusals_help;
use std::env::FillError;
use std::rt::Env;
use system::streams::Streams;
use tool_names::ROOM;
use tool_output::print;

// The bytes of the longest help.
const HELP: usize = 8192;

// Tells wrong use on standard error, a line and then the use, and answers the status.
pub fn misused(rt: &impl Streams, what: &[u8]) -> u8 {
    let _ = rt.tell(what);
    let _ = rt.tell(
        b"use: evf check FILE...\n\
        \x20    evf recount FILE...\n\
        \x20    evf badge [--older | --newer] FILE...\n\
        \x20    evf upgrade [--rule N] IN OUT\n\
        \x20    evf upgrade [--rule N] --to DIR FILE...\n\
        \x20    evf resave [--rule N] IN OUT\n\
        \x20    evf resave [--rule N] --to DIR FILE...\n\
        \x20    evf show FILE\n\
        \x20    evf play [--after N] FILE\n\
        \x20    evf help [COMMAND]\n",
    );
    2
}

// Tells wrong use of a command, whose name stands before the line.
pub fn misused_by(rt: &impl Streams, name: &[u8], what: &[u8]) -> u8 {
    let _ = rt.tell(name);
    misused(rt, what)
}

// Prints the help of a command, and answers the status.
fn print_help(rt: &impl Streams, text: &[u8]) -> u8 {
    if rt.put(text).is_ok() {
        return 0;
    }
    let _ = rt.tell(b"evf: standard output: it cannot be written\n");
    2
}

pub fn check_help(rt: &impl Streams) -> u8 {
    print_help(
        rt,
        b"evf check FILE...\n\n\
        Says in a line for each file what it is: read, its version, its board, its events; or refused, a\n\
        number and why; or failed and why. Fields are parted by tabs. With many files the line begins with\n\
        the file's name, in which control characters are shown as ?, and a last line on standard error counts.\n\
        With no FILE the names are the lines of standard input:\n\n\
        \x20   find archive -name '*.evf' | evf check\n\n\
        A file may have 2097152 bytes. A pipe or a device is read to its end; that it is awaited is told.\n",
    )
}

pub fn recount_help(rt: &impl Streams) -> u8 {
    print_help(
        rt,
        b"evf recount FILE...\n\n\
        Counts the openings and the 3BV of each file anew, from its mines alone, and says in a line the 3BV\n\
        in the header, the 3BV recounted, the openings, and same or differs. The header's 3BV is only a\n\
        claim: whoever wrote the file could put any number there. Else the line says refused, a number and\n\
        why, or failed and why, as that of evf check does. Names are taken as there. Files that differ are\n\
        counted apart. Status 1 says that a file was refused or differs.\n\n\
        \x20   find archive -name '*.evf' | evf recount\n",
    )
}

pub fn badge_help(rt: &impl Streams) -> u8 {
    print_help(
        rt,
        b"evf badge [--older | --newer] FILE...\n\n\
        Says in a line for each file whether its game earned the no-flag badge: badge, the rule, earned\n\
        or not earned, claimed or not claimed by the file's own bit, and agrees or differs. That bit is\n\
        only a claim: whoever wrote the file could set it. The older rule, that of versions 0 to 3: no\n\
        press of the right button at all (no rc). The newer, that of version 4: none on a covered cell,\n\
        flagged or not, while the game is undecided; pf does not count. --older or --newer before the\n\
        names takes that rule for every file.\n\n\
        The newer rule plays the game as evf play does and refuses what that refuses, with 27 or 28: the\n\
        line then says badge, the rule, refused, a number and why. The older rule refuses no file that\n\
        can be read. Else the line says refused or failed as that of evf check does. Names are taken as\n\
        there. Files that differ are counted apart. Status 1 says that a file was refused or differs.\n\n\
        \x20   find archive -name '*.evf' | evf badge\n",
    )
}

pub fn upgrade_help(rt: &impl Streams) -> u8 {
    print_help(
        rt,
        b"evf upgrade [--rule N] IN OUT\nevf upgrade [--rule N] --to DIR FILE...\n\n\
        Makes OUT, the replay IN as version 4; or DIR/NAME for each FILE, where NAME is its last part. With no\n\
        FILE the names are the lines of standard input. IN is only read. Nothing is ever overwritten: where OUT\n\
        is there already, the line says taken, and whether it holds this very copy. OUT is whole or not there;\n\
        until then the copy is a file .part beside it. What a killed run left, the next one finishes.\n\n\
        The line says upgraded, the bytes and the events of the copy, and what it does not carry of the old\n\
        file: a country that is not two letters, start and end that were not understood, bytes behind the end.\n\
        Else it says refused, a number and why (evf help refusals); or failed and why.\n\n\
        N is the rule by which a time halfway between two milliseconds is rounded: 1, as without --rule,\n\
        away from zero; 2, to the even one. The times of a file are whole milliseconds, so that its copy is\n\
        the same under both, which is proved. --rule N stands before or behind --to DIR, and before IN or\n\
        FILE.\n",
    )
}

pub fn resave_help(rt: &impl Streams) -> u8 {
    print_help(
        rt,
        b"evf resave [--rule N] IN OUT\nevf resave [--rule N] --to DIR FILE...\n\n\
        Makes OUT, the replay IN of version 4 written anew; or DIR/NAME for each FILE, where NAME is its last\n\
        part. Names are taken and files are made as evf upgrade does it: nothing is ever overwritten. The custom\n\
        metrics are kept. Game states are left out: the writer of version 4 does not write them.\n\n\
        The line says resaved, the bytes, the events and the metrics of the copy, how many game states were left\n\
        out, and what else the copy does not carry: a country that is not two letters, bytes behind the end. A\n\
        replay of version 0 to 3 is not re-saved: the line says older, and that evf upgrade writes it as version\n\
        4; it counts as refused. Else the line says refused, a number and why (evf help refusals); or failed and\n\
        why.\n\n\
        N is the rule of rounding, 1 or 2 (evf help upgrade). The copy is the same under both.\n",
    )
}

pub fn show_help(rt: &impl Streams) -> u8 {
    print_help(
        rt,
        b"evf show FILE\n\n\
        Shows the game of a replay: its values by name, its texts, its board (* a mine, . no mine around) and\n\
        the number of its events. Bytes of a text that are no UTF-8 are written as \\x and two digits.\n",
    )
}

pub fn play_help(rt: &impl Streams) -> u8 {
    print_help(
        rt,
        b"evf play [--after N] FILE\n\n\
        Plays a replay through. A line tells each event that changes the board: its place among all events,\n\
        from 0, its kind, its time, its row and its column, from 0, and how many cells it uncovered, which is\n\
        0 for a flag that is set or lifted. The last line says undecided, won or lost, and how many events\n\
        were played. Once a game is won or lost nothing changes any more. Fields are parted by tabs.\n\n\
        With --after N the board after the first N events is shown, or after all where there are fewer, a line\n\
        a row: # covered, F flagged, . no mine around, 1 to 8 mines around, * a mine that was hit. The last\n\
        line says how the game stands then.\n\n\
        Chords are not known: a game in which a button is pressed while the other is down is refused with 28,\n\
        unless that is behind the first N events.\n",
    )
}

fn help_help(rt: &impl Streams) -> u8 {
    print_help(
        rt,
        b"evf help [COMMAND]\n\n\
        Shows what there is, or a command: check, recount, badge, upgrade, resave, show, play, refusals.\n",
    )
}

// Prints every refusal, its number, its words and what can be done, behind a text.
fn print_refusals_in(rt: &impl Streams, text: &mut [u8; HELP], before: &[u8]) -> u8 {
    let at = write_bytes(text, 0, before);
    let at = write_refusals_help(text, at);
    if print(rt, text, at) {
        return 0;
    }
    2
}

fn print_refusals(rt: &impl Streams, before: &[u8]) -> u8 {
    let mut text = [0u8; HELP];
    print_refusals_in(rt, &mut text, before)
}

fn all_help(rt: &impl Streams) -> u8 {
    print_refusals(
        rt,
        b"evf reads, upgrades and re-saves EVF replays of minesweeper games.\n\n\
        evf check FILE...              what each file is, or why it is refused\n\
        evf recount FILE...            each file's 3BV counted anew, beside the one that its header claims\n\
        evf badge FILE...              whether each game earned the no-flag badge, beside its own bit\n\
        evf badge --older FILE...      the same by the older rule, or the newer one by --newer\n\
        evf upgrade IN OUT             makes OUT, the replay IN as version 4\n\
        evf upgrade --to DIR FILE...   the same for many: DIR/NAME for each, NAME the last part of FILE\n\
        evf resave IN OUT              makes OUT, the replay IN of version 4 written anew, with its custom metrics\n\
        evf resave --to DIR FILE...    the same for many; game states are left out\n\
        evf show FILE                  the game for a person: values, texts, board\n\
        evf play FILE                  the game played through: a line for each event that changes the board\n\
        evf play --after N FILE        the board after N events, as the player saw it\n\
        evf help [COMMAND]             this, or more on a command\n\n\
        With no FILE, check, recount, badge, upgrade --to and resave --to take names from standard input,\n\
        one a line.\n\
        Behind upgrade and resave --rule N may stand, the rule of rounding, 1 or 2 (evf help upgrade).\n\
        Status (of the script): 0 all done, 1 something was refused or differs, \
        2 wrong use or the system failed.\n\n\
        A replay is refused with one of these numbers; below each is what can be done.\n\n",
    )
}

// Shows the help of a command of this name, and answers the status.
fn help_on(rt: &impl Streams, name: &[u8]) -> u8 {
    match name {
        b"check" => check_help(rt),
        b"recount" => recount_help(rt),
        b"badge" => badge_help(rt),
        b"upgrade" => upgrade_help(rt),
        b"resave" => resave_help(rt),
        b"show" => show_help(rt),
        b"play" => play_help(rt),
        b"help" => help_help(rt),
        b"refusals" => print_refusals(rt, b""),
        _ => misused(rt, b"evf help: no such command\n"),
    }
}

// Runs `evf help` on the words from `first` on, and answers the status.
pub fn run(rt: &(impl Streams + Env), first: usize) -> u8 {
    let mut word = [0u8; ROOM];
    match rt.arg(first, &mut word) {
        Ok(n) => help_on(rt, &word[..n]),
        Err(FillError::TooLong) => help_on(rt, b""),
        Err(FillError::NotPresent) => all_help(rt),
    }
}
