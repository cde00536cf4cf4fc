// `evf show FILE`: the game for a person.
#![tactic(auto)]

use shown::{MOST_CELLS, write_shown};
use system::streams::System;
use tally::Fate;
use tool_files::loading::load;
use tool_files::troubles::fail;
use tool_names::{ROOM, word_at};
use tool_output::{end_line, print};
use words::write_refusal;

// Tells why a file is refused.
fn refuse(rt: &impl System, line: &mut [u8], number: u8) -> u8 {
    let at = write_refusal(line, 0, number);
    let run = end_line(rt, line, at, tool_output::begin(rt, false), Fate::Refused);
    tool_output::end(rt, line, run)
}

// Shows the game of a file, in one write.
fn show_bytes(rt: &impl System, file: &[u8], board: &mut [i8; MOST_CELLS], out: &mut [u8]) -> u8 {
    let shown = write_shown(file, board, out);
    if shown.refused != 0 {
        return refuse(rt, out, shown.refused);
    }
    if print(rt, out, shown.to) {
        return 0;
    }
    2
}

// Shows the game of the file of a name.
fn show_file(
    rt: &impl System,
    name: &[u8],
    file: &mut [u8],
    board: &mut [i8; MOST_CELLS],
    out: &mut [u8],
) -> u8 {
    match load(rt, name, file, out) {
        Ok(bytes) => show_bytes(rt, bytes, board, out),
        Err(t) => {
            let run = fail(rt, out, 0, tool_output::begin(rt, false), name, t);
            tool_output::end(rt, out, run)
        }
    }
}

// Shows the file that word i names, and answers the status.
pub fn show_word(
    rt: &impl System,
    i: usize,
    file: &mut [u8],
    board: &mut [i8; MOST_CELLS],
    out: &mut [u8],
) -> u8 {
    let mut room = [0u8; ROOM];
    match word_at(rt, i, &mut room) {
        Some(name) => show_file(rt, name, file, board, out),
        None => tool_help::misused(rt, b"evf show: FILE is too long for a name\n"),
    }
}
