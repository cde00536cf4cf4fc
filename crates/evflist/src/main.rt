// Lists the replay on standard input: a line for the game, then one for each event, fields parted by tabs. A
// file that cannot be read gives one line with the number of its refusal, and input of more than 65536 bytes
// the line `long`. What is printed is `listed`'s, all of it in one write. What the system refuses goes to
// standard error; where the input could not be read, nothing else is printed.
#![tactic(auto)]

use listed::MOST_BYTES;
use system::streams::System;
use whole_files::input::{Unread, read_to_end};

// One byte more than is listed tells that the input is longer.
const ROOM: usize = MOST_BYTES + 1;

// The room for what is printed.
const ROOM_OUT: usize = 65536;

fn tell(rt: &impl System, what: &[u8]) {
    let _ = rt.tell(what);
}

fn list(rt: &impl System, file: &[u8]) {
    let mut out = [0u8; ROOM_OUT];
    let n = listed::list_whole(file, &mut out);
    if rt.put(&out[..n]).is_err() {
        tell(rt, b"evflist: standard output could not be written\n");
    }
}

// Reads the input and lists it; one that fills the buffer is too long.
fn list_input(rt: &impl System, input: &mut [u8; ROOM]) {
    let mut from = rt.reader();
    match read_to_end(&mut from, input) {
        Ok(n) => list(rt, &input[..n]),
        Err(Unread::Long) => list(rt, input),
        Err(Unread::System(_)) => tell(rt, b"evflist: standard input could not be read\n"),
    }
}

fn main(rt: HostRuntime) {
    let mut input = [0u8; ROOM];
    list_input(&rt, &mut input);
}
