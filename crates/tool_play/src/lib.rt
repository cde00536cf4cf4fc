// `evf play [--after N] FILE`: a game played through, event by event.
#![tactic(auto)]

use byte_writer::advance;
use evf_events::{EventCursor, Step};
use file_play::Start;
use game::Event;
use moves::{Played, Position};
use played::{Move, play_move, write_change, write_seen, write_verdict};
use system::streams::System;
use tally::Fate;
use tool_files::loading::{ROOM_IN, load};
use tool_files::troubles::fail;
use tool_names::{ROOM, word_at};
use tool_output::{end_line, print};

// How many events are played at most, and whether the board behind them is shown, in place of a line for each
// event that changes it.
#[derive(Clone, Copy)]
pub struct Wanted {
    pub events: u64,
    pub board: bool,
}

// All events, told one by one.
pub const ALL: Wanted = Wanted {
    events: u64::MAX,
    board: false,
};

// The board after the first n events.
pub fn after(n: u64) -> Wanted {
    Wanted {
        events: n,
        board: true,
    }
}

// The cells of the largest board.
pub const MOST_CELLS: usize = 65025;

// The room for lines that are gathered: that of a copy, which is lent for them.
pub const ROOM_OUT: usize = 2359296;

// The bytes of a line at most.
const LINE: usize = 256;

// A game on its way: its position, the cursor at its next event and how many were played; how many bytes of
// lines are gathered, and whether none are, since the board is wanted; whether all is played, and whether a
// line could not be printed.
#[derive(Clone, Copy)]
struct Way {
    position: Position,
    cursor: EventCursor,
    events: usize,
    gathered: usize,
    is_silent: bool,
    is_over: bool,
    is_broken: bool,
}

// The way from a start on.
fn way_from(s: Start, is_silent: bool) -> Way {
    Way {
        position: s.position,
        cursor: s.cursor,
        events: 0,
        gathered: 0,
        is_silent,
        is_over: false,
        is_broken: false,
    }
}

// Prints the lines that are gathered, where one more might not fit behind them.
fn make_room(rt: &impl System, out: &mut [u8; ROOM_OUT], way: &mut Way) {
    if advance(way.gathered, LINE) <= out.len() {
        return;
    }
    if !print(rt, out, way.gathered) {
        way.is_over = true;
        way.is_broken = true;
    }
    way.gathered = 0;
}

// Gathers the line of an event, where it changed the board.
fn tell(rt: &impl System, out: &mut [u8; ROOM_OUT], way: &mut Way, m: Move, event: Event) {
    if way.is_silent {
        return;
    }
    make_room(rt, out, way);
    way.gathered = write_change(out, way.gathered, way.events, m, event);
}

// Plays an event, behind which stands a cursor.
fn play_one(
    rt: &impl System,
    board: &[i8; MOST_CELLS],
    cells: &mut [u16; MOST_CELLS],
    out: &mut [u8; ROOM_OUT],
    way: &mut Way,
    event: Event,
    cursor: EventCursor,
) {
    let m = play_move(board, cells, way.position, event);
    tell(rt, out, way, m, event);
    way.position = m.position;
    way.cursor = cursor;
    way.events = advance(way.events, 1);
}

// Plays the next event, where there is one. The way is lent: one that is handed over and back is copied for each
// event.
fn play_next(
    rt: &impl System,
    file: &[u8],
    board: &[i8; MOST_CELLS],
    cells: &mut [u16; MOST_CELLS],
    out: &mut [u8; ROOM_OUT],
    way: &mut Way,
) {
    match way.cursor.step(file) {
        Step::Got(event, next) => play_one(rt, board, cells, out, way, event, next),
        Step::End { .. } | Step::Refused(_) => way.is_over = true,
    }
}

// Plays `most` events, or as many as there are.
fn play_on(
    rt: &impl System,
    file: &[u8],
    board: &[i8; MOST_CELLS],
    cells: &mut [u16; MOST_CELLS],
    out: &mut [u8; ROOM_OUT],
    most: u64,
    from: Way,
) -> Way {
    let mut way = from;
    for _ in 0..most {
        play_next(rt, file, board, cells, out, &mut way);
        if way.is_over {
            break;
        }
    }
    way
}

// Tells how a game stands behind the lines that are gathered, and prints all that is not yet.
fn tell_verdict(
    rt: &impl System,
    out: &mut [u8; ROOM_OUT],
    gathered: usize,
    stands: Played,
    events: usize,
    fate: Fate,
) -> u8 {
    let to = write_verdict(out, gathered, stands, events);
    let run = end_line(rt, out, to, tool_output::begin(rt, false), fate);
    tool_output::end(rt, out, run)
}

// Gathers the board, where it is wanted, and answers how many bytes are gathered.
fn gather_board(
    board: &[i8; MOST_CELLS],
    cells: &[u16; MOST_CELLS],
    out: &mut [u8; ROOM_OUT],
    way: Way,
) -> usize {
    if way.is_silent {
        let p = way.position;
        return write_seen(out, way.gathered, board, cells, p.height, p.width);
    }
    way.gathered
}

// Ends the way: the board, where it is wanted, and how the game stands.
fn end_way(
    rt: &impl System,
    board: &[i8; MOST_CELLS],
    cells: &[u16; MOST_CELLS],
    out: &mut [u8; ROOM_OUT],
    way: Way,
) -> u8 {
    let mut last = way;
    make_room(rt, out, &mut last);
    if last.is_broken {
        return 2;
    }
    let gathered = gather_board(board, cells, out, last);
    tell_verdict(
        rt,
        out,
        gathered,
        last.position.stands,
        last.events,
        Fate::Done,
    )
}

// Plays the bytes of a file.
fn play_bytes(
    rt: &impl System,
    wanted: Wanted,
    file: &[u8],
    board: &mut [i8; MOST_CELLS],
    cells: &mut [u16; MOST_CELLS],
    out: &mut [u8; ROOM_OUT],
) -> u8 {
    let start = file_play::start_file(file, wanted.events as usize, board, cells);
    let way = way_from(start, wanted.board);
    match way.position.stands {
        Played::Refused(number) => {
            tell_verdict(rt, out, 0, Played::Refused(number), 0, Fate::Refused)
        }
        _ => {
            let last = play_on(rt, file, board, cells, out, wanted.events, way);
            end_way(rt, board, cells, out, last)
        }
    }
}

// Plays the file of a name.
fn play_name(
    rt: &impl System,
    wanted: Wanted,
    name: &[u8],
    file: &mut [u8; ROOM_IN],
    board: &mut [i8; MOST_CELLS],
    cells: &mut [u16; MOST_CELLS],
    out: &mut [u8; ROOM_OUT],
) -> u8 {
    match load(rt, name, file, out) {
        Ok(bytes) => play_bytes(rt, wanted, bytes, board, cells, out),
        Err(t) => {
            let run = fail(rt, out, 0, tool_output::begin(rt, false), name, t);
            tool_output::end(rt, out, run)
        }
    }
}

// Plays the file that word i names, and answers the status.
pub fn play_word(
    rt: &impl System,
    wanted: Wanted,
    i: usize,
    file: &mut [u8; ROOM_IN],
    board: &mut [i8; MOST_CELLS],
    cells: &mut [u16; MOST_CELLS],
    out: &mut [u8; ROOM_OUT],
) -> u8 {
    let mut room = [0u8; ROOM];
    match word_at(rt, i, &mut room) {
        Some(name) => play_name(rt, wanted, name, file, board, cells, out),
        None => tool_help::misused(rt, b"evf play: FILE is too long for a name\n"),
    }
}
