// What the program `evflist` prints for its input, written into a lent buffer: a line for the game, then one
// for each event, fields parted by tabs; or the line `refused` and the number, or the line `long`. What does
// not fit is dropped, as everywhere in `byte_writer`.
#![tactic(auto)]

ghost use Rattle.byte_writer.specs.Places.{Writes};
ghost use Rattle.evf_events.specs.Events.{first_events};
ghost use Rattle.evf_video.specs.Parsed.{parse_of};
ghost use Rattle.listed.specs.Listed.{most_cells, most_events, event_lines, game_line};
ghost use Rattle.listed.specs.Listed.{refusal_line, lines_of, listed_of, Lists};

use byte_writer::{write_bytes, write_u8};
use event_lines::{write_columns, write_event};
use evf_events::{EventCursor, Step};
use evf_video::Outcome;
use game::Header;
use game::refusals::ROW_SHORT;
use lines::write_column;

// The most bytes of an input that is listed.
pub const MOST_BYTES: usize = 65536;

// The most events of a game that is listed; one of more is refused as for a short row.
const MOST_EVENTS: usize = 2000;

// Writes the lines of the events from a cursor on, `most` of them or as many as there are, and answers the
// place behind them.
fn write_events(out: &mut [u8], from: usize, file: &[u8], first: EventCursor, most: usize) -> usize
    ensures { Writes out.old out.new from
        (event_lines (first_events most file.now first)) result }
{
    let mut at = from;
    let mut c = first;
    for _ in 0..most {
        let Step::Got(event, next) = c.step(file) else {
            break;
        };
        at = write_event(out, at, event);
        c = next;
    }
    at
}

// Writes the line of a game and answers the place behind it.
fn write_game(out: &mut [u8], at: usize, h: Header, events: usize) -> usize
    ensures { Writes out.old out.new at (game_line h events) result }
{
    let time = h.rtime_ms;
    let version = write_bytes(out, at, b"game");
    let mines = write_columns(
        out,
        version,
        h.version as u64,
        h.height as u64,
        h.width as u64,
    );
    let end = write_columns(out, mines, h.mine_num as u64, time.0 as u64, events as u64);
    write_u8(out, end, b'\n')
}

// Writes the line of a refusal and answers the place behind it.
fn write_refusal(out: &mut [u8], at: usize, n: u8) -> usize
    ensures { Writes out.old out.new at (refusal_line n) result }
{
    let number = write_bytes(out, at, b"refused");
    let end = write_column(out, number, n as u64);
    write_u8(out, end, b'\n')
}

// Writes the lines of a file of any length. No board is needed: every board has at most 255 by 255 cells.
fn write_lines(file: &[u8], out: &mut [u8]) -> usize
    ensures { Writes out.old out.new 0
        (lines_of (parse_of file.now most_cells most_events)) result }
{
    let judged = evf_video::judge(file);
    match judged.outcome {
        Outcome::Read if MOST_EVENTS < judged.events => write_refusal(out, 0, ROW_SHORT),
        Outcome::Read => {
            let at = write_game(out, 0, judged.header, judged.events);
            write_events(out, at, file, judged.cursor, judged.events)
        }
        Outcome::Refused(n) => write_refusal(out, 0, n),
    }
}

// Writes what `evflist` prints for an input to the start of `out`, and answers how many bytes that are.
pub fn list_into(file: &[u8], out: &mut [u8]) -> usize
    ensures { Writes out.old out.new 0 (listed_of file.now) result }
{
    if MOST_BYTES < file.len() {
        return write_bytes(out, 0, b"long\n");
    }
    write_lines(file, out)
}

// The most bytes that `list_into` writes, for any input.
pub const MOST_OUTPUT: usize = 65536;

// Writes what `evflist` prints for an input to the start of a buffer that has room for every output, and
// answers how many bytes that are.
pub fn list_whole(file: &[u8], out: &mut [u8; MOST_OUTPUT]) -> usize
    ensures { Lists file.now out.old out.new result }
{
    list_into(file, out)
}
