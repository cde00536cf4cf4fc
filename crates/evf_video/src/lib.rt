// Reading a replay of version 0 to 4: into a lent board and row, as an answer alone, and as a check for
// hosts.
#![tactic(auto)]

ghost use Rattle.std.specs.Prelude.{◌≡◌, ◌*◌, ◌≤◌, ◌<◌, length};
ghost use Rattle.std.proofs.lemmas.List.Edits.{sets};
ghost use Rattle.text.specs.Places.{absent, bytes_at, Inside};
ghost use Rattle.board.specs.Bits.{bit_at};
ghost use Rattle.board.specs.Geometry.{cells};
ghost use Rattle.byte_reader.specs.Cursor.{Reads};
ghost use Rattle.byte_reader.specs.declared.ByteReader.TheVariants.{At};
ghost use Rattle.evf_events.specs.Events.{events_from};
ghost use Rattle.evf_events.specs.Start.{first_cursor};
ghost use Rattle.evf_video.specs.Reading.{none, checksum, with_checksum, reading_of, number_of};
ghost use Rattle.evf_video.specs.Reading.{behind_header};
ghost use Rattle.evf_video.specs.Judging.{judged, start_of, judged_of};
ghost use Rattle.evf_video.specs.Parsed.{parse_of, answer_of, Parses};
ghost use Rattle.evf_video.specs.Turns.{stopped, took_of, row_by, run_by, row_left_of, board_ready};

use byte_reader::{ByteReader, Read};
use evf_events::{EventCursor, Step};
use evf_scan::{Scan, scan_events};
use game::limits::CHECKSUM_LEN;
use game::refusals::{BOARD_BUFFER_SHORT, ROW_SHORT};
use game::{CHECKSUM, Event, GameState, Header};
use text::{ABSENT, Place};

// Whether a file was read, or the number of its refusal.
#[derive(Clone, Copy)]
pub enum Outcome {
    Read,
    Refused(u8),
}

// The answer of a reading. A refused one has the blank header and no events.
#[derive(Clone, Copy)]
pub struct Parsed {
    pub outcome: Outcome,
    pub header: Header,
    pub events: usize,
}

// A file judged before any buffer is touched: the answer, the place of its packed board and the cursor at its
// first record. A refused one has the blank header, no board, no events, and a cursor that stands nowhere.
#[derive(Clone, Copy)]
pub struct Judged {
    pub outcome: Outcome,
    pub header: Header,
    pub board: Place,
    pub events: usize,
    pub cursor: EventCursor,
}

// Where filling a row stands; a done one gives no event.
#[derive(Clone, Copy)]
pub struct RowFill {
    pub done: bool,
    pub cursor: EventCursor,
}

// One turn of filling a row.
#[derive(Clone, Copy)]
struct Took {
    more: bool,
    event: Event,
    run: RowFill,
}

// What is known once all but the row is read: the answer, and where filling the row starts.
#[derive(Clone, Copy)]
pub struct RowLeft {
    pub parsed: Parsed,
    pub run: RowFill,
}

// Reads the checksum from `at`, the place behind the events: counted in version 4; 32 bytes before, if one
// `follows`, and else absent.
pub fn read_checksum(file: &[u8], version: u8, at: usize, follows: bool) -> Read<Place>
    ensures { Reads absent (checksum version follows) file.now (At at) result.value result.next }
{
    let c = ByteReader::At(at);
    if version == 4 {
        return c.get_counted(file);
    }
    if follows {
        return c.get_buffer(file, CHECKSUM_LEN);
    }
    Read {
        value: ABSENT,
        next: c,
    }
}

// Puts the place of a checksum into a header.
pub fn with_checksum(h: Header, p: Place) -> Header
    ensures { result ≡ with_checksum h p }
{
    let mut out = h;
    out.texts[CHECKSUM] = p;
    out
}

// Answers a refused file by its number.
fn unread(n: u8) -> Judged
    ensures { result ≡ judged (first_cursor 0 0) (none n) }
{
    Judged {
        outcome: Outcome::Refused(n),
        header: game::blank_header(),
        board: ABSENT,
        events: 0,
        cursor: EventCursor::at_first(0, 0),
    }
}

// Judges the events from `at` on and the checksum behind them, for a header that is read.
fn judge_events(file: &[u8], header: Header, board: Place, at: usize) -> Judged
    ensures { result ≡ judged (first_cursor header.version at)
        (behind_header file.now (record { header = header; board = board })
        (events_from file.now (first_cursor header.version at))) }
{
    let version = header.version;
    let cursor = EventCursor::at_first(version, at);
    match scan_events(cursor, file) {
        Scan::All {
            events,
            at: end,
            checksum,
        } => {
            let sum = read_checksum(file, version, end, checksum);
            match sum.next {
                ByteReader::At(_) => Judged {
                    outcome: Outcome::Read,
                    header: with_checksum(header, sum.value),
                    board,
                    events,
                    cursor,
                },
                ByteReader::Refused(n) => unread(n),
            }
        }
        Scan::Refused(n) => unread(n),
    }
}

// Judges a file without a board or a row: 1 to 10 where it is refused. Reads the header, passes over the
// events once and reads the checksum, so that a caller can refuse further before it unpacks a board.
pub fn judge(file: &[u8]) -> Judged
    ensures { result ≡ judged_of file.now }
{
    let o = evf_header::read_opening(file);
    match o.next {
        ByteReader::At(at) => judge_events(file, o.header, o.board, at),
        ByteReader::Refused(n) => unread(n),
    }
}

// Judges a file that is to be read into a board of so many cells and a row of so many entries: as `judge`,
// then 11, then 12.
fn judge_into(file: &[u8], cells: usize, entries: usize) -> Judged
    ensures { result ≡ judged (start_of file.now) (parse_of file.now cells entries) }
{
    let j = judge(file);
    match j.outcome {
        Outcome::Read => {
            if cells < j.header.height * j.header.width {
                return unread(BOARD_BUFFER_SHORT);
            }
            if entries < j.events {
                return unread(ROW_SHORT);
            }
            j
        }
        Outcome::Refused(_) => j,
    }
}

// Takes from a judged file what a caller is told.
fn answer(j: Judged) -> Parsed
    ensures { result ≡ record { outcome = j.outcome; header = j.header; events = j.events } }
{
    Parsed {
        outcome: j.outcome,
        header: j.header,
        events: j.events,
    }
}

// Answers 0 for a file that can be read, else the number of its refusal, 1 to 10.
#[unsafe(no_mangle)]
pub extern "C" fn evf_check(file: &[u8]) -> u8
    ensures { result ≡ number_of (reading_of file.now) }
{
    match judge(file).outcome {
        Outcome::Read => 0,
        Outcome::Refused(n) => n,
    }
}

// Unpacks the board that stands at `place` into the first cells of `board`.
fn read_cells(file: &[u8], place: Place, height: usize, width: usize, board: &mut [i8])
    requires { Inside file.now place × (height < 256) × (width < 256) × (height * width ≤ length board.old) }
    ensures { board.new ≡ sets board.old 0
        (cells (bit_at (bytes_at file.now place)) height width) }
{
    board::read_board(text::part(file, place), height as u8, width as u8, board);
}

// Reads a file into a lent board as `parse` does with a row of `n` entries, and leaves the row to be filled.
pub fn parse_but_row(file: &[u8], board: &mut [i8], n: usize) -> RowLeft
    ensures { (result ≡ row_left_of file.now board.old n)
        × (board.new ≡ board_ready file.now board.old n) }
{
    let j = judge_into(file, board.len(), n);
    match j.outcome {
        Outcome::Read => {
            read_cells(file, j.board, j.header.height, j.header.width, board);
            RowLeft {
                parsed: answer(j),
                run: RowFill {
                    done: false,
                    cursor: j.cursor,
                },
            }
        }
        Outcome::Refused(_) => RowLeft {
            parsed: answer(j),
            run: RowFill {
                done: true,
                cursor: j.cursor,
            },
        },
    }
}

// Reads a file into a lent board, for a caller that takes the events from the cursor one by one: the answer
// is that of `parse` with a row of so many entries.
pub fn parse_board(file: &[u8], board: &mut [i8], entries: usize) -> Parsed
    ensures { (result ≡ answer_of (parse_of file.now (length board.old) entries))
        × (board.new ≡ board_ready file.now board.old entries) }
{
    parse_but_row(file, board, entries).parsed
}

// Ends a turn without an event.
fn stop(run: RowFill) -> Took
    ensures { result ≡ stopped run }
{
    Took {
        more: false,
        event: Event::State {
            seconds: 0.0,
            state: GameState::Replay,
        },
        run,
    }
}

// Takes the next event from the cursor; none once the events are done.
#[tactic(auto, unfolding(crate::specs::Turns::took_of))]
fn take(run: RowFill, file: &[u8]) -> Took
    ensures { result ≡ took_of file.now run }
{
    if run.done {
        return stop(run);
    }
    match run.cursor.step(file) {
        Step::Got(event, next) => Took {
            more: true,
            event,
            run: RowFill {
                done: false,
                cursor: next,
            },
        },
        Step::End { .. } | Step::Refused(_) => stop(run),
    }
}

// Fills a row from its start with the events from `from` on, and leaves the rest. The one function that
// stores into a row.
pub fn fill(row: &mut [Event], file: &[u8], from: RowFill) -> RowFill
    ensures { (result ≡ run_by file.now from row.old)
        × (row.new ≡ row_by file.now from row.old) }
{
    let mut run = from;
    for entry in row.iter_mut() {
        let t = take(run, file);
        run = t.run;
        if !t.more {
            break;
        }
        *entry = t.event;
    }
    run
}

// Reads a file into a lent board and row: 1 to 10 for the file, then 11 for the board, then 12 for the row. A
// refused call changes neither; an accepted one writes height x width cells and an entry for each event, and
// leaves the rest.
pub fn parse(file: &[u8], board: &mut [i8], row: &mut [Event]) -> Parsed
    ensures { Parses file.now board.old row.old result board.new
        row.new }
{
    let n = row.len();
    let left = parse_but_row(file, board, n);
    fill(row, file, left.run);
    left.parsed
}
