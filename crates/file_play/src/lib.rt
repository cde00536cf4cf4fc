// Plays a file through without a row: its events come from the cursor, its board and cells are lent.
#![tactic(auto)]

ghost use Rattle.evf_events.specs.Events.{first_events};
ghost use Rattle.file_play.specs.FilePlay.{PlaysFile, HostPlays};
ghost use Rattle.file_play.specs.Starting.{StartsGame, StartsFile};

use evf_events::EventCursor;
use evf_video::Outcome;
use game::Header;
use game::refusals::BOARD_BUFFER_SHORT;
use moves::{Played, Position};
use play_passes::{play_events, press_events};
use playing::Sizes;
use text::Place;

// A file that is about to be played: the position before its first event, which is a refused one where the
// file is refused, and the cursor at that event.
#[derive(Clone, Copy)]
pub struct Start {
    pub position: Position,
    pub cursor: EventCursor,
}

// Readies a game whose packed board stands at a place of its file, and its first `events` events from a
// cursor on: nothing is changed where it is refused, with 11, 15, 24, 27 or 28. No file has a game of 15.
pub fn ready_game(
    file: &[u8],
    h: Header,
    place: Place,
    cursor: EventCursor,
    events: usize,
    board: &mut [i8],
    cells: &mut [u16],
) -> Position
    ensures { StartsGame file.now h place (first_events events file.now cursor)
        board.old cells.old result board.new cells.new }
{
    let sizes = Sizes {
        height: h.height,
        width: h.width,
    };
    if game::cells_short(h.height, h.width, board.len()) {
        return playing::refused(BOARD_BUFFER_SHORT);
    }
    let buttons = press_events(file, cursor, events);
    let n = playing::refusal(sizes, h.cell_pixel_size, board.len(), cells.len(), buttons);
    if n != 0 {
        return playing::refused(n);
    }
    board::read_board(
        text::part(file, place),
        h.height as u8,
        h.width as u8,
        board,
    );
    playing::begin(sizes, h.cell_pixel_size, board, buttons, cells)
}

// Reads a file and readies its first `events` events, as many as there are if those are fewer: its board is
// read and all its cells are covered. Refused, nothing is changed.
pub fn start_file(file: &[u8], events: usize, board: &mut [i8], cells: &mut [u16]) -> Start
    ensures { StartsFile file.now events board.old cells.old result
        board.new cells.new }
{
    let j = evf_video::judge(file);
    match j.outcome {
        Outcome::Read => Start {
            position: ready_game(file, j.header, j.board, j.cursor, events, board, cells),
            cursor: j.cursor,
        },
        Outcome::Refused(n) => Start {
            position: playing::refused(n),
            cursor: j.cursor,
        },
    }
}

// Plays the first `events` events of a file, as many as there are if those are fewer: how the game stands
// then, or 1 to 10 where the file cannot be read, 11 where the lent board is below height x width, 24, 27 or
// 28. Refused, it changes nothing; else the board is the game's and the cells are as `play` leaves them.
pub fn play_file(file: &[u8], events: usize, board: &mut [i8], cells: &mut [u16]) -> Played
    ensures { PlaysFile file.now events board.old cells.old result
        board.new cells.new }
{
    let s = start_file(file, events, board, cells);
    let last = play_events(file, s.cursor, events, board, cells, s.position);
    playing::answer(last)
}

// Plays for hosts: below 64 the answer is the number of the refusal; 64 is undecided, 65 won, 66 lost.
#[unsafe(no_mangle)]
pub extern "C" fn evf_play(file: &[u8], events: usize, board: &mut [i8], cells: &mut [u16]) -> u8
    ensures { HostPlays file.now events board.old cells.old result
        board.new cells.new }
{
    match play_file(file, events, board, cells) {
        Played::Undecided => 64,
        Played::Won => 65,
        Played::Lost => 66,
        Played::Refused(n) => n,
    }
}
