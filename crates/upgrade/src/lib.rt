// The upgrade of a replay of version 0 to 3 to version 4: with the game read into a lent board and row, and
// without either.
#![tactic(auto)]

ghost use Rattle.std.specs.Prelude.{◌≡◌, ◌<◌};
ghost use Rattle.upgrade.specs.Copy.{told_by, Upgrades, Copies};
ghost use Rattle.upgrade.specs.CopySteps.{CopiesJudged, CopiesGame, CopiesPacked, made_for, board_for};
ghost use Rattle.upgrade.specs.CopySteps.{copy_for};

use evf_events::EventCursor;
use evf_records::Seen;
use evf_video::Outcome;
use game::refusals::ALREADY_VERSION_4;
use game::{Event, Header};
use generate_evf::{Written, refused};
use passes::{Survey, look_over, put_events};
use text::Place;

// The bytes of the shortest file of version 4: an answer in one number is a refusal below it.
pub const SHORTEST_COPY: usize = 51;

// The cells of the largest board, 255 × 255.
const MOST_CELLS: usize = 65025;

// The answer, and where filling the row starts.
#[derive(Clone, Copy)]
struct CopyMade {
    written: Written,
    run: evf_video::RowFill,
}

// Writes a game of versions 0 to 3 as version 4, its events judged before.
fn copy_judged(
    h: Header,
    file: &[u8],
    board: &[i8],
    from: EventCursor,
    seen: Seen,
    copy: &mut [u8],
) -> Written
    ensures { CopiesJudged file.now h board.now from seen copy.old result
        copy.new }
{
    let ready = generate_evf::prepare(h, file, board, seen, copy);
    put_events(file, from.version, from.at, copy, ready.run);
    ready.written
}

// Judges the events of a game of versions 0 to 3 that was read, and writes it as version 4 by a rule.
fn copy_game(
    h: Header,
    file: &[u8],
    board: &[i8],
    from: EventCursor,
    copy: &mut [u8],
    rule: u8,
) -> Written
    ensures { CopiesGame file.now h board.now from copy.old rule result
        copy.new }
{
    match look_over(file, from.version, from.at, rule) {
        Survey::All { seen, .. } => copy_judged(h, file, board, from, seen, copy),
        Survey::Refused(n) => refused(n),
    }
}

// Gives the answer, the board and the copy; the row is still to be filled.
fn upgrade_but_row(file: &[u8], board: &mut [i8], n: usize, copy: &mut [u8], rule: u8) -> CopyMade
    ensures { (result ≡ made_for file.now board.old n copy.old rule)
        × (board.new ≡ board_for file.now board.old n copy.old rule)
        × (copy.new ≡ copy_for file.now board.old n copy.old rule) }
{
    let ready = evf_video::parse_but_row(file, board, n);
    let header = ready.parsed.header;
    let run = ready.run;
    let written = match ready.parsed.outcome {
        Outcome::Read if header.version == 4 => refused(ALREADY_VERSION_4),
        Outcome::Read => copy_game(header, file, board, run.cursor, copy, rule),
        Outcome::Refused(k) => refused(k),
    };
    CopyMade { written, run }
}

// Upgrades a file of version 0 to 3 by a rule into the first bytes of a lent copy, and gives the game read
// from it in a lent board and row: the length, or 1 to 13, 26, 16, 19 to 22 or 23. Refused up to 12 it
// changes no buffer; from 13 on board and row hold the game, and only a length has changed the copy.
pub fn upgrade(
    file: &[u8],
    board: &mut [i8],
    row: &mut [Event],
    copy: &mut [u8],
    rule: u8,
) -> Written
    ensures { Upgrades file.now board.old row.old copy.old rule result
        board.new row.new copy.new }
{
    let n = row.len();
    let made = upgrade_but_row(file, board, n, copy, rule);
    evf_video::fill(row, file, made.run);
    made.written
}

// Copies a game of versions 0 to 3 that was judged, its board still packed in the file.
fn copy_packed(
    h: Header,
    file: &[u8],
    place: Place,
    from: EventCursor,
    copy: &mut [u8],
    rule: u8,
) -> Written
    requires { (h.height < 256) × (h.width < 256) }
    ensures { CopiesPacked file.now h place from copy.old rule result copy.new }
{
    let mut board = [0i8; MOST_CELLS];
    let bits = text::part(file, place);
    board::read_board(bits, h.height as u8, h.width as u8, &mut board);
    copy_game(h, file, &board, from, copy, rule)
}

// Gives one number for an answer: the refusal's, or the length that was written or would be needed.
pub fn told(answer: Written) -> usize
    ensures { result ≡ told_by answer }
{
    match answer {
        Written::Bytes(n) => n,
        Written::Refused(k) => k as usize,
        Written::Short(n) => n,
    }
}

// Upgrades a file by a rule without giving the game: below `SHORTEST_COPY` the number of the refusal, else
// the length of the copy, which was written if it is not above the lent copy's.
#[unsafe(no_mangle)]
pub extern "C" fn evf_upgrade(file: &[u8], copy: &mut [u8], rule: u8) -> usize
    ensures { Copies file.now copy.old rule result copy.new }
{
    let judged = evf_video::judge(file);
    let header = judged.header;
    match judged.outcome {
        Outcome::Read if header.version == 4 => ALREADY_VERSION_4 as usize,
        Outcome::Read => told(copy_packed(header, file, judged.board, judged.cursor, copy, rule)),
        Outcome::Refused(n) => n as usize,
    }
}
