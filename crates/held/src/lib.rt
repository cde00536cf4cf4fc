// `parse` and `upgrade` for the comparison with the Rust and for the benchmark (oracle/): a host can lend no
// row of events, so that each call here makes one of 2,000 or of 200,000 entries, holds it, and drops it. The
// row is on the stack, 24 bytes for an entry: 48 kB, or 4.8 MB. For people there are `evf_check` and
// `evf_upgrade`, which need none. Beside them one pass of the event cursor, which other passes are measured
// by.
#![tactic(auto)]

ghost use Rattle.std.specs.Prelude.{◌≡◌, ◌≤◌};
ghost use Rattle.evf_video.specs.Reading.{outcome_number, number_of};
ghost use Rattle.evf_video.specs.Parsed.{answer_of};
ghost use Rattle.upgrade.specs.Copy.{told_by};
ghost use Rattle.held.specs.Held.{ReadsHeld, UpgradesHeld, whole};

use byte_reader::ByteReader;
use evf_events::{EventCursor, Step};
use evf_video::{Outcome, Parsed};
use generate_evf::Written;

// Reads a file into a lent board, and its events into a held row of N entries.
fn read<const N: usize>(file: &[u8], board: &mut [i8]) -> Parsed
    requires { N ≤ 200000 }
    ensures { ReadsHeld answer_of N file.now board.old result board.new }
{
    let mut row = [rows::no_event(); N];
    evf_video::parse(file, board, &mut row)
}

// Upgrades a file into a lent copy, with the game read into a lent board and a held row of N entries.
fn upgrade<const N: usize>(file: &[u8], board: &mut [i8], copy: &mut [u8], rule: u8) -> Written
    requires { N ≤ 200000 }
    ensures { UpgradesHeld whole N file.now board.old copy.old rule result
        board.new copy.new }
{
    let mut row = [rows::no_event(); N];
    upgrade::upgrade(file, board, &mut row, copy, rule)
}

// One number for what was parsed: 0, or that of the refusal.
fn number(answer: Parsed) -> u8
    ensures { result ≡ outcome_number answer.outcome }
{
    match answer.outcome {
        Outcome::Read => 0,
        Outcome::Refused(n) => n,
    }
}

// Reads a file into a lent board, and its events into a held row: 0, or the number of the refusal, 1 to 12.
#[unsafe(no_mangle)]
pub extern "C" fn evf_read_held_2000(file: &[u8], board: &mut [i8]) -> u8
    ensures { ReadsHeld number_of 2000 file.now board.old result board.new }
{
    number(read::<2000>(file, board))
}

#[unsafe(no_mangle)]
pub extern "C" fn evf_read_held_200000(file: &[u8], board: &mut [i8]) -> u8
    ensures { ReadsHeld number_of 200000 file.now board.old result board.new }
{
    number(read::<200000>(file, board))
}

// Upgrades a file into a lent copy, with the game read into a lent board and a held row: one number, as
// `evf_upgrade` tells it.
#[unsafe(no_mangle)]
pub extern "C" fn evf_upgrade_held_2000(
    file: &[u8],
    board: &mut [i8],
    copy: &mut [u8],
    rule: u8,
) -> usize
    ensures { UpgradesHeld told_by 2000 file.now board.old copy.old rule result
        board.new copy.new }
{
    upgrade::told(upgrade::<2000>(file, board, copy, rule))
}

#[unsafe(no_mangle)]
pub extern "C" fn evf_upgrade_held_200000(
    file: &[u8],
    board: &mut [i8],
    copy: &mut [u8],
    rule: u8,
) -> usize
    ensures { UpgradesHeld told_by 200000 file.now board.old copy.old rule result
        board.new copy.new }
{
    upgrade::told(upgrade::<200000>(file, board, copy, rule))
}

// Steps over the events from a cursor on, `most` of them or as many as there are, and counts them.
fn count_steps(file: &[u8], first: EventCursor, most: usize) -> usize {
    let mut c = first;
    for n in 0..most {
        let Step::Got(_, next) = c.step(file) else {
            return n;
        };
        c = next;
    }
    most
}

// Reads a file's header, and steps over its events by the cursor: how many there are, 0 where the header is
// refused.
#[unsafe(no_mangle)]
pub extern "C" fn evf_cursor_pass(file: &[u8]) -> usize {
    let opening = evf_header::read_opening(file);
    match opening.next {
        ByteReader::At(at) => {
            let first = EventCursor::at_first(opening.header.version, at);
            count_steps(file, first, file.len())
        }
        ByteReader::Refused(_) => 0,
    }
}
