// The writers of versions 3 and 4 and their sizing. A game is a header, the bytes in which its nine texts and
// its custom metrics lie, a board and a row of events, all lent. The row is judged and measured in one pass,
// and written in another.
#![tactic(auto)]

ghost use Rattle.std.specs.Prelude.{◌≡◌, length};
ghost use Rattle.byte_writer.specs.Places.{capped};
ghost use Rattle.evf_records.specs.Steps.{seen_version, seen_rule, run_from, run_off};
ghost use Rattle.layout_fields.specs.Fields.{lent};
ghost use Rattle.generate_evf.specs.declared.Written.TheVariants.{Bytes};
ghost use Rattle.generate_evf.specs.Written.{size_of, size_number, written_number, refused_with, Generates};
ghost use Rattle.generate_evf.specs.Steps.{WholeIs, size_seen, ready_of, front_seen, around, around_of};

use byte_writer::Length;
use evf_judging::{Verdict, first_refusal};
use evf_records::{Run, Seen, before_row, judge_row, put_row};
use game::refusals::FILE_BUFFER_SHORT;
use game::{Event, Header};

// How long the file is, or the number of the refusal, 14 to 22, 25 or 26.
#[derive(Clone, Copy)]
pub enum Size {
    Bytes(usize),
    Refused(u8),
}

impl Size {
    // The number of the refusal, 0 where there is none.
    pub fn number(self) -> u8
        ensures { result ≡ size_number self }
    {
        match self {
            Size::Bytes(_) => 0,
            Size::Refused(n) => n,
        }
    }
}

// How many bytes were written; or the number of the refusal, 14 to 22, 25 or 26; or how many would be needed,
// which is 23.
#[derive(Clone, Copy)]
pub enum Written {
    Bytes(usize),
    Refused(u8),
    Short(usize),
}

impl Written {
    // The number of the refusal, 23 where the room falls short, 0 where the file was written.
    pub fn number(self) -> u8
        ensures { result ≡ written_number self }
    {
        match self {
            Written::Bytes(_) => 0,
            Written::Refused(n) => n,
            Written::Short(_) => FILE_BUFFER_SHORT,
        }
    }
}

// The answer of a call that is refused with `number`: callers make no refusal of their own by its variant.
pub fn refused(number: u8) -> Written
    ensures { result ≡ refused_with number }
{
    Written::Refused(number)
}

// The answer, and where the events are to be written.
#[derive(Clone, Copy)]
pub struct Ready {
    pub written: Written,
    pub run: Run,
}

// The length of the whole file.
fn whole_len(h: Header, bytes: &[u8], seen: Seen) -> Length
    ensures { WholeIs h bytes.now seen result }
{
    let version = seen.version();
    let len = seen.length();
    let len = evf_layout::add_front(len, version, h, bytes);
    evf_layout::add_tail(len, version, h, bytes)
}

// How long the file of a game is whose row was seen; the largest usize where it is longer.
pub fn size_of(header: Header, bytes: &[u8], board: &[i8], seen: Seen) -> Size
    ensures { result ≡ size_seen header bytes.now board.now seen }
{
    match first_refusal(header, bytes, board.len(), seen) {
        Verdict::Fine => {
            let len = whole_len(header, bytes, seen);
            Size::Bytes(len.bytes)
        }
        Verdict::Refused(n) => Size::Refused(n),
    }
}

// Nothing is to be written.
fn stay(seen: Seen, written: Written) -> Ready
    ensures { result ≡ record { written = written; run = run_off (seen_version seen) (seen_rule seen) } }
{
    let run = Run::off(seen.version(), seen.rule());
    Ready { written, run }
}

// So many bytes are to be written, the events from a place on.
fn go(seen: Seen, n: usize, at: usize) -> Ready
    ensures { result ≡ record { written = Bytes n; run = run_from (seen_version seen) (seen_rule seen) at } }
{
    let run = Run::from_place(seen.version(), seen.rule(), at);
    Ready {
        written: Written::Bytes(n),
        run,
    }
}

// What stands around the events, with room for them; the place where they start.
fn write_around(h: Header, bytes: &[u8], board: &[i8], seen: Seen, file: &mut [u8]) -> usize
    ensures { (result ≡ capped (length (front_seen h bytes.now board.now seen)))
        × (file.new ≡ around h bytes.now board.now seen file.old) }
{
    let version = seen.version();
    let len = seen.length();
    let at = evf_layout::write_front(file, version, h, bytes, board);
    let end = byte_writer::advance(at, len.bytes);
    evf_layout::write_tail(file, end, version, h, bytes);
    at
}

// Writes what stands around the events of a game whose row was seen, if there is room for all of it. Nothing
// is written where it is refused.
pub fn prepare(header: Header, bytes: &[u8], board: &[i8], seen: Seen, file: &mut [u8]) -> Ready
    ensures { (result ≡ ready_of header bytes.now board.now seen file.old)
        × (file.new ≡ around_of header bytes.now board.now seen
        file.old) }
{
    match first_refusal(header, bytes, board.len(), seen) {
        Verdict::Fine => {
            let len = whole_len(header, bytes, seen);
            let n = len.bytes;
            if len.fits(file.len()) {
                let at = write_around(header, bytes, board, seen, file);
                return go(seen, n, at);
            }
            stay(seen, Written::Short(n))
        }
        Verdict::Refused(n) => stay(seen, Written::Refused(n)),
    }
}

// How long the file of a game is in a version by a rule: its row is judged from its start.
fn size_in_version(
    version: u8,
    header: Header,
    bytes: &[u8],
    board: &[i8],
    row: &[Event],
    rule: u8,
) -> Size
    ensures { result ≡ size_of rule version (lent header bytes.now board.now row.now) }
{
    let from = before_row(version, rule);
    let seen = judge_row(row, from);
    size_of(header, bytes, board, seen)
}

// How long the version 3 file of a game is by a rule, or 14 to 22 or 26.
pub fn size_v3(header: Header, bytes: &[u8], board: &[i8], row: &[Event], rule: u8) -> Size
    ensures { result ≡ size_of rule 3 (lent header bytes.now board.now row.now) }
{
    size_in_version(3, header, bytes, board, row, rule)
}

// How long the version 4 file of a game is by a rule, or 14 to 22, 25 or 26.
pub fn size_v4(header: Header, bytes: &[u8], board: &[i8], row: &[Event], rule: u8) -> Size
    ensures { result ≡ size_of rule 4 (lent header bytes.now board.now row.now) }
{
    size_in_version(4, header, bytes, board, row, rule)
}

// Writes a game in a version by a rule: what stands around the events first, and the events between.
fn generate_version(
    version: u8,
    header: Header,
    bytes: &[u8],
    board: &[i8],
    row: &[Event],
    file: &mut [u8],
    rule: u8,
) -> Written
    ensures { Generates version (lent header bytes.now board.now row.now)
        file.old rule result file.new }
{
    let from = before_row(version, rule);
    let seen = judge_row(row, from);
    let ready = prepare(header, bytes, board, seen, file);
    put_row(row, file, ready.run);
    ready.written
}

// Writes a game as version 3 by a rule into the first bytes of a lent file: its length, or 14 to 23 or 26.
// Refused, it changes nothing.
pub fn generate_evf_v3_raw_data(
    header: Header,
    bytes: &[u8],
    board: &[i8],
    row: &[Event],
    file: &mut [u8],
    rule: u8,
) -> Written
    ensures { Generates 3 (lent header bytes.now board.now row.now)
        file.old rule result file.new }
{
    generate_version(3, header, bytes, board, row, file, rule)
}

// Writes a game as version 4 by a rule into the first bytes of a lent file: its length, or 14 to 23, 25 or
// 26. Refused, it changes nothing.
pub fn generate_evf_v4_raw_data(
    header: Header,
    bytes: &[u8],
    board: &[i8],
    row: &[Event],
    file: &mut [u8],
    rule: u8,
) -> Written
    ensures { Generates 4 (lent header bytes.now board.now row.now)
        file.old rule result file.new }
{
    generate_version(4, header, bytes, board, row, file, rule)
}
