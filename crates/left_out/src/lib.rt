// Tells what a copy of version 4 does not carry of a file.
#![tactic(auto)]

ghost use Rattle.std.specs.Prelude.{◌≡◌, ◌-◌, ◌≤◌, length};
ghost use Rattle.byte_reader.specs.Cursor.{Gives};
ghost use Rattle.byte_reader.specs.declared.ByteReader.TheVariants.{At};
ghost use Rattle.evf_events.specs.Events.{first_events, events_from};
ghost use Rattle.evf_events.specs.Start.{first_cursor};
ghost use Rattle.left_out.specs.LeftOut.{is_x, says_unknown, country_lost, words_in, understood, words_lost};
ghost use Rattle.left_out.specs.LeftOut.{there, moments_lost, moments_left, state_count, states_in};
ghost use Rattle.left_out.specs.LeftOut.{left_at, nothing, left_out_of};
ghost use Rattle.left_out.specs.Steps.{left_by};

use byte_reader::ByteReader;
use evf_events::{EventCursor, Step};
use evf_scan::{Scan, scan_events};
use evf_video::read_checksum;
use game::{COUNTRY, Country, Event, Header, text_of};
use header_fields::{read_flags, read_sizes};
use header_software::{begins_with, begins_yuan};
use header_v0_v3::{OldTexts, ReadOldTexts, read_old_texts};

// What is left out: the country, for which the copy has `XX`; start and end, for which it has 0; so many game
// states; so many bytes behind the end. And how many mouse events and custom metrics there are, which are all
// carried.
#[derive(Clone, Copy)]
pub struct LeftOut {
    pub country: bool,
    pub moments: bool,
    pub states: usize,
    pub behind: usize,
    pub events: usize,
    pub metrics: u16,
}

// Tells whether a text has bytes.
fn is_there(text: &[u8]) -> bool
    ensures { result ≡ there text.now }
{
    !text.is_empty()
}

// Tells whether a byte is `X` or `x`.
fn is_x(b: u8) -> bool
    ensures { result ≡ is_x b }
{
    b == b'X' || b == b'x'
}

// Tells whether a country says `XX`, in letters of either case.
#[tactic(auto, unfolding(crate::specs::LeftOut::says_unknown))]
fn says_unknown(text: &[u8]) -> bool
    ensures { result ≡ says_unknown text.now }
{
    text.len() == 2 && is_x(text[0]) && is_x(text[1])
}

// Tells whether the copy has `XX` for a country that is there and does not say so.
#[tactic(auto, unfolding(crate::specs::LeftOut::country_lost))]
fn country_lost(text: &[u8]) -> bool
    ensures { result ≡ country_lost text.now }
{
    is_there(text) && matches!(game::two_letters(text), Country(b'X', b'X')) && !says_unknown(text)
}

// Reads the texts of versions 0 to 3 again, for start and end, which no header keeps.
fn read_words(file: &[u8]) -> ReadOldTexts
    ensures { Gives words_in file.now (At 0) result.value result.next }
{
    let version = ByteReader::At(0).get_u8(file);
    let c = version.next;
    let flags = read_flags(file, version.value, c);
    let c = flags.next;
    let sizes = read_sizes(file, c);
    let c = sizes.next;
    let time = c.get_u24(file);
    let c = time.next;
    read_old_texts(file, c)
}

// Tells whether the start and end of a software are understood.
#[tactic(auto, unfolding(crate::specs::LeftOut::understood))]
fn is_understood(software: &[u8]) -> bool
    ensures { result ≡ understood software.now }
{
    begins_with(software, b"Viennasweeper") || begins_yuan(software)
}

// Tells whether start or end is there, and both read as 0.
#[tactic(auto, unfolding(crate::specs::LeftOut::words_lost))]
fn words_lost(file: &[u8], words: OldTexts) -> bool
    ensures { result ≡ words_lost file.now words }
{
    !is_understood(text::part(file, words.software))
        && (is_there(text::part(file, words.start)) || is_there(text::part(file, words.end)))
}

// The same of a file of version 0 to 3; false where its texts cannot be read.
fn moments_lost(file: &[u8]) -> bool
    ensures { result ≡ moments_lost file.now }
{
    let read = read_words(file);
    match read.next {
        ByteReader::At(_) => words_lost(file, read.value),
        ByteReader::Refused(_) => false,
    }
}

// The same of a file of any version: version 4 has both as numbers.
fn moments_left(file: &[u8], version: u8) -> bool
    ensures { result ≡ moments_left file.now version }
{
    version < 4 && moments_lost(file)
}

// Counts an event as 1 where it is a game state.
fn state_count(event: Event) -> usize
    ensures { result ≡ state_count event }
{
    match event {
        Event::Mouse { .. } => 0,
        Event::State { .. } => 1,
    }
}

// Counts the game states among so many events from a cursor on.
fn count_states(file: &[u8], from: EventCursor, events: usize) -> usize
    ensures { (result ≡ states_in (first_events events file.now from)) × (result ≤ events) }
{
    let mut c = from;
    let mut states = 0;
    for _ in 0..events {
        let Step::Got(event, next) = c.step(file) else {
            break;
        };
        states += state_count(event);
        c = next;
    }
    states
}

// Counts the bytes of a file from a place on.
fn bytes_behind(file: &[u8], to: usize) -> usize
    ensures { result ≡ length file.now - to }
{
    file.len().saturating_sub(to)
}

// Answers that nothing is left out.
fn none_left() -> LeftOut
    ensures { result ≡ nothing }
{
    LeftOut {
        country: false,
        moments: false,
        states: 0,
        behind: 0,
        events: 0,
        metrics: 0,
    }
}

// Tells what is left out of a file by its header, so many events from a cursor on, and the place behind all
// that is read.
fn left_at(file: &[u8], header: Header, from: EventCursor, events: usize, end: usize) -> LeftOut
    ensures { result ≡ left_at file.now header events
        (states_in (first_events events file.now from)) end }
{
    let states = count_states(file, from, events);
    LeftOut {
        country: country_lost(text_of(header, file, COUNTRY)),
        moments: moments_left(file, header.version),
        states,
        behind: bytes_behind(file, end),
        events: events - states,
        metrics: header.metrics_count,
    }
}

// Tells what is left out of a file whose header is read and whose first record stands at `at`.
fn left_by(file: &[u8], header: Header, at: usize) -> LeftOut
    ensures { result ≡ left_by file.now header
        (events_from file.now (first_cursor header.version at)) }
{
    let version = header.version;
    let from = EventCursor::at_first(version, at);
    match scan_events(from, file) {
        Scan::All {
            events,
            at: end,
            checksum,
        } => {
            match read_checksum(file, version, end, checksum).next {
                ByteReader::At(to) => left_at(file, header, from, events, to),
                ByteReader::Refused(_) => none_left(),
            }
        }
        Scan::Refused(_) => none_left(),
    }
}

// Tells what a copy of version 4 does not carry of a file: nothing where it is not read.
pub fn left_out(file: &[u8]) -> LeftOut
    ensures { result ≡ left_out_of file.now }
{
    let opening = evf_header::read_opening(file);
    match opening.next {
        ByteReader::At(at) => left_by(file, opening.header, at),
        ByteReader::Refused(_) => none_left(),
    }
}
