// Runs a case of milliseconds: each number of a range goes to seconds and back by both rules, and those that
// do not come back are counted. It is proved that there are none; the case runs the compiled code. Beside it
// stands the conversion for the benchmark.
#![tactic(auto)]

ghost use Rattle.std.specs.Prelude.{◌≡◌, true, None};
ghost use Rattle.byte_reader.specs.Cursor.{Gives};
ghost use Rattle.times.specs.Times.{converted_by};
ghost use Rattle.time_cases.specs.Layout.{milliseconds_case};
ghost use Rattle.time_cases.specs.Told.{told_ms};

use byte_reader::ByteReader;
use printing::{Printer, say, say_field};
use std::io::Write;
use times::{Converted, GameMs, HALVES_AWAY, HALVES_TO_EVEN};

// How many numbers did not come back, and the first of them.
#[derive(Clone, Copy)]
struct Tally {
    missed: u64,
    first: Option<u32>,
}

// Whether a number comes back by both rules.
fn comes_back(n: u32) -> bool
    ensures { result ≡ true }
{
    let seconds = times::seconds_of(GameMs(n));
    let away = times::rounded_ms(seconds, HALVES_AWAY);
    let even = times::rounded_ms(seconds, HALVES_TO_EVEN);
    away.0 == n && even.0 == n
}

// What is known after one number more. A range has no more than 2^32 numbers, so that nothing wraps.
fn after(so_far: Tally, n: u32) -> Tally
    ensures { result ≡ so_far }
{
    if comes_back(n) {
        return so_far;
    }
    Tally {
        missed: so_far.missed.wrapping_add(1),
        first: so_far.first.or(Some(n)),
    }
}

// The numbers from the first to the last, both included.
fn count(first: u32, last: u32) -> Tally
    ensures { result ≡ record { missed = 0; first = None } }
{
    let mut found = Tally {
        missed: 0,
        first: None,
    };
    for n in first..=last {
        found = after(found, n);
    }
    found
}

fn show_tally(printer: &mut Printer<impl Write>, first: u32, last: u32) {
    let found = count(first, last);
    say(printer, b"ms");
    say_field(printer, first as u64);
    say_field(printer, last as u64);
    say_field(printer, found.missed);
    if let Some(n) = found.first {
        say_field(printer, n as u64);
    }
    say(printer, b"\n");
}

// Runs the case that lies in `input` from a cursor on, as `milliseconds_case` says, and answers the cursor
// behind it.
pub fn run_case(printer: &mut Printer<impl Write>, input: &[u8], from: ByteReader) -> ByteReader
    ensures { Gives milliseconds_case input.now from tt result }
{
    let first = from.get_u32(input);
    let c = first.next;
    let last = c.get_u32(input);
    show_tally(printer, first.value, last.value);
    last.next
}

// One number for what the conversion answers: milliseconds, or 2^32 and the refusal's.
fn told(answer: Converted) -> u64
    ensures { result ≡ told_ms answer }
{
    match answer {
        Converted::Ms(ms) => ms.0 as u64,
        Converted::Refused(n) => 0x1_0000_0000 + (n as u64),
    }
}

// Turns seconds into milliseconds by a rule, for the benchmark alone (oracle/): a host can take no enum.
#[unsafe(no_mangle)]
pub extern "C" fn evf_s_to_ms(seconds: f64, rule: u8) -> u64
    ensures { result ≡ told_ms (converted_by rule seconds) }
{
    told(times::s_to_ms(seconds, rule))
}
