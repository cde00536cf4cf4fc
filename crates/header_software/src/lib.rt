// When a game of versions 0 to 3 started and ended, which its software's name decides.
#![tactic(auto)]

ghost use Rattle.std.specs.Prelude.{◌≡◌};
ghost use Rattle.text.specs.Decimals.{decimal_of};
ghost use Rattle.header_software.specs.Software.{begins_with, yuan_name, vienna, yuan, times_of};

use game::refusals::{ARBITER, TIME_NOT_DECIMAL, TIME_TOO_LARGE};
use header_fields::Span;
use times::{CalendarUs, GameMs};

// A span, or the number of the refusal.
#[derive(Clone, Copy)]
pub enum Times {
    Known(Span),
    Refused(u8),
}

// Whether `s` begins with the bytes of `what`; a shorter `s` does not.
#[tactic(auto, using(crate::proofs::Begins::starts_begins))]
pub fn begins_with(s: &[u8], what: &[u8]) -> bool
    ensures { result ≡ begins_with what.now s.now }
{
    s.starts_with(what)
}

// When a game of Viennasweeper started and ended, by its start text, whole seconds, and its time: 5 where the
// text is not a number, 6 where either passes the largest u64. The end text counts for nothing.
#[tactic(auto, unfolding(crate::specs::Software::vienna))]
pub fn vienna_times(start: &[u8], time: GameMs) -> Times
    ensures { result ≡ vienna (decimal_of start.now) time }
{
    let Some(n) = text::decimal(start) else {
        return Times::Refused(TIME_NOT_DECIMAL);
    };
    let Some(from) = n.checked_mul(1000000) else {
        return Times::Refused(TIME_TOO_LARGE);
    };
    let played = times::calendar_of(time);
    let Some(to) = from.checked_add(played.0) else {
        return Times::Refused(TIME_TOO_LARGE);
    };
    Times::Known(Span {
        start: CalendarUs(from),
        end: CalendarUs(to),
    })
}

// When a game of 元 started and ended, by its two texts, microseconds: 5 where either is not a number.
#[tactic(auto, unfolding(crate::specs::Software::yuan))]
pub fn yuan_times(start: &[u8], end: &[u8]) -> Times
    ensures { result ≡ yuan (decimal_of start.now) (decimal_of end.now) }
{
    let Some(a) = text::decimal(start) else {
        return Times::Refused(TIME_NOT_DECIMAL);
    };
    let Some(b) = text::decimal(end) else {
        return Times::Refused(TIME_NOT_DECIMAL);
    };
    Times::Known(Span {
        start: CalendarUs(a),
        end: CalendarUs(b),
    })
}

// Whether the software's name begins with 元.
pub fn begins_yuan(software: &[u8]) -> bool
    ensures { result ≡ begins_with yuan_name software.now }
{
    begins_with(software, "元".as_bytes())
}

// The times by the software's name, from the start and end texts and the game's time.
#[tactic(auto, unfolding(crate::specs::Software::times_of))]
pub fn times_of(software: &[u8], start: &[u8], end: &[u8], time: GameMs) -> Times
    ensures { result ≡ times_of software.now start.now end.now time }
{
    if begins_with(software, b"Arbiter") {
        return Times::Refused(ARBITER);
    }
    if begins_with(software, b"Viennasweeper") {
        return vienna_times(start, time);
    }
    if begins_yuan(software) {
        return yuan_times(start, end);
    }
    Times::Known(Span {
        start: CalendarUs(0),
        end: CalendarUs(0),
    })
}
