// Which of the refusals 26, 14 to 22 and 25 is the first that holds: that there is no such rule, or that a
// version cannot hold a game.
#![tactic(auto)]

ghost use Rattle.std.specs.Prelude.{◌≡◌, ◌<◌};
ghost use Rattle.evf_records.specs.Steps.{seen_version, seen_rule, seen_start_bad, seen_event_bad};
ghost use Rattle.evf_judging.specs.Refusals.{ends_past, texts_past, any_past, pixels_bad, number_bad};
ghost use Rattle.evf_judging.specs.Refusals.{verdict_number, first_refusal, checks_by, late_checks};
ghost use Rattle.evf_judging.specs.Refusals.{under_rule};

use evf_records::Seen;
use game::limits::{LARGEST_PIXELS, LARGEST_U16, LARGEST_U24};
use game::refusals::{
    BOARD_SHORT, EVENT_UNWRITABLE, FIRST_EVENT_UNWRITABLE, LENGTH_UNWRITABLE, METRICS_UNWRITABLE,
    NUMBER_TOO_LARGE, PIXELS_TOO_LARGE, SIZE_UNWRITABLE, TEXT_OUTSIDE, TEXT_UNWRITABLE,
};
use game::{Header, cells_short, sizes_bad};
use judging_texts::{lengths_bad, metrics_bad, texts_bad};
use text::Place;
use times::{NO_SUCH_RULE, is_rule};

// Nothing is wrong, or the number of the first refusal that holds.
#[derive(Clone, Copy)]
pub enum Verdict {
    Fine,
    Refused(u8),
}

impl Verdict {
    // The number of the refusal, 0 where nothing is wrong.
    pub fn number(self) -> u8
        ensures { result ≡ verdict_number self }
    {
        match self {
            Verdict::Fine => 0,
            Verdict::Refused(n) => n,
        }
    }
}

// A place that ends past so many bytes.
fn ends_past(bytes: usize, p: Place) -> bool
    ensures { result ≡ ends_past bytes p }
{
    let start = p.start;
    if bytes < start {
        return true;
    }
    bytes - start < p.len
}

// One of the nine texts does.
fn texts_past(bytes: usize, h: Header) -> bool
    ensures { result ≡ texts_past bytes h }
{
    h.texts.iter().any(|p| ends_past(bytes, *p))
}

// 14: one of the nine texts does, or the block of the custom metrics.
fn any_past(bytes: usize, h: Header) -> bool
    ensures { result ≡ any_past bytes h }
{
    if texts_past(bytes, h) {
        return true;
    }
    let metrics = h.metrics;
    ends_past(bytes, metrics)
}

// 16: more pixels than version 4 takes.
fn pixels_bad(version: u8, h: Header) -> bool
    requires { (h.height < 256) × (h.width < 256) }
    ensures { result ≡ pixels_bad version h }
{
    if version != 4 {
        return false;
    }
    let pixels = h.cell_pixel_size as usize;
    if LARGEST_PIXELS < h.height * pixels {
        return true;
    }
    LARGEST_PIXELS < h.width * pixels
}

// 18: numbers that are too large for their fields.
fn number_bad(version: u8, h: Header) -> bool
    ensures { result ≡ number_bad version h }
{
    if LARGEST_U16 < h.mine_num {
        return true;
    }
    if LARGEST_U16 < h.bbbv {
        return true;
    }
    if version == 4 {
        return false;
    }
    let time = h.rtime_ms;
    LARGEST_U24 < time.0
}

// 19, 20, 25, 21 and 22.
fn late_refusal(h: Header, bytes: &[u8], seen: Seen) -> Verdict
    ensures { result ≡ first_refusal
        (late_checks (seen_version seen) h bytes.now (seen_start_bad seen) (seen_event_bad seen)) }
{
    let version = seen.version();
    if texts_bad(version, h, bytes) {
        return Verdict::Refused(TEXT_UNWRITABLE);
    }
    if lengths_bad(version, h, bytes) {
        return Verdict::Refused(LENGTH_UNWRITABLE);
    }
    if metrics_bad(version, h, bytes) {
        return Verdict::Refused(METRICS_UNWRITABLE);
    }
    if seen.start_bad() {
        return Verdict::Refused(FIRST_EVENT_UNWRITABLE);
    }
    if seen.event_bad() {
        return Verdict::Refused(EVENT_UNWRITABLE);
    }
    Verdict::Fine
}

// 14 to 22 and 25, for a board of so many cells and a row that was seen.
fn game_refusal(h: Header, bytes: &[u8], cells: usize, seen: Seen) -> Verdict
    ensures { result ≡ first_refusal
        (checks_by (seen_version seen) h bytes.now cells (seen_start_bad seen) (seen_event_bad seen)) }
{
    let version = seen.version();
    if any_past(bytes.len(), h) {
        return Verdict::Refused(TEXT_OUTSIDE);
    }
    if sizes_bad(h.height, h.width) {
        return Verdict::Refused(SIZE_UNWRITABLE);
    }
    if pixels_bad(version, h) {
        return Verdict::Refused(PIXELS_TOO_LARGE);
    }
    if cells_short(h.height, h.width, cells) {
        return Verdict::Refused(BOARD_SHORT);
    }
    if number_bad(version, h) {
        return Verdict::Refused(NUMBER_TOO_LARGE);
    }
    late_refusal(h, bytes, seen)
}

// 26, or else 14 to 22 and 25, for a board of so many cells and a row that was seen by a rule.
pub fn first_refusal(h: Header, bytes: &[u8], cells: usize, seen: Seen) -> Verdict
    ensures { result ≡ first_refusal (under_rule (seen_rule seen)
        (checks_by (seen_version seen) h bytes.now cells (seen_start_bad seen)
        (seen_event_bad seen))) }
{
    if is_rule(seen.rule()) {
        return game_refusal(h, bytes, cells, seen);
    }
    Verdict::Refused(NO_SUCH_RULE)
}
