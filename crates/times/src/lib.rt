// The two clocks of a replay: milliseconds since the game began, microseconds of the calendar; and an event's
// seconds, a binary64, with the two rules by which they become milliseconds.
#![tactic(auto)]

ghost use Rattle.std.specs.Prelude.{◌≡◌, ◌+◌, ◌^◌, min};
ghost use Rattle.times.specs.Times.{calendar_of, seconds_of, whole_by, is_rule, rounding_of, s_to_ms};
ghost use Rattle.times.specs.Times.{converted_by, converted_number, largest_ms};
ghost use Rattle.times.specs.Splits.{Splits, half_step};

// Game milliseconds.
#[derive(Clone, Copy)]
pub struct GameMs(pub u32);

// Calendar microseconds.
#[derive(Clone, Copy)]
pub struct CalendarUs(pub u64);

// Milliseconds, or the number of the refusal, 26.
#[derive(Clone, Copy)]
pub enum Converted {
    Ms(GameMs),
    Refused(u8),
}

impl Converted {
    // The number of the refusal, 0 where there is none.
    pub fn number(self) -> u8
        ensures { result ≡ converted_number self }
    {
        match self {
            Converted::Ms(_) => 0,
            Converted::Refused(n) => n,
        }
    }
}

// The rules by which seconds become milliseconds: halves go away from zero, or to even.
pub const HALVES_AWAY: u8 = 1;

pub const HALVES_TO_EVEN: u8 = 2;

// The refusal of a number that is no rule.
pub const NO_SUCH_RULE: u8 = 26;

// Game milliseconds in calendar microseconds: the one place where the two meet.
pub fn calendar_of(ms: GameMs) -> CalendarUs
    ensures { result ≡ calendar_of ms }
{
    let n = ms.0;
    CalendarUs((n as u64) * 1000)
}

// Game milliseconds in seconds: one division, so one rounding.
pub fn seconds_of(ms: GameMs) -> f64
    ensures { result ≡ seconds_of ms.0 }
{
    let n = ms.0;
    (n as f64) / 1000.0
}

// The largest u32, at which milliseconds stop.
const LARGEST_MS: u32 = 4294967295;

// The bits of a binary64 are its sign, an exponent of 11 bits and 52 digits. A float from 2^e on and below
// 2^(e + 1) has the exponent e + 1023, and its value is (2^52 + its digits) * 2^(e - 52).
const SIGN: u64 = 0x8000_0000_0000_0000;

const LEADING_DIGIT: u64 = 0x10_0000_0000_0000;

const EXPONENTS: u64 = 2048;

// The exponent of a half.
const OF_HALF: u64 = 1022;

// The exponent of 2^32.
const OF_2_TO_32: u64 = 1055;

// The exponent of 2^52, from which on digits are whole numbers.
const OF_2_TO_52: u64 = 1075;

// n + d, and the largest u32 where that is more.
fn capped_sum(n: u32, d: u32) -> u32
    ensures { result ≡ min (n + d) largest_ms }
{
    if d <= LARGEST_MS - n {
        return n + d;
    }
    LARGEST_MS
}

// How far a half behind a whole number goes by a rule: to the next one, or to even.
fn half_step(whole: u32, rule: u8) -> u32
    ensures { result ≡ half_step rule whole }
{
    if rule == HALVES_TO_EVEN {
        return whole % 2;
    }
    1
}

// m / 2^k to the nearest whole number by a rule, and the largest u32 where that is more.
fn nearest(m: u64, k: u64, rule: u8) -> u32
    requires { Splits m k }
    ensures { result ≡ min (rounding_of rule m (2 ^ k)) largest_ms }
{
    let unit: u64 = 1 << k;
    let whole = (m >> k) as u32;
    let twice = m % unit * 2;
    if twice < unit {
        return whole;
    }
    if twice == unit {
        return capped_sum(whole, half_step(whole, rule));
    }
    capped_sum(whole, 1)
}

// A float to the nearest whole number by a rule, from its bits. NaN and negatives are as 0, 2^32 and more as
// the largest u32.
fn whole_by(p: f64, rule: u8) -> u32
    ensures { result ≡ whole_by (rounding_of rule) p }
{
    if p != p {
        return 0;
    }
    let b: u64 = f64::to_bits(p);
    if b >= SIGN {
        return 0;
    }
    let exponent = (b >> 52) % EXPONENTS;
    if exponent >= OF_2_TO_32 {
        return LARGEST_MS;
    }
    if exponent < OF_HALF {
        return 0;
    }
    // p is m / 2^k
    nearest(
        LEADING_DIGIT + b % LEADING_DIGIT,
        OF_2_TO_52 - exponent,
        rule,
    )
}

// Seconds in milliseconds by a rule: by 1 as Rust's `(s * 1000.0).round() as u32`, by 2 as its
// `(s * 1000.0).round_ties_even() as u32`. NaN and negatives give 0, the top the largest u32. For callers who
// refuse a number that is no rule; it rounds as 1.
pub fn rounded_ms(s: f64, rule: u8) -> GameMs
    ensures { result ≡ record { 0 = s_to_ms rule s } }
{
    GameMs(whole_by(s * 1000.0, rule))
}

// Whether a number is a rule.
pub fn is_rule(rule: u8) -> bool
    ensures { result ≡ is_rule rule }
{
    if rule == HALVES_AWAY {
        return true;
    }
    rule == HALVES_TO_EVEN
}

// Seconds in milliseconds by a rule, or 26.
pub fn s_to_ms(s: f64, rule: u8) -> Converted
    ensures { result ≡ converted_by rule s }
{
    if is_rule(rule) {
        return Converted::Ms(rounded_ms(s, rule));
    }
    Converted::Refused(NO_SUCH_RULE)
}
