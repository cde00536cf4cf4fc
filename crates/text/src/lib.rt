// Texts of a file: where they stand and where they end, UTF-8, and decimal numbers in and out.
#![tactic(auto)]

ghost use Rattle.std.specs.Prelude.{◌≡◌, ◌+◌, ◌%◌, ◌<◌, length};
ghost use Rattle.std.proofs.lemmas.List.Edits.{sets};
ghost use Rattle.text.specs.Places.{bytes_at};
ghost use Rattle.text.specs.Ends.{text_end};
ghost use Rattle.text.specs.Decimals.{in_digits, decimal_of, decimal_bytes};

mod class_table; // the classes of bytes
mod utf8; // the check of UTF-8

pub use utf8::is_utf8;

// Where a text stands: its first byte and how many there are.
#[derive(Clone, Copy)]
pub struct Place {
    pub start: usize,
    pub len: usize,
}

// The place of a text that is absent.
pub const ABSENT: Place = Place { start: 0, len: 0 };

// The bytes at a place; what lies past the end is left out.
pub fn part(file: &[u8], p: Place) -> &[u8]
    ensures { result.now ≡ bytes_at file.now p }
{
    let start = p.start;
    let len = p.len;
    if file.len() < start {
        return &file[0..0];
    }
    let rest = &file[start..];
    if rest.len() < len {
        return rest;
    }
    &rest[0..len]
}

// The place of the first 00 of `s` at or after `at`. An `at` past the end finds none.
pub fn text_end(s: &[u8], at: usize) -> Option<usize>
    ensures { result ≡ text_end s.now at }
{
    for i in at..s.len() {
        if s[i] == 0 {
            return Some(i);
        }
    }
    None
}

// The number that digits spell, one at least: none where there is another byte, or 2^64 or more.
fn digits(s: &[u8]) -> Option<u64>
    requires { 0 < length s.now }
    ensures { result ≡ in_digits s.now }
{
    let mut v: u64 = 0;
    for &d in s {
        if d < b'0' || b'9' < d {
            return None;
        }
        v = v.checked_mul(10)?.checked_add(u64::from(d - b'0'))?;
    }
    Some(v)
}

// What follows the sign of a decimal text, or all of it where there is none.
fn unsigned(s: &[u8]) -> &[u8]
    ensures { in_digits result.now ≡ decimal_of s.now }
{
    match s.strip_prefix(b"+") {
        Some(rest) => rest,
        None => s,
    }
}

// The u64 that a decimal text spells: an optional +, then one or more digits, zeros in front allowed.
pub fn decimal(s: &[u8]) -> Option<u64>
    ensures { result ≡ decimal_of s.now }
{
    let rest = unsigned(s);
    if rest.is_empty() {
        return None;
    }
    digits(rest)
}

// How many digits `n` has in decimal, 1 to 20.
pub fn decimal_len(n: u64) -> usize
    ensures { result ≡ length (decimal_bytes n) }
{
    let mut len = 1;
    let mut rest = n;
    while 10 <= rest {
        rest /= 10;
        len += 1;
    }
    len
}

// The last digit of `n`.
fn digit(n: u64) -> u8
    ensures { result ≡ 48 + n % 10 }
{
    b'0' + (n % 10) as u8
}

// Writes `n` in decimal from `at` on, with no sign and no zeros in front; digits past the end are left out.
pub fn put_decimal(out: &mut [u8], at: usize, n: u64)
    ensures { out.new ≡ sets out.old at (decimal_bytes n) }
{
    let mut rest = n;
    for i in (0..decimal_len(n)).rev() {
        lists::put_byte(out, at, i, digit(rest));
        rest /= 10;
    }
}
