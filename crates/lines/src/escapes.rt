// Texts of a file for a person: characters as they are, and every byte that is none, or that a terminal would
// obey, as an escape.
ghost use Rattle.std.specs.Prelude.{◌≡◌, ◌<◌, get_or, take};
ghost use Rattle.text.specs.Utf8.{utf8};
ghost use Rattle.byte_writer.specs.Places.{Writes};
ghost use Rattle.lines.specs.Escapes.{char_length, control, plain_length, hex_digit, escape, shown_byte};
ghost use Rattle.lines.specs.Escapes.{plain_from, escaped_text, shown_text};

use crate::write_number;
use byte_writer::{write_bytes, write_u8};
use text::{Place, part};

// The most bytes of a text that are shown.
const MOST_SHOWN: usize = 200;

// Byte i; 0 past the end.
fn byte_at(text: &[u8], i: usize) -> u8
    ensures { result ≡ get_or text.now i 0 }
{
    text.get(i).copied().unwrap_or(0)
}

// Whether the first n bytes of a text are UTF-8; there may be fewer.
fn is_part_utf8(rest: &[u8], n: usize) -> bool
    ensures { result ≡ utf8 (take n rest.now) }
{
    text::is_utf8(part(rest, Place { start: 0, len: n }))
}

// How many bytes the first character has; 0 where none begins there.
fn char_len(rest: &[u8]) -> usize
    ensures { result ≡ char_length rest.now }
{
    for n in 1..=4 {
        if is_part_utf8(rest, n) {
            return n;
        }
    }
    0
}

// Whether a text begins with a control character.
#[tactic(auto, unfolding(crate::specs::Escapes::control))]
fn is_control(rest: &[u8]) -> bool
    ensures { result ≡ control rest.now }
{
    let b = byte_at(rest, 0);
    b < 32 || b == 127 || (b == 0xC2 && byte_at(rest, 1) < 0xA0)
}

// How many bytes from the first on are shown as they are; 0 where the first is escaped.
#[tactic(auto, unfolding(crate::specs::Escapes::plain_length))]
fn plain_len(rest: &[u8]) -> usize
    ensures { result ≡ plain_length rest.now }
{
    if is_control(rest) || byte_at(rest, 0) == b'\\' {
        return 0;
    }
    char_len(rest)
}

// How many bytes from the first on are shown as they are, where so many of a character are still to come.
fn plain_from(rest: &[u8], left: usize) -> usize
    ensures { result ≡ plain_from left rest.now }
{
    if left == 0 {
        return plain_len(rest);
    }
    left
}

// A hexadecimal digit.
fn hex_digit(n: u8) -> u8
    requires { n < 16 }
    ensures { result ≡ hex_digit n }
{
    if n < 10 {
        return b'0' + n;
    }
    87 + n
}

// The escape of a byte.
fn write_escape(out: &mut [u8], at: usize, b: u8) -> usize
    ensures { Writes out.old out.new at (escape b) result }
{
    if b == b'\\' {
        return write_bytes(out, at, b"\\\\");
    }
    let end = write_bytes(out, at, b"\\x");
    let end = write_u8(out, end, hex_digit(b / 16));
    write_u8(out, end, hex_digit(b % 16))
}

// A byte as it is, or its escape where no bytes are shown as they are.
fn write_byte(out: &mut [u8], at: usize, plain: usize, b: u8) -> usize
    ensures { Writes out.old out.new at (shown_byte plain b) result }
{
    if plain == 0 {
        return write_escape(out, at, b);
    }
    write_u8(out, at, b)
}

// A text with its escapes.
pub fn write_escaped(out: &mut [u8], at: usize, text: &[u8]) -> usize
    ensures { Writes out.old out.new at (escaped_text text.now) result }
{
    let mut to = at;
    let mut left: usize = 0;
    for (i, b) in text.iter().enumerate() {
        let plain = plain_from(&text[i..], left);
        to = write_byte(out, to, plain, *b);
        left = plain.saturating_sub(1);
    }
    to
}

// A text's first bytes with their escapes, and how many bytes it has where that is more.
pub fn write_shown_text(out: &mut [u8], at: usize, text: &[u8]) -> usize
    ensures { Writes out.old out.new at (shown_text text.now) result }
{
    if text.len() <= MOST_SHOWN {
        return write_escaped(out, at, text);
    }
    let start = &text[..MOST_SHOWN];
    let end = write_escaped(out, at, start);
    let end = write_bytes(out, end, b" ... ");
    let end = write_number(out, end, text.len() as u64);
    write_bytes(out, end, b" bytes in all")
}
