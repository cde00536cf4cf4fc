// Runs a case of strings: counts how many strings of a length are UTF-8.
#![tactic(auto)]

ghost use Rattle.std.specs.Prelude.{◌≡◌, ◌^◌, ◌≤◌};
ghost use Rattle.text.specs.Utf8.{utf8};
ghost use Rattle.byte_reader.specs.Cursor.{Gives};
ghost use Rattle.utf8_cases.specs.Layout.{strings_case};
ghost use Rattle.utf8_cases.specs.Strings.{string, passing, shortened};

use byte_reader::ByteReader;
use printing::{Printer, say, say_field};
use std::io::Write;

// A length; 3 if it is larger.
fn length_of(n: u8) -> usize
    ensures { result ≡ shortened n }
{
    n.min(3) as usize
}

// How many strings have a length.
fn strings_of(n: usize) -> u32
    requires { n ≤ 3 }
    ensures { result ≡ 256 ^ n }
{
    256u32.pow(n as u32)
}

// Whether string k of n bytes passes.
fn passes(n: usize, k: u32) -> bool
    requires { n ≤ 3 }
    ensures { result ≡ utf8 (string n k) }
{
    let bytes = k.to_be_bytes();
    text::is_utf8(&bytes[4 - n..])
}

// How many strings of n bytes pass.
fn count(n: usize) -> u64
    requires { n ≤ 3 }
    ensures { result ≡ passing n (256 ^ n) }
{
    let mut found: u64 = 0;
    for k in 0..strings_of(n) {
        if passes(n, k) {
            found += 1;
        }
    }
    found
}

// Shows how many strings of n bytes pass.
fn show_strings(printer: &mut Printer<impl Write>, n: usize)
    requires { n ≤ 3 }
{
    say(printer, b"strings");
    say_field(printer, n as u64);
    say_field(printer, count(n));
    say(printer, b"\n");
}

// Runs the case that lies in `input` from a cursor on, as `strings_case` says, and answers the cursor behind
// it.
pub fn run_case(printer: &mut Printer<impl Write>, input: &[u8], from: ByteReader) -> ByteReader
    ensures { Gives strings_case input.now from tt result }
{
    let len = from.get_u8(input);
    show_strings(printer, length_of(len.value));
    len.next
}
