// Texts by their number: a list of bytes holds them one behind the other, each with a 00 behind it. One
// literal then has the words of every number; lending a literal for each would cost a proof of its own each.
#![tactic(auto)]

ghost use Rattle.std.specs.Prelude.{◌≤◌, length};
ghost use Rattle.byte_writer.specs.Places.{Writes};
ghost use Rattle.text_table.specs.Texts.{text_at};
ghost use Rattle.text_table.specs.Places.{NextAt, Behind, EndsAt};

use byte_writer::write_bytes;
use text::text_end;

// The place behind the text at a place and its 00.
fn next(list: &[u8], at: usize) -> usize
    ensures { NextAt list.now at result }
{
    match text_end(list, at) {
        Some(end) => end + 1,
        None => list.len(),
    }
}

// The place behind the first n texts.
#[tactic(auto, using(crate::proofs::Laws::behind_more))]
fn behind(list: &[u8], n: u8) -> usize
    ensures { Behind n list.now result }
{
    let mut at: usize = 0;
    for _ in 0..n {
        at = next(list, at);
    }
    at
}

// The place of the 00 behind the text at a place; the list's end where there is none.
#[tactic(auto, using(crate::proofs::Laws::end_or))]
fn end_of(list: &[u8], at: usize) -> usize
    requires { at ≤ length list.now }
    ensures { EndsAt list.now at result }
{
    text_end(list, at).unwrap_or(list.len())
}

// Writes text n of a list, counted from 0, and answers the place behind it; nothing where the list has no
// more than n.
#[tactic(auto, using(crate::proofs::Laws::text_at_lem))]
pub fn write_text(out: &mut [u8], at: usize, list: &[u8], n: u8) -> usize
    ensures { Writes out.old out.new at (text_at list.now n) result }
{
    let start = behind(list, n);
    let end = end_of(list, start);
    write_bytes(out, at, &list[start..end])
}
