// What the programs of the gate read besides bytes as they are: long runs written as a unit and a count
// (`parts` of tools/evf.py), and floats by their bits.
#![tactic(auto)]

ghost use Rattle.std.specs.Prelude.{◌≡◌, ◌+◌, ◌*◌, ◌≤◌, length, leb};
ghost use Rattle.std.proofs.lemmas.List.Edits.{sets};
ghost use Rattle.std.specs.Float.{binary64};
ghost use Rattle.std.specs.Float.Ieee.{of_bits};
ghost use Rattle.io.specs.Counts.{IsPrefixLen};
ghost use Rattle.byte_reader.specs.Cursor.{Gives};
ghost use Rattle.framing.specs.Expanding.{repeated, expanded, Put};
ghost use Rattle.framing.specs.Frames.{frame, expanded_at};

use byte_reader::ByteReader;
use std::num::f64_from_bits_with_nan;
use text::Place;

// Where the three parts lie in the input, and how often the unit stands.
#[derive(Clone, Copy)]
pub struct Parts {
    pub first: Place,
    pub unit: Place,
    pub times: u32,
    pub last: Place,
}

// Parts, and the cursor behind them.
#[derive(Clone, Copy)]
pub struct ReadParts {
    pub value: Parts,
    pub next: ByteReader,
}

pub fn read_parts(input: &[u8], from: ByteReader) -> ReadParts
    ensures { Gives frame input.now from result.value result.next }
{
    let first = from.get_u32(input);
    let c = first.next;
    let unit = c.get_u8(input);
    let c = unit.next;
    let times = c.get_u32(input);
    let c = times.next;
    let last = c.get_u32(input);
    let c = last.next;
    let p = c.get_buffer(input, first.value as usize);
    let c = p.next;
    let u = c.get_buffer(input, unit.value as usize);
    let c = u.next;
    let q = c.get_buffer(input, last.value as usize);
    let first = p.value;
    let unit = u.value;
    let last = q.value;
    let c = q.next;
    ReadParts {
        value: Parts {
            first,
            unit,
            times: times.value,
            last,
        },
        next: c,
    }
}

// The unit, so often, from a place on, where there is room for it; the place behind.
#[tactic(auto, using(crate::proofs::Laws::copy_more))]
fn repeat(out: &mut [u8], from: usize, unit: &[u8], times: u32) -> usize
    requires { from + times * length unit.now ≤ length out.old }
    ensures out_after { out.new ≡ sets out.old from (repeated times unit.now) }
    ensures value { result ≡ from + times * length unit.now }
{
    let mut at = from;
    for _ in 0..times {
        byte_writer::put_bytes(out, at, unit);
        at += unit.len();
    }
    at
}

// Whether so many units have room.
fn units_fit(unit: usize, times: u32, room: usize) -> bool
    ensures { result ≡ leb (times * unit) room }
{
    if times == 0 {
        return true;
    }
    unit <= room / (times as usize)
}

// Whether a run of parts that are so long has room.
fn run_fits(first: usize, unit: usize, times: u32, last: usize, room: usize) -> bool
    ensures { result ≡ leb (first + (times * unit + last)) room }
{
    if room < first {
        return false;
    }
    let rest = room - first;
    if rest < last {
        return false;
    }
    units_fit(unit, times, rest - last)
}

// The first part, the unit so often, and the last part, at the start of a buffer; how many bytes they are.
// Nothing, where there is no room for all.
fn put(out: &mut [u8], first: &[u8], unit: &[u8], times: u32, last: &[u8]) -> usize
    ensures prefix_len { IsPrefixLen result out.new }
    ensures put { Put out.old (expanded first.now unit.now times last.now)
        out.new result }
{
    if !run_fits(first.len(), unit.len(), times, last.len(), out.len()) {
        return 0;
    }
    byte_writer::put_bytes(out, 0, first);
    let at = repeat(out, first.len(), unit, times);
    byte_writer::put_bytes(out, at, last);
    at + last.len()
}

pub fn put_parts(out: &mut [u8], input: &[u8], parts: Parts) -> usize
    ensures prefix_len { IsPrefixLen result out.new }
    ensures put { Put out.old (expanded_at input.now parts) out.new result }
{
    put(
        out,
        text::part(input, parts.first),
        text::part(input, parts.unit),
        parts.times,
        text::part(input, parts.last),
    )
}

// The float of a bit pattern; a NaN for those of a NaN.
pub fn float_of(bits: u64) -> f64
    ensures { result ≡ of_bits binary64 bits }
{
    f64_from_bits_with_nan(bits)
}
