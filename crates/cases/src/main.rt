// Runs the cases of standard input and prints the answer of each in full: lists of cases, one behind the
// other. tools/join_cases.py puts the lists together; the tools that make them say how a case of each sort is
// laid out.
//
// Input is any number of blocks of 262144 bytes, of which the last may be shorter. In a block cases stand one
// behind the other, each behind its tag; a byte that is no tag ends the block. Cases are counted from 0; the
// end of a list prints how many it had, and they are counted anew.
#![tactic(auto)]

ghost use Rattle.std.specs.Prelude.{◌≤◌, IfOk, length};

use byte_reader::ByteReader;
use printing::{Printer, say, say_field};
use std::io;
use std::io::{BufWriter, Read, Write};
use times::HALVES_AWAY;

// What stands behind a tag.
#[derive(Clone, Copy, PartialEq, Eq)]
enum Tag {
    Reading, // a file read
    Writing, // a game written
    Upgrading, // a file upgraded
    Milliseconds, // every number of a range, to seconds and back
    Leaf, // a leaf function
    ListEnd, // no case: a list ends here
    Recount, // a board recounted
    Resave, // a file re-saved
    Strings, // how many strings of a length are UTF-8
    Ruled, // a case by a rule: the rule, and the tag and the rest of a case that takes one
    Play, // a game played
    Small, // every row of three clicks on a small board
    Badge, // a game judged for its badge
}

// The bytes of a block.
const BLOCK: usize = 262144;

// No input is so long; the loop ends for sure.
const MOST_BLOCKS: u64 = 1_000_000_000;

// The tag of a byte.
fn tag_of(b: u8) -> Option<Tag> {
    match b {
        1 => Some(Tag::Reading),
        2 => Some(Tag::Writing),
        3 => Some(Tag::Upgrading),
        4 => Some(Tag::Milliseconds),
        5 => Some(Tag::Leaf),
        6 => Some(Tag::ListEnd),
        7 => Some(Tag::Recount),
        8 => Some(Tag::Resave),
        9 => Some(Tag::Strings),
        10 => Some(Tag::Ruled),
        11 => Some(Tag::Play),
        12 => Some(Tag::Small),
        13 => Some(Tag::Badge),
        _ => None,
    }
}

// Prints how many cases a list had.
fn show_count(printer: &mut Printer<impl Write>, cases: u64) {
    say(printer, b"cases");
    say_field(printer, cases);
    say(printer, b"\n");
}

// Prints the count at the end of a list; the cursor stays.
fn end_list(printer: &mut Printer<impl Write>, from: ByteReader, cases: u64) -> ByteReader {
    show_count(printer, cases);
    from
}

// Runs the case of a tag by a rule, and answers the cursor behind it; nothing where the tag takes no rule.
fn run_by(
    printer: &mut Printer<impl Write>,
    tag: Tag,
    rule: u8,
    input: &[u8],
    from: ByteReader,
    number: u64,
) -> ByteReader {
    match tag {
        Tag::Writing => writing_cases::run_case(printer, input, from, number, rule),
        Tag::Upgrading => upgrading_cases::run_case(printer, input, from, number, rule),
        Tag::Leaf => leaf_cases::run_case(printer, input, from, rule),
        Tag::Resave => upgrading_cases::run_resave(printer, input, from, number, rule),
        _ => from,
    }
}

// Runs a case by the rule that stands before it.
fn run_ruled(
    printer: &mut Printer<impl Write>,
    input: &[u8],
    from: ByteReader,
    number: u64,
) -> ByteReader {
    let rule = from.get_u8(input);
    let c = rule.next;
    let tag = c.get_u8(input);
    let c = tag.next;
    match tag_of(tag.value) {
        Some(tag) => run_by(printer, tag, rule.value, input, c, number),
        None => c,
    }
}

// Runs the case of a tag, `number` in its list, and answers the cursor behind it. Halves go away from zero
// where no rule stands before the case.
fn run_case(
    printer: &mut Printer<impl Write>,
    tag: Tag,
    input: &[u8],
    from: ByteReader,
    number: u64,
) -> ByteReader {
    match tag {
        Tag::Reading => reading_cases::run_case(printer, input, from, number),
        Tag::Milliseconds => time_cases::run_case(printer, input, from),
        Tag::ListEnd => end_list(printer, from, number),
        Tag::Recount => recount_cases::run_case(printer, input, from, number),
        Tag::Strings => utf8_cases::run_case(printer, input, from),
        Tag::Ruled => run_ruled(printer, input, from, number),
        Tag::Play => play_cases::run_case(printer, input, from, number),
        Tag::Small => play_cases::small::run_case(printer, input, from, number),
        Tag::Badge => play_cases::run_badge(printer, input, from, number),
        _ => run_by(printer, tag, HALVES_AWAY, input, from, number),
    }
}

// The cases of a list after a tag. No list has 2^64 cases, so that nothing wraps.
fn count(tag: Tag, cases: u64) -> u64 {
    if tag == Tag::ListEnd {
        return 0;
    }
    cases.wrapping_add(1)
}

// Runs every case of a block and answers how many its last list has so far, `before` of them in earlier
// blocks. Each takes a byte or more, so that there are no more than bytes.
fn run_cases(printer: &mut Printer<impl Write>, input: &[u8], before: u64) -> u64 {
    let mut c = ByteReader::At(0);
    let mut cases = before;
    for _ in 0..input.len() {
        let read = c.get_u8(input);
        let Some(tag) = tag_of(read.value) else {
            break;
        };
        c = run_case(printer, tag, input, read.next, cases);
        cases = count(tag, cases);
    }
    cases
}

// Reads until the block is full or input ends, and answers how many bytes stand at its start.
fn read_block(reader: &mut impl Read, input: &mut [u8]) -> io::Result<usize>
    ensures { IfOk result (λ n. n ≤ length input.new) }
{
    let mut done: usize = 0;
    while done < input.len() {
        let n = reader.read(&mut input[done..])?;
        if n == 0 {
            break;
        }
        done += n;
    }
    Ok(done)
}

// Runs all input to its end and prints how many cases the last list had.
fn run(
    reader: &mut impl Read,
    printer: &mut Printer<impl Write>,
    input: &mut [u8],
) -> io::Result<()> {
    let mut cases = 0;
    for _ in 0..MOST_BLOCKS {
        let n = read_block(reader, input)?;
        if n == 0 {
            break;
        }
        cases = run_cases(printer, &input[..n], cases);
    }
    show_count(printer, cases);
    Ok(())
}

// Lends the array as a slice, whose length its type says.
fn run_lent(
    reader: &mut impl Read,
    printer: &mut Printer<impl Write>,
    input: &mut [u8; BLOCK],
) -> io::Result<()> {
    run(reader, printer, input)
}

// Makes the block and lends it, and does nothing else: a proof that sees so many zeros counts them.
fn run_all(reader: &mut impl Read, printer: &mut Printer<impl Write>) -> io::Result<()> {
    let mut input = [0u8; BLOCK];
    run_lent(reader, printer, &mut input)
}

// Runs standard input. What was printed before a failed read is written too.
fn main(rt: HostRuntime) -> io::Result<()> {
    let mut reader = rt.reader();
    let mut printer = Printer::new(BufWriter::new(rt.alloc(), io::writer(&rt))?);
    let read = run_all(&mut reader, &mut printer);
    printer.finish()?;
    read
}
