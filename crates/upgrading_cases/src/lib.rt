// Runs a case of upgrading or of re-saving: a file is written as version 4 by a rule into a copy of a given
// length, and the answer is shown with the whole copy; of a re-save also what the copy reads as.
#![tactic(auto)]

ghost use Rattle.byte_reader.specs.Cursor.{Gives};
ghost use Rattle.upgrading_cases.specs.Layout.{copying_case};

use answers::{Answer, Copying};
use byte_reader::ByteReader;
use framing::Parts;
use printing::{Printer, say, say_field};
use std::io::Write;

// The longest file that a case can have, and the longest copy that it can ask for.
const MOST_BYTES: usize = 262144;

// Says that a copy was written.
fn say_written(printer: &mut Printer<impl Write>, how: Copying) {
    match how {
        Copying::Upgrade => say(printer, b" upgraded"),
        Copying::Resave => say(printer, b" resaved"),
    }
}

// Shows what writing the copy came to.
fn show_answer(printer: &mut Printer<impl Write>, how: Copying, answer: Answer) {
    match answer {
        Answer::Written(n) => {
            say_written(printer, how);
            say_field(printer, n as u64);
        }
        Answer::Refused(k) => {
            say(printer, b" refused");
            say_field(printer, k as u64);
        }
        Answer::Short(n) => {
            say(printer, b" short");
            say_field(printer, n as u64);
        }
    }
    say(printer, b"\n");
}

// Shows what a copy reads as, where it was written by a re-save.
fn show_back(printer: &mut Printer<impl Write>, how: Copying, answer: Answer, copy: &[u8]) {
    if let (Copying::Resave, Answer::Written(n)) = (how, answer)
        && let Some(written) = copy.get(..n)
    {
        reading_cases::show_whole(printer, written);
    }
}

// Upgrades or re-saves a file, and shows the answer, the whole copy, and what a re-saved one reads as.
fn show(
    printer: &mut Printer<impl Write>,
    number: u64,
    how: Copying,
    rule: u8,
    file: &[u8],
    copy: &mut [u8],
) {
    say(printer, b"case");
    say_field(printer, number);
    let answer = answers::copy_into(how, file, copy, rule);
    show_answer(printer, how, answer);
    say(printer, b"copy");
    printing::show_runs(printer, copy);
    say(printer, b"\n");
    show_back(printer, how, answer, copy);
}

// Puts the file of a case together and runs the case with the first `room` bytes of a copy, nothing where it
// has fewer.
fn show_parts(
    printer: &mut Printer<impl Write>,
    number: u64,
    how: Copying,
    rule: u8,
    input: &[u8],
    parts: Parts,
    room: u32,
    file: &mut [u8; MOST_BYTES],
    copy: &mut [u8; MOST_BYTES],
) {
    let n = framing::put_parts(file, input, parts);
    if let Some(copy) = copy.get_mut(..room as usize) {
        show(printer, number, how, rule, &file[..n], copy);
    }
}

// Makes the two buffers of a case, the copy all AA, and lends them, and does nothing else: a proof that sees
// so many bytes counts them.
fn show_case(
    printer: &mut Printer<impl Write>,
    number: u64,
    how: Copying,
    rule: u8,
    input: &[u8],
    parts: Parts,
    room: u32,
) {
    let mut file = [0u8; MOST_BYTES];
    let mut copy = [0xAAu8; MOST_BYTES];
    show_parts(
        printer, number, how, rule, input, parts, room, &mut file, &mut copy,
    );
}

// Runs the case that lies in `input` from a cursor on, as `copying_case` says, and answers the cursor behind
// it.
fn run(
    printer: &mut Printer<impl Write>,
    input: &[u8],
    from: ByteReader,
    number: u64,
    how: Copying,
    rule: u8,
) -> ByteReader
    ensures { Gives copying_case input.now from tt result }
{
    let room = from.get_u32(input);
    let c = room.next;
    let framed = framing::read_parts(input, c);
    let parts = framed.value;
    show_case(printer, number, how, rule, input, parts, room.value);
    framed.next
}

// Runs the case of upgrading that lies in `input` from a cursor on by a rule, and answers the cursor behind
// it. Its number among the cases of its list is shown with it.
pub fn run_case(
    printer: &mut Printer<impl Write>,
    input: &[u8],
    from: ByteReader,
    number: u64,
    rule: u8,
) -> ByteReader
    ensures { Gives copying_case input.now from tt result }
{
    run(printer, input, from, number, Copying::Upgrade, rule)
}

// Runs the case of re-saving that lies in `input` from a cursor on by a rule, and answers the cursor behind
// it. Its number among the cases of its list is shown with it.
pub fn run_resave(
    printer: &mut Printer<impl Write>,
    input: &[u8],
    from: ByteReader,
    number: u64,
    rule: u8,
) -> ByteReader
    ensures { Gives copying_case input.now from tt result }
{
    run(printer, input, from, number, Copying::Resave, rule)
}
