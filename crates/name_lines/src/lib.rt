// Names of files: one by one out of an input that comes in blocks, their last part, the same part in another
// folder, and as they are shown. What does not fit a buffer is dropped, as everywhere in `byte_writer`.
#![tactic(auto)]

ghost use Rattle.std.specs.Prelude.{◌≡◌, ◌≤◌, length};
ghost use Rattle.std.proofs.lemmas.List.Edits.{sets};
ghost use Rattle.byte_writer.specs.Places.{Writes};
ghost use Rattle.name_lines.specs.Steps.{first_line, gather_more, TakesLine};
ghost use Rattle.name_lines.specs.Paths.{LastPartAt, ends_in_slash, path_of};
ghost use Rattle.name_lines.specs.Shown.{shown_byte, shown_name, shown_start};

use byte_writer::{advance, put_bytes, write_bytes, write_u8};
use text::Place;

// What is gathered of a line that is not ended: so many bytes in a lent buffer, and whether there were more
// than it has room for.
#[derive(Clone, Copy)]
pub struct Gathered {
    pub len: usize,
    pub long: bool,
}

// The most bytes that a name of a file may have: the length of the buffer to lend.
pub const LONGEST: usize = 4095;

// What is gathered where a line begins.
pub const NOTHING: Gathered = Gathered {
    len: 0,
    long: false,
};

// What is gathered after a call, whether the line ended, and where in the block to go on.
#[derive(Clone, Copy)]
pub struct Taken {
    pub gathered: Gathered,
    pub ended: bool,
    pub at: usize,
}

// How many bytes stand before the first newline; all where there is none.
fn line_len(rest: &[u8]) -> usize
    ensures { (result ≡ length (first_line rest.now)) × (result ≤ length rest.now) }
{
    for (i, b) in rest.iter().enumerate() {
        if *b == b'\n' {
            return i;
        }
    }
    rest.len()
}

// So many bytes more, in a buffer with that room.
#[tactic(auto, unfolding(crate::specs::Steps::gather_more))]
fn gather_more(room: usize, from: Gathered, n: usize) -> Gathered
    ensures { result ≡ gather_more room from n }
{
    match from.len.checked_add(n) {
        Some(len) if len <= room => Gathered {
            len,
            long: from.long,
        },
        _ => Gathered {
            len: room,
            long: true,
        },
    }
}

// Puts the bytes of `block` from `at` up to the next newline behind those that are gathered in `name`. Where
// the line ended, its name is the gathered bytes, none where the line is empty, and the next call starts with
// NOTHING at the answered place; else the next call has the next block, from 0, and what is gathered.
pub fn take_line(block: &[u8], at: usize, name: &mut [u8], from: Gathered) -> Taken
    ensures { TakesLine block.now at name.old from name.new result }
{
    let rest = &block[at.min(block.len())..];
    let n = line_len(rest);
    put_bytes(name, from.len, &rest[..n]);
    let gathered = gather_more(name.len(), from, n);
    if n < rest.len() {
        return Taken {
            gathered,
            ended: true,
            at: at + n + 1,
        };
    }
    Taken {
        gathered,
        ended: false,
        at: at + n,
    }
}

// Where the last part of a name begins: behind its last slash, at 0 where there is none.
pub fn last_part(name: &[u8]) -> usize
    ensures { LastPartAt name.now result }
{
    for i in (0..name.len()).rev() {
        if name[i] == b'/' {
            return i + 1;
        }
    }
    0
}

// Whether the last byte is a slash.
#[tactic(auto, using(crate::proofs::Parts::slash_end))]
fn ends_in_slash(dir: &[u8]) -> bool
    ensures { result ≡ ends_in_slash dir.now }
{
    dir.ends_with(b"/")
}

// The name of `part` in the folder `dir`, with a slash between unless `dir` ends in one.
pub fn write_path(out: &mut [u8], at: usize, dir: &[u8], part: &[u8]) -> usize
    ensures { Writes out.old out.new at
        (path_of dir.now part.now) result }
{
    let end = write_bytes(out, at, dir);
    if ends_in_slash(dir) {
        return write_bytes(out, end, part);
    }
    let behind = write_u8(out, end, b'/');
    write_bytes(out, behind, part)
}

// A byte as it is shown: those below 32, and 127, as `?`.
fn shown_byte(b: u8) -> u8
    ensures { result ≡ shown_byte b }
{
    if b < 32 || b == 127 { b'?' } else { b }
}

// The bytes of a name as they are shown.
fn put_shown(out: &mut [u8], at: usize, name: &[u8])
    ensures { out.new ≡ sets out.old at (shown_name name.now) }
{
    for (i, b) in name.iter().enumerate() {
        lists::put_byte(out, at, i, shown_byte(*b));
    }
}

// A name as it is shown.
pub fn write_shown(out: &mut [u8], at: usize, name: &[u8]) -> usize
    ensures { Writes out.old out.new at (shown_name name.now) result }
{
    put_shown(out, at, name);
    advance(at, name.len())
}

// The first 64 bytes of a name as they are shown, and `...`: for a name that is too long.
pub fn write_shown_start(out: &mut [u8], at: usize, name: &[u8]) -> usize
    ensures { Writes out.old out.new at (shown_start name.now) result }
{
    let end = write_shown(out, at, text::part(name, Place { start: 0, len: 64 }));
    write_bytes(out, end, b"...")
}
