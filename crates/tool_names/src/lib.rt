// The words behind `evf`, and the names of files among them or on standard input.
#![tactic(auto)]

use name_lines::{Gathered, LONGEST, NOTHING, take_line};
use std::env::FillError;
use std::io::{Input, Read};
use std::rt::Env;
use system::names::error_of;

// The room for a word: a byte more than the longest name.
pub const ROOM: usize = LONGEST + 1;

// Word i, read into a buffer, where it is there and is not too long for a name.
pub fn word_at<'a>(rt: &impl Env, i: usize, room: &'a mut [u8; ROOM]) -> Option<&'a [u8]> {
    let n = rt.arg(i, room).ok()?;
    Some(&room[..n])
}

// Whether word i is this one.
pub fn is_word(rt: &impl Env, i: usize, what: &[u8]) -> bool {
    let mut room = [0u8; ROOM];
    word_at(rt, i, &mut room).is_some_and(|word| word == what)
}

// Whether word i begins with these bytes.
fn begins(rt: &impl Env, i: usize, what: &[u8]) -> bool {
    let mut room = [0u8; ROOM];
    word_at(rt, i, &mut room).is_some_and(|word| word.starts_with(what))
}

// Whether word i begins with --, as an option does.
pub fn is_option(rt: &impl Env, i: usize) -> bool {
    begins(rt, i, b"--")
}

// Whether there is a word i.
fn is_there(rt: &impl Env, i: usize) -> bool {
    let mut none = [0u8; 1];
    !matches!(rt.arg(i, &mut none), Err(FillError::NotPresent))
}

// Whether a word from `first` on begins with these bytes.
pub fn any_begins(rt: &impl Env, first: usize, what: &[u8]) -> bool {
    (first..usize::MAX)
        .take_while(|i| is_there(rt, *i))
        .any(|i| begins(rt, i, what))
}

// Whether word i asks for help.
pub fn asks_help(rt: &impl Env, i: usize) -> bool {
    is_word(rt, i, b"--help") || is_word(rt, i, b"-h")
}

// How many words there are from `first` on.
pub fn words_from(rt: &impl Env, first: usize) -> usize {
    (first..usize::MAX).take_while(|i| is_there(rt, *i)).count()
}

// Where names are taken from: the words of the command line from `word` on or, where there were none, the
// lines of standard input, of which the bytes from `at` to `end` stand in a block.
#[derive(Clone, Copy)]
pub struct Names {
    pub is_input: bool,
    pub is_over: bool,
    pub word: usize,
    pub at: usize,
    pub end: usize,
}

// The next name; the first bytes of one that is too long; or none.
#[derive(Clone, Copy)]
pub enum Next<'a> {
    Name(&'a [u8]),
    Long(&'a [u8]),
    Over,
}

// The names behind the words before `first`.
pub fn names_from(rt: &impl Env, first: usize) -> Names {
    Names {
        is_input: words_from(rt, first) == 0,
        is_over: false,
        word: first,
        at: 0,
        end: 0,
    }
}

// The next word of the command line.
fn next_word<'a>(rt: &impl Env, names: &mut Names, name: &'a mut [u8]) -> Next<'a> {
    let word = names.word;
    names.word = word.saturating_add(1);
    match rt.arg(word, name) {
        Ok(n) => Next::Name(&name[..n]),
        Err(FillError::TooLong) => Next::Long(name),
        Err(FillError::NotPresent) => Next::Over,
    }
}

// Reads the next block of standard input, where the bytes of the last are used up. At the input's end, and where
// it cannot be read, the names are over.
fn refill(rt: &impl Input, names: &mut Names, block: &mut [u8]) -> Result<(), i32> {
    if names.at < names.end {
        return Ok(());
    }
    names.at = 0;
    names.end = 0;
    names.is_over = true;
    let mut input = rt.reader();
    names.end = input.read(block).map_err(error_of)?;
    names.is_over = names.end == 0;
    Ok(())
}

// Gathers the next line of standard input that is not empty; the last one may have no newline.
fn gather_line(
    rt: &impl Input,
    names: &mut Names,
    block: &mut [u8],
    name: &mut [u8],
) -> Result<Gathered, i32> {
    let mut gathered = NOTHING;
    for _ in 0..u64::MAX {
        refill(rt, names, block)?;
        if names.is_over {
            break;
        }
        let bytes = &block[..names.end.min(block.len())];
        let taken = take_line(bytes, names.at, name, gathered);
        names.at = taken.at;
        gathered = taken.gathered;
        if taken.ended && gathered.len != 0 {
            break;
        }
    }
    Ok(gathered)
}

// The next line of standard input that is not empty.
fn next_line<'a>(
    rt: &impl Input,
    names: &mut Names,
    block: &mut [u8],
    name: &'a mut [u8],
) -> Result<Next<'a>, i32> {
    let gathered = gather_line(rt, names, block, name)?;
    if gathered.long {
        Ok(Next::Long(name))
    } else if gathered.len == 0 {
        Ok(Next::Over)
    } else {
        Ok(Next::Name(&name[..gathered.len.min(name.len())]))
    }
}

// The next name, read into `name`; or that standard input could not be read, and the system's error. Lines of
// standard input come in blocks, by way of `block`.
pub fn next_name<'a>(
    rt: &(impl Env + Input),
    names: &mut Names,
    block: &mut [u8],
    name: &'a mut [u8],
) -> Result<Next<'a>, i32> {
    if names.is_over {
        Ok(Next::Over)
    } else if names.is_input {
        next_line(rt, names, block, name)
    } else {
        Ok(next_word(rt, names, name))
    }
}
