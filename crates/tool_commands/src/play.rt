// `evf play [--after N] FILE`: a game played through.
use crate::rooms::{Job, with_room};
use byte_writer::advance;
use system::streams::System;
use tool_help::misused;
use tool_names::{ROOM, any_begins, asks_help, is_option, is_word, word_at, words_from};
use tool_play::{ALL, Wanted, after};

// The number that word i spells, or that it spells none.
fn number_at(rt: &impl System, i: usize) -> Option<u64> {
    let mut room = [0u8; ROOM];
    text::decimal(word_at(rt, i, &mut room)?)
}

// Plays FILE, the word `first`.
fn play_one(rt: &impl System, wanted: Wanted, first: usize) -> u8 {
    if any_begins(rt, first, b"--after") {
        return misused(
            rt,
            b"evf play --after: write --after N once, before FILE; for a file of that name write ./ before it\n",
        );
    }
    if is_option(rt, first) {
        return misused(
            rt,
            b"evf play: no such option; for a file of that name write ./ before it\n",
        );
    }
    if words_from(rt, first) != 1 {
        return misused(rt, b"evf play: one FILE is needed\n");
    }
    with_room(rt, Job::Play(wanted), first)
}

// Plays N events, which is the word `first`, of FILE, the next.
fn play_after(rt: &impl System, first: usize) -> u8 {
    match number_at(rt, first) {
        Some(n) => play_one(rt, after(n), advance(first, 1)),
        None => misused(rt, b"evf play --after: a number of events is needed\n"),
    }
}

// Runs `evf play` on the words from `first` on, and answers the status.
pub(crate) fn run(rt: &impl System, first: usize) -> u8 {
    if asks_help(rt, first) {
        return tool_help::play_help(rt);
    }
    if is_word(rt, first, b"--after") {
        return play_after(rt, advance(first, 1));
    }
    play_one(rt, ALL, first)
}
