// The tool `evf` many times, so that four commands have a stored run: `evf recount` over the names of
// standard input; then what the words ask, `evf resave --to out --rule 2` and names; then `evf play` with
// words from the sixth on, which are the first of those names; then `evf badge` with all of them.
#![tactic(auto)]

use badge_rules::{Rule, Wish};
use system::streams::System;
use tool_commands::{badge_words, play_word};
use tool_play::{ALL, after};

// Plays files whole.
fn play_whole(rt: &impl System) {
    for word in 6..18 {
        play_word(rt, ALL, word);
    }
}

// Numbers of events, each with the word of a file.
const PLAYED: [(u64, usize); 18] = [
    (0, 6),
    (5, 6),
    (100, 6),
    (105, 6),
    (106, 6),
    (u64::MAX, 6),
    (1, 7),
    (2, 7),
    (300, 8),
    (5, 9),
    (9, 9),
    (16, 9),
    (2, 12),
    (3, 12),
    (0, 14),
    (0, 15),
    (1, 16),
    (1, 17),
];

// Shows boards after some events.
fn play_after(rt: &impl System) {
    for (events, word) in PLAYED {
        play_word(rt, after(events), word);
    }
}

// The first and the last of the names.
const FIRST: usize = 6;

const LAST: usize = 64;

// Judges the badges of all files by their versions, by the older rule and by the newer; then that of the last
// alone, whose line has no name.
fn badge_all(rt: &impl System) {
    badge_words(rt, Wish::Version, FIRST);
    badge_words(rt, Wish::Under(Rule::Older), FIRST);
    badge_words(rt, Wish::Under(Rule::Newer), FIRST);
    badge_words(rt, Wish::Version, LAST);
}

fn main(rt: HostRuntime) {
    tool_commands::recount_input(&rt);
    tool_commands::start(&rt);
    play_whole(&rt);
    play_after(&rt);
    badge_all(&rt);
}
