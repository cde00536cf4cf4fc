// `evf show FILE`: the game for a person.
use crate::rooms::{Job, with_room};
use system::streams::System;
use tool_names::{asks_help, is_option, words_from};

// Runs `evf show` on the words from `first` on, and answers the status.
pub(crate) fn run(rt: &impl System, first: usize) -> u8 {
    if asks_help(rt, first) {
        return tool_help::show_help(rt);
    }
    if is_option(rt, first) {
        return tool_help::misused(
            rt,
            b"evf show: no such option; for a file of that name write ./ before it\n",
        );
    }
    if words_from(rt, first) != 1 {
        return tool_help::misused(rt, b"evf show: one FILE is needed\n");
    }
    with_room(rt, Job::Show, first)
}
