// `evf upgrade [--rule N] IN OUT` and `evf upgrade [--rule N] --to DIR FILE...`: copies in version 4.
// `evf resave` in the same ways.
use crate::many;
use crate::many::{BLOCK, Task};
use crate::options::{options_from, rule_used_well};
use crate::rooms::{Job, with_room};
use answers::Copying;
use byte_writer::advance;
use name_lines::LONGEST;
use system::streams::System;
use tool_files::loading::ROOM_IN;
use tool_names::{ROOM, asks_help, word_at};
use tool_output::{LINE, complain_error};
use tool_upgrade::{Asked, ROOM_OUT, copy_one, misused, sync};
use whole_files::input::{Sort, sort_of};

// Copies the files that the words from `first` on name into a folder.
fn copy_all(
    rt: &impl System,
    asked: Asked,
    folder: &[u8],
    first: usize,
    block: &mut [u8; BLOCK],
    name: &mut [u8; LONGEST],
    file: &mut [u8; ROOM_IN],
    copy: &mut [u8; ROOM_OUT],
    line: &mut [u8; LINE],
) -> u8 {
    match sort_of(rt, folder) {
        Ok(Sort::Folder) => {
            many::tell_awaited(rt, first);
            let begun = tool_output::begin(rt, true);
            let run = many::over_names(
                rt,
                Task::Copy(asked),
                folder,
                first,
                block,
                name,
                file,
                copy,
                line,
                begun,
            );
            let run = sync(rt, folder, line, run);
            tool_output::end(rt, line, run)
        }
        Err(error) => {
            complain_error(rt, line, folder, error);
            2
        }
        Ok(_) => misused(rt, asked.how, b" --to: DIR is not a folder\n"),
    }
}

// Copies IN, word `first`, as OUT, the next.
pub(crate) fn copy_word(
    rt: &impl System,
    asked: Asked,
    first: usize,
    file: &mut [u8; ROOM_IN],
    copy: &mut [u8; ROOM_OUT],
    line: &mut [u8; LINE],
) -> u8 {
    let mut room = [0u8; ROOM];
    match word_at(rt, first, &mut room) {
        Some(from) => copy_one(rt, asked, from, advance(first, 1), file, copy, line),
        None => misused(rt, asked.how, b": IN is too long for a name\n"),
    }
}

// Copies the files that the words from `first` on name into DIR, which is word `folder`.
pub(crate) fn copy_words(
    rt: &impl System,
    asked: Asked,
    folder: usize,
    first: usize,
    block: &mut [u8; BLOCK],
    name: &mut [u8; LONGEST],
    file: &mut [u8; ROOM_IN],
    copy: &mut [u8; ROOM_OUT],
    line: &mut [u8; LINE],
) -> u8 {
    let mut room = [0u8; ROOM];
    match word_at(rt, folder, &mut room) {
        Some(dir) => copy_all(rt, asked, dir, first, block, name, file, copy, line),
        None => misused(rt, asked.how, b" --to: DIR is too long for a name\n"),
    }
}

// Shows the help of a command that makes copies, and answers the status.
fn show_help(rt: &impl System, how: Copying) -> u8 {
    match how {
        Copying::Upgrade => tool_help::upgrade_help(rt),
        Copying::Resave => tool_help::resave_help(rt),
    }
}

// Runs `evf upgrade` or `evf resave` on the words from `first` on, and answers the status.
pub(crate) fn run(rt: &impl System, how: Copying, first: usize) -> u8 {
    if asks_help(rt, first) {
        return show_help(rt, how);
    }
    let options = options_from(rt, first);
    let Some(rule) = rule_used_well(rt, how, options) else {
        return 2;
    };
    let asked = Asked { how, rule };
    match options.folder {
        Some(folder) => with_room(rt, Job::CopyAll(asked, folder), options.first),
        None => with_room(rt, Job::Copy(asked), options.first),
    }
}
