// Copies in version 4: a file of a name, as another name or into a folder.
#![tactic(auto)]

use answers::{Answer, Copying, copy_into};
use errors::number_of;
use left_out::{LeftOut, left_out};
use name_lines::{last_part, write_path};
use resaved::{Older, write_older, write_resaved};
use system::streams::System;
use system::{ENAMETOOLONG, PATH_MAX};
use tally::Fate;
use tool_files::loading::{ROOM_IN, load};
use tool_files::troubles::{Trouble, fail, tell_taken};
use tool_lines::write_upgraded;
use tool_names::{ROOM, word_at};
use tool_output::{LINE, Run, begin_line, broken, complain_error, end_line};
use whole_files::output::{Made, make_file, sync_folder};
use words::write_refusal;

// There is room for the copy of every IN. An upgraded one is at most 65558 bytes longer than its file. What
// stands before and behind the events takes at most 25 bytes more: second flags 1, time 1, country 1, start
// and end 14, two more texts 2, device id 2, metrics 2, checksum 2. The first event goes from 8 bytes to 6,
// and each later one too, with 3 for each pause before it; one pause stands for 256 ms or more, two for 65791
// or more, and the times of an old file end at 16777215: so a byte more for at most 65535 events. A re-saved
// copy is at most an eighth longer than its file. Where a game state is left out, its wait goes to the next
// mouse event: the two had 8 bytes, and a pause and the event have 9; 257 states together need one pause at
// most.
pub const ROOM_OUT: usize = 2359296;

// What copies are asked for: how they are made, and the rule by which seconds are rounded.
#[derive(Clone, Copy)]
pub struct Asked {
    pub how: Copying,
    pub rule: u8,
}

// Tells wrong use of a command that makes copies, and answers the status.
pub fn misused(rt: &impl System, how: Copying, what: &[u8]) -> u8 {
    match how {
        Copying::Upgrade => tool_help::misused_by(rt, b"evf upgrade", what),
        Copying::Resave => tool_help::misused_by(rt, b"evf resave", what),
    }
}

// Writes the line of a copy, and answers the place behind it.
fn write_made(
    how: Copying,
    line: &mut [u8; LINE],
    at: usize,
    bytes: usize,
    left: LeftOut,
) -> usize {
    match how {
        Copying::Upgrade => write_upgraded(line, at, bytes, left.events, left),
        Copying::Resave => write_resaved(line, at, bytes, left),
    }
}

// Tells that a copy was made, and what it does not carry.
fn tell_made(
    rt: &impl System,
    how: Copying,
    file: &[u8],
    bytes: usize,
    line: &mut [u8; LINE],
    at: usize,
    run: Run,
) -> Run {
    let left = left_out(file);
    let to = write_made(how, line, at, bytes, left);
    end_line(rt, line, to, run, Fate::Done)
}

// Makes the file of a copy, and tells it when it is there.
fn keep(
    rt: &impl System,
    how: Copying,
    file: &[u8],
    copy: &[u8],
    to: &[u8],
    line: &mut [u8; LINE],
    at: usize,
    run: Run,
) -> Run {
    match make_file(rt, copy, to) {
        Ok(Made::New) => tell_made(rt, how, file, copy.len(), line, at, run),
        Ok(Made::Same) => tell_taken(rt, line, at, run, true),
        Ok(Made::Taken) => tell_taken(rt, line, at, run, false),
        Ok(Made::InTheWay) => fail(rt, line, at, run, to, Trouble::InTheWay),
        Err(error) => fail(rt, line, at, run, to, Trouble::System(number_of(error))),
    }
}

// Tells of a replay of version 0 to 3 that is to be re-saved that it is for the upgrade.
fn send_older(how: Copying, file: &[u8], line: &mut [u8; LINE], at: usize) -> Older {
    match how {
        Copying::Upgrade => Older {
            to: at,
            is_older: false,
        },
        Copying::Resave => write_older(line, at, file),
    }
}

// Copies the bytes of a file and keeps the copy as `to`.
fn copy_bytes(
    rt: &impl System,
    asked: Asked,
    file: &[u8],
    copy: &mut [u8; ROOM_OUT],
    to: &[u8],
    line: &mut [u8; LINE],
    at: usize,
    run: Run,
) -> Run {
    let how = asked.how;
    let older = send_older(how, file, line, at);
    if older.is_older {
        return end_line(rt, line, older.to, run, Fate::Refused);
    }
    match copy_into(how, file, copy, asked.rule) {
        Answer::Written(n) => {
            let bytes = &copy[..n.min(ROOM_OUT)];
            keep(rt, how, file, bytes, to, line, at, run)
        }
        Answer::Refused(k) => {
            let end = write_refusal(line, at, k);
            end_line(rt, line, end, run, Fate::Refused)
        }
        Answer::Short(_) => fail(rt, line, at, run, to, Trouble::CopyLong),
    }
}

// Copies the file of a name and keeps the copy as `to`.
fn copy_file(
    rt: &impl System,
    asked: Asked,
    name: &[u8],
    to: &[u8],
    file: &mut [u8; ROOM_IN],
    copy: &mut [u8; ROOM_OUT],
    line: &mut [u8; LINE],
    run: Run,
) -> Run {
    let loaded = load(rt, name, file, line);
    let at = begin_line(line, run, name);
    match loaded {
        Ok(bytes) => copy_bytes(rt, asked, bytes, copy, to, line, at, run),
        Err(t) => fail(rt, line, at, run, name, t),
    }
}

// Copies the file of a name and keeps the copy in a folder, under the name's last part.
pub fn copy_into_folder(
    rt: &impl System,
    asked: Asked,
    name: &[u8],
    folder: &[u8],
    file: &mut [u8; ROOM_IN],
    copy: &mut [u8; ROOM_OUT],
    line: &mut [u8; LINE],
    run: Run,
) -> Run {
    let start = last_part(name);
    let mut path = [0u8; PATH_MAX];
    let n = write_path(&mut path, 0, folder, &name[start..]);
    if PATH_MAX <= n {
        let at = begin_line(line, run, name);
        return fail(
            rt,
            line,
            at,
            run,
            name,
            Trouble::System(number_of(ENAMETOOLONG)),
        );
    }
    copy_file(rt, asked, name, &path[..n], file, copy, line, run)
}

// Synchronises the folder of new files, so that their names last.
pub fn sync(rt: &impl System, folder: &[u8], line: &mut [u8; LINE], run: Run) -> Run {
    match sync_folder(rt, folder) {
        Ok(()) => run,
        Err(error) => {
            complain_error(rt, line, folder, error);
            broken(run)
        }
    }
}

// Synchronises the folder of a file that was made.
fn sync_folder_of(rt: &impl System, path: &[u8], line: &mut [u8; LINE], run: Run) -> Run {
    let folder = match last_part(path) {
        0 => b".",
        start => &path[..start],
    };
    sync(rt, folder, line, run)
}

// Copies IN, `from`, as OUT, `to`, and sees that its name lasts.
fn copy_as(
    rt: &impl System,
    asked: Asked,
    from: &[u8],
    to: &[u8],
    file: &mut [u8; ROOM_IN],
    copy: &mut [u8; ROOM_OUT],
    line: &mut [u8; LINE],
) -> u8 {
    let run = copy_file(
        rt,
        asked,
        from,
        to,
        file,
        copy,
        line,
        tool_output::begin(rt, false),
    );
    let run = if run.tally.done == 0 {
        run
    } else {
        sync_folder_of(rt, to, line, run)
    };
    tool_output::end(rt, line, run)
}

// Copies IN, `from`, as OUT, word i.
pub fn copy_one(
    rt: &impl System,
    asked: Asked,
    from: &[u8],
    i: usize,
    file: &mut [u8; ROOM_IN],
    copy: &mut [u8; ROOM_OUT],
    line: &mut [u8; LINE],
) -> u8 {
    let mut room = [0u8; ROOM];
    match word_at(rt, i, &mut room) {
        Some(to) => copy_as(rt, asked, from, to, file, copy, line),
        None => misused(rt, asked.how, b": OUT is too long for a name\n"),
    }
}
