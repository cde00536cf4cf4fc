// The buffers of the commands, made once for a run.
use crate::copies::{copy_word, copy_words};
use crate::many::BLOCK;
use crate::reports::{Report, report_all};
use name_lines::LONGEST;
use shown::MOST_CELLS;
use system::streams::System;
use tool_files::loading::ROOM_IN;
use tool_output::LINE;
use tool_play::{Wanted, play_word};
use tool_show::show_word;
use tool_upgrade::{Asked, ROOM_OUT};

// What is done with the buffers. Copies of many files go into the folder that a word names.
#[derive(Clone, Copy)]
pub enum Job {
    Report(Report),
    Copy(Asked),
    CopyAll(Asked, usize),
    Show,
    Play(Wanted),
}

// Does a job. What is shown of a game or of its play takes the place of the copy.
fn run_lent(
    rt: &impl System,
    job: Job,
    first: usize,
    block: &mut [u8; BLOCK],
    name: &mut [u8; LONGEST],
    file: &mut [u8; ROOM_IN],
    copy: &mut [u8; ROOM_OUT],
    line: &mut [u8; LINE],
    board: &mut [i8; MOST_CELLS],
    cells: &mut [u16; MOST_CELLS],
) -> u8 {
    match job {
        Job::Report(report) => report_all(rt, report, first, block, name, file, copy, line),
        Job::Copy(asked) => copy_word(rt, asked, first, file, copy, line),
        Job::CopyAll(asked, folder) => {
            copy_words(rt, asked, folder, first, block, name, file, copy, line)
        }
        Job::Show => show_word(rt, first, file, board, copy),
        Job::Play(wanted) => play_word(rt, wanted, first, file, board, cells, copy),
    }
}

// Does a job with the words from `first` on, and answers the status. The buffers are on the stack, and take a
// little more than half of the 8 MiB that a process has where nobody chose another. Nothing else is done
// where they are made, since a proof that sees two million zeros counts them.
pub(crate) fn with_room(rt: &impl System, job: Job, first: usize) -> u8 {
    let mut block = [0u8; BLOCK];
    let mut name = [0u8; LONGEST];
    let mut file = [0u8; ROOM_IN];
    let mut copy = [0u8; ROOM_OUT];
    let mut line = [0u8; LINE];
    let mut board = [0i8; MOST_CELLS];
    let mut cells = [0u16; MOST_CELLS];
    run_lent(
        rt, job, first, &mut block, &mut name, &mut file, &mut copy, &mut line, &mut board,
        &mut cells,
    )
}
