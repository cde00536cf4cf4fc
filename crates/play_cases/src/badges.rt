// Judges the badge of one game over and over: under every wish, by five versions and with either bit in its
// header. A run judges by the steps, event by event, from entries that are all as they were asked for.
use crate::Asked;
use crate::small::{NOTHING, digest_entries, show_digest};
use badge::Judging;
use badge_rules::{Award, Rule, Wish};
use buttons::Buttons;
use framed_games::Events;
use game::Header;
use printing::{Printer, say, say_field, say_number};
use std::io::Write;

// The runs of a game, and those of one wish.
const RUNS: usize = 30;

const RUNS_OF_A_WISH: usize = 10;

// The last run that wishes for the older rule, and the last for the newer.
const LAST_OLDER: usize = 19;

const LAST_NEWER: usize = 29;

// The wish of a run: the rule of the version for the first ten, the older rule for the next, then the newer.
fn wish_of(run: usize) -> Wish {
    match run / RUNS_OF_A_WISH {
        0 => Wish::Version,
        1 => Wish::Under(Rule::Older),
        _ => Wish::Under(Rule::Newer),
    }
}

// The version of a run; each stands in two runs of a wish, one behind the other.
fn version_of(run: usize) -> u8 {
    match run % RUNS_OF_A_WISH / 2 {
        0 => 0,
        1 => 3,
        2 => 4,
        3 => 5,
        _ => 255,
    }
}

// The header of a run: the sizes that are asked for, the run's version, and the bit in every other run.
fn header_of(asked: Asked, run: usize) -> Header {
    let mut h = game::blank_header();
    h.version = version_of(run);
    h.nf = run % 2 == 1;
    h.height = asked.height;
    h.width = asked.width;
    h.cell_pixel_size = asked.pixels;
    h
}

// Judges every event of the row.
fn judge_all(board: &[i8], cells: &mut [u16], start: Judging, row: Events) -> Judging {
    let mut judging = start;
    for event in row {
        judging = badge::judge_event(board, cells, judging, event);
    }
    judging
}

// Does one run.
fn judge(
    run: usize,
    asked: Asked,
    buttons: Buttons,
    board: &[i8],
    cells: &mut [u16],
    row: Events,
) -> Award {
    cells.fill(asked.before);
    let header = header_of(asked, run);
    let start = badge::begin(wish_of(run), header, board, buttons, cells);
    badge::answer(judge_all(board, cells, start, row))
}

// Shows an answer behind a space: e for a badge that is earned, n for one that is not, and the header's bit; or
// the number of the refusal.
fn show_award(printer: &mut Printer<impl Write>, award: Award) {
    match award {
        Award::Judged { earned, claimed } => {
            say(printer, if earned { b" e" } else { b" n" });
            say_number(printer, u64::from(claimed));
        }
        Award::Refused(why) => say_field(printer, why as u64),
    }
}

// Whether every entry is shown after a run.
fn is_last(run: usize) -> bool {
    matches!(run, LAST_OLDER | LAST_NEWER)
}

// Shows every entry after the last run of a rule.
fn show_left(printer: &mut Printer<impl Write>, run: usize, cells: &[u16]) {
    if is_last(run) {
        say(printer, b" cells");
        printing::show_entries(printer, cells);
    }
}

// Shows a digest at the end of a line.
fn show_end(printer: &mut Printer<impl Write>, d: u64) {
    show_digest(printer, d);
    say(printer, b"\n");
}

// Shows the answer of each run, every entry after the last run under the older rule and after the last under
// the newer, and a digest of all entries after all runs.
pub fn show(
    printer: &mut Printer<impl Write>,
    asked: Asked,
    buttons: Buttons,
    board: &[i8],
    cells: &mut [u16],
    row: Events,
) {
    let mut d = NOTHING;
    for run in 0..RUNS {
        show_award(printer, judge(run, asked, buttons, board, cells, row));
        show_left(printer, run, cells);
        d = digest_entries(d, cells);
    }
    show_end(printer, d);
}
