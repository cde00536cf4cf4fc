// Writes the line that `evf badge` prints of a file: the rule, whether its game earned the badge, whether the
// file claims it, and whether these agree. What does not fit is dropped, as everywhere in `byte_writer`.
#![tactic(auto)]

ghost use Rattle.std.specs.Prelude.{◌≡◌};
ghost use Rattle.byte_writer.specs.Places.{Writes};
ghost use Rattle.badged.specs.Lines.{rule_fields, award_fields, award_fate, line_of, fate_of};
ghost use Rattle.badged.specs.Lines.{badged_line, badged_fate, Tells};
ghost use Rattle.badged.specs.Pieces.{piece_at, TellsVerdict};

use badge_rules::{Award, Rule, Wish};
use file_badge::{FileBadge, badge_file};
use tally::Fate;
use text_table::write_text;
use words::write_refusal;

// The cells of the largest board, 255 by 255.
pub const MOST_CELLS: usize = 65025;

// The place behind a line, and what became of its file: done where verdict and claim agree.
#[derive(Clone, Copy)]
pub struct BadgedLine {
    pub to: usize,
    pub fate: Fate,
}

// The text of a verdict, by its place in the table, and what became of its file.
#[derive(Clone, Copy)]
struct Verdict {
    piece: u8,
    fate: Fate,
}

// Text k of the table: the fields before a verdict, by the rule; then the verdicts.
fn write_piece(out: &mut [u8], at: usize, k: u8) -> usize
    ensures { Writes out.old out.new at (piece_at k) result }
{
    write_text(
        out,
        at,
        b"badge\tolder rule\t\0badge\tnewer rule\t\0\
        not earned\tnot claimed\tagrees\n\0earned\tnot claimed\tdiffers\n\0\
        not earned\tclaimed\tdiffers\n\0earned\tclaimed\tagrees\n\0",
        k,
    )
}

// The place in the table of the fields before a verdict.
#[tactic(auto, unfolding(crate::specs::Pieces::pieces, crate::specs::Pieces::piece_at))]
fn piece_of(rule: Rule) -> u8
    ensures { piece_at result ≡ rule_fields rule }
{
    match rule {
        Rule::Older => 0,
        Rule::Newer => 1,
    }
}

// The verdict by whether the badge is earned and whether the file claims it.
#[tactic(auto, unfolding(crate::specs::Pieces::pieces, crate::specs::Pieces::piece_at))]
fn verdict_of(earned: bool, claimed: bool) -> Verdict
    ensures { TellsVerdict earned claimed result }
{
    match (earned, claimed) {
        (true, true) => Verdict {
            piece: 5,
            fate: Fate::Done,
        },
        (true, false) => Verdict {
            piece: 3,
            fate: Fate::Differs,
        },
        (false, true) => Verdict {
            piece: 4,
            fate: Fate::Differs,
        },
        (false, false) => Verdict {
            piece: 2,
            fate: Fate::Done,
        },
    }
}

// Writes a verdict, or the refusal in its place.
fn write_award(out: &mut [u8], at: usize, award: Award) -> BadgedLine
    ensures { Tells out.old out.new at (award_fields award) (award_fate award) result }
{
    match award {
        Award::Judged { earned, claimed } => {
            let verdict = verdict_of(earned, claimed);
            BadgedLine {
                to: write_piece(out, at, verdict.piece),
                fate: verdict.fate,
            }
        }
        Award::Refused(n) => BadgedLine {
            to: write_refusal(out, at, n),
            fate: Fate::Refused,
        },
    }
}

// Writes the line of a badge.
fn write_badge(out: &mut [u8], at: usize, badge: FileBadge) -> BadgedLine
    ensures { Tells out.old out.new at (line_of badge) (fate_of badge) result }
{
    match badge {
        FileBadge::Read(rule, award) => {
            let at = write_piece(out, at, piece_of(rule));
            write_award(out, at, award)
        }
        FileBadge::Unread(n) => BadgedLine {
            to: write_refusal(out, at, n),
            fate: Fate::Refused,
        },
    }
}

// Writes the line of a file. Board and cells are lent for the newer rule to play the game in.
pub fn write_badged(
    out: &mut [u8],
    at: usize,
    wish: Wish,
    file: &[u8],
    board: &mut [i8; MOST_CELLS],
    cells: &mut [u16; MOST_CELLS],
) -> BadgedLine
    ensures { Tells out.old out.new at
        (badged_line wish file.now board.old cells.old)
        (badged_fate wish file.now board.old cells.old) result }
{
    let badge = badge_file(wish, file, board, cells);
    write_badge(out, at, badge)
}
