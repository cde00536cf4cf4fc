// The no-flag badge of a game, by the older rule or the newer one, beside the bit of its header. The older
// looks at the kinds of the events alone; the newer plays the game as `playing` does, by the same steps.
#![tactic(auto)]

ghost use Rattle.std.specs.Prelude.{◌≡◌, not, ◌&&◌};
ghost use mathlib.Core.List.{foldl};
ghost use Rattle.badge.specs.Badge.{Awards};
ghost use Rattle.badge.specs.Judging.{older_judging, newer_judging, begun_judging, begun_cells};
ghost use Rattle.badge.specs.Judging.{spoiled_by, position_under, cells_under};
ghost use Rattle.badge.specs.Judging.{judged_click, clicked_cells, judged_after, cells_judged, judged_by};
ghost use Rattle.badge.specs.Judging.{award_from};

use badge_rules::{Award, Rule, Wish, award_of, falls_covered, is_rc, no_board, rule_of};
use buttons::{Buttons, no_buttons, press_row};
use game::{Event, Header, MouseKind};
use moves::{Position, act_at, act_of};
use playing::Sizes;

// A game on its way to a verdict on its badge: the game in play, the rule, whether the badge is earned so
// far, and whether the header claims it.
#[derive(Clone, Copy)]
pub struct Judging {
    pub position: Position,
    pub rule: Rule,
    pub earned: bool,
    pub claimed: bool,
}

// Before the first event under the older rule, which plays nothing.
pub fn judge_older(claimed: bool) -> Judging
    ensures { result ≡ older_judging claimed }
{
    Judging {
        position: no_board(),
        rule: Rule::Older,
        earned: true,
        claimed,
    }
}

// Before the first event under the newer rule, of a game that begins at a position, which may be a refused
// one.
pub fn judge_newer(first: Position, claimed: bool) -> Judging
    ensures { result ≡ newer_judging first claimed }
{
    Judging {
        position: first,
        rule: Rule::Newer,
        earned: true,
        claimed,
    }
}

// Begins to judge a game whose row's buttons were seen. Under the newer rule it begins as `playing::begin`
// does; under the older the lent cells stay as they are.
#[tactic(auto, unfolding(crate::specs::Judging::begun_judging, crate::specs::Judging::begun_cells))]
pub fn begin(
    wish: Wish,
    header: Header,
    board: &[i8],
    buttons: Buttons,
    cells: &mut [u16],
) -> Judging
    ensures { (result ≡ begun_judging wish header board.now buttons cells.old)
        × (cells.new ≡ begun_cells wish header board.now buttons cells.old) }
{
    match rule_of(wish, header.version) {
        Rule::Older => judge_older(header.nf),
        Rule::Newer => {
            let sizes = Sizes {
                height: header.height,
                width: header.width,
            };
            let first = playing::begin(sizes, header.cell_pixel_size, board, buttons, cells);
            judge_newer(first, header.nf)
        }
    }
}

// Whether a click leaves the badge earned, which it must have been before.
fn is_kept(cells: &[u16], from: Judging, kind: MouseKind, x: u16, y: u16) -> bool
    ensures { result ≡ (from.earned && not (spoiled_by from.rule cells.now from.position kind x y)) }
{
    if !from.earned || !is_rc(kind) {
        return from.earned;
    }
    match from.rule {
        Rule::Older => false,
        Rule::Newer => !falls_covered(cells, from.position, x, y),
    }
}

// Plays a click where the rule is the newer one.
fn play_under(
    board: &[i8],
    cells: &mut [u16],
    rule: Rule,
    p: Position,
    kind: MouseKind,
    x: u16,
    y: u16,
) -> Position
    ensures { (result ≡ position_under rule board.now cells.old p kind x y)
        × (cells.new ≡ cells_under rule board.now cells.old p kind x y) }
{
    match rule {
        Rule::Older => p,
        Rule::Newer => act_at(board, cells, p, act_of(kind), x, y),
    }
}

// Judges a click at a pixel, and then plays it.
pub fn judge_click(
    board: &[i8],
    cells: &mut [u16],
    from: Judging,
    kind: MouseKind,
    x: u16,
    y: u16,
) -> Judging
    ensures { (result ≡ judged_click board.now cells.old from kind x y)
        × (cells.new ≡ clicked_cells board.now cells.old from kind x y) }
{
    let earned = is_kept(cells, from, kind, x, y);
    let position = play_under(board, cells, from.rule, from.position, kind, x, y);
    Judging {
        position,
        earned,
        ..from
    }
}

// Judges one event more; a game state changes nothing.
pub fn judge_event(board: &[i8], cells: &mut [u16], from: Judging, event: Event) -> Judging
    ensures { (result ≡ judged_after board.now cells.old from event)
        × (cells.new ≡ cells_judged board.now cells.old from event) }
{
    match event {
        Event::Mouse { kind, x, y, .. } => judge_click(board, cells, from, kind, x, y),
        Event::State { .. } => from,
    }
}

// Judges every entry of a lent row.
pub fn judge_row(row: &[Event], board: &[i8], cells: &mut [u16], from: Judging) -> Judging
    ensures { (result ≡ (foldl (judged_by board.now) (from, cells.old) row.now).0)
        × (cells.new
        ≡ (foldl (judged_by board.now) (from, cells.old) row.now).1) }
{
    let mut s = from;
    for event in row {
        s = judge_event(board, cells, s, *event);
    }
    s
}

// The verdict beside the header's bit, or the refusal of the game.
pub fn answer(s: Judging) -> Award
    ensures { result ≡ award_from s }
{
    award_of(s.position.stands, s.earned, s.claimed)
}

// Judges the badge of a game. The older rule: no rc in the row; it refuses nothing and changes no entry. The
// newer: no rc on a covered or flagged cell of the board while the game is undecided; it refuses as
// `playing::play` does, 15, 17, 24, 27 or 28, and leaves the lent cells as that does.
pub fn badge(wish: Wish, header: Header, board: &[i8], row: &[Event], cells: &mut [u16]) -> Award
    ensures { Awards wish header board.now row.now cells.old result
        cells.new }
{
    let buttons = press_row(row, no_buttons());
    let from = begin(wish, header, board, buttons, cells);
    let last = judge_row(row, board, cells, from);
    answer(last)
}
