// The two rules of the no-flag badge: which of them a wish means, what each looks at, and what is answered.
#![tactic(auto)]

ghost use Rattle.std.specs.Prelude.{◌≡◌};
ghost use Rattle.badge_rules.specs.Rules.{rule_of};
ghost use Rattle.badge_rules.specs.Steps.{no_board, is_rc, falls_covered, award_by};

use game::MouseKind;
use moves::{Played, Position, clicked_cell};

// The rules of the badge: that of versions 0 to 3, and that of version 4.
#[derive(Clone, Copy)]
pub enum Rule {
    Older,
    Newer,
}

// The rule that is wished for: that of the header's version, or a certain one.
#[derive(Clone, Copy)]
pub enum Wish {
    Version,
    Under(Rule),
}

// Whether a game earned the badge, beside whether its header claims it; or the number of a refusal.
#[derive(Clone, Copy)]
pub enum Award {
    Judged { earned: bool, claimed: bool },
    Refused(u8),
}

// The last version that has the older rule.
const LAST_OLDER: u8 = 3;

// The rule that a wish means for a game of a version.
pub fn rule_of(wish: Wish, version: u8) -> Rule
    ensures { result ≡ rule_of wish version }
{
    match wish {
        Wish::Version if version <= LAST_OLDER => Rule::Older,
        Wish::Version => Rule::Newer,
        Wish::Under(rule) => rule,
    }
}

// A board without cells, on which nothing is played.
pub fn no_board() -> Position
    ensures { result ≡ no_board }
{
    Position {
        left: 0,
        height: 0,
        width: 0,
        pixels: 0,
        stands: Played::Undecided,
    }
}

// Whether a kind is rc. A pf sets and lifts flags too, and is none.
pub fn is_rc(kind: MouseKind) -> bool
    ensures { result ≡ is_rc kind }
{
    matches!(kind, MouseKind::Rc)
}

// Whether a click at a pixel falls, while the game goes on, on a cell that is covered or flagged.
#[tactic(auto, unfolding(crate::specs::Steps::falls_covered))]
pub fn falls_covered(cells: &[u16], p: Position, x: u16, y: u16) -> bool
    ensures { result ≡ falls_covered cells.now p x y }
{
    let k = clicked_cell(p, x, y);
    k < board::cells_of(p.height, p.width) && k < cells.len() && cells[k] != flood::UNCOVERED
}

// What is answered of a badge by how its game stands: the verdict beside whether the header claims the badge,
// or the refusal of the game.
pub fn award_of(stands: Played, earned: bool, claimed: bool) -> Award
    ensures { result ≡ award_by stands earned claimed }
{
    match stands {
        Played::Refused(n) => Award::Refused(n),
        _ => Award::Judged { earned, claimed },
    }
}
