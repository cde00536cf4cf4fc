// Judges the badge of a file without a row: its events come from the file, its board and cells are lent.
#![tactic(auto)]

ghost use Rattle.std.specs.Prelude.{◌≡◌};
ghost use Rattle.evf_events.specs.Events.{first_events};
ghost use Rattle.file_badge.specs.FileBadge.{wish_of, verdict_number, award_number, host_number};
ghost use Rattle.file_badge.specs.FileBadge.{BadgesFile, HostBadges};
ghost use Rattle.file_badge.specs.Starting.{StartsJudging};

use badge::{Judging, answer, judge_newer, judge_older};
use badge_rules::{Award, Rule, Wish, rule_of};
use evf_events::EventCursor;
use evf_video::Outcome;
use file_play::ready_game;
use game::Header;
use play_passes::judge_events;
use text::Place;

// The rule under which a file's game was judged, and its badge; or the number of the refusal where the file
// cannot be read, 1 to 10.
#[derive(Clone, Copy)]
pub enum FileBadge {
    Read(Rule, Award),
    Unread(u8),
}

// Readies a game for its rule, whose packed board stands at a place of its file, and its first `events`
// events from a cursor on. Under the older rule nothing is changed.
fn start_under(
    rule: Rule,
    file: &[u8],
    h: Header,
    place: Place,
    cursor: EventCursor,
    events: usize,
    board: &mut [i8],
    cells: &mut [u16],
) -> Judging
    ensures { StartsJudging rule file.now h place (first_events events file.now cursor)
        board.old cells.old result board.new cells.new }
{
    match rule {
        Rule::Older => judge_older(h.nf),
        Rule::Newer => {
            let first = ready_game(file, h, place, cursor, events, board, cells);
            judge_newer(first, h.nf)
        }
    }
}

// Judges the badge of a file by all its events: 1 to 10 where it cannot be read; under the newer rule 11 where
// the lent board is below height x width, 24, 27 or 28. Refused, or under the older rule, it changes nothing;
// else the board is the game's and the cells are as `badge` leaves them.
pub fn badge_file(wish: Wish, file: &[u8], board: &mut [i8], cells: &mut [u16]) -> FileBadge
    ensures { BadgesFile wish file.now board.old cells.old result
        board.new cells.new }
{
    let j = evf_video::judge(file);
    match j.outcome {
        Outcome::Read => {
            let rule = rule_of(wish, j.header.version);
            let from = start_under(
                rule, file, j.header, j.board, j.cursor, j.events, board, cells,
            );
            let last = judge_events(file, j.cursor, j.events, board, cells, from);
            FileBadge::Read(rule, answer(last))
        }
        Outcome::Refused(n) => FileBadge::Unread(n),
    }
}

// The wishes of hosts: by the file's version, by the older rule, by the newer.
const BY_VERSION: u8 = 0;

const BY_OLDER: u8 = 1;

const BY_NEWER: u8 = 2;

// The answer where a host's wish is none of these.
const NO_WISH: u8 = 255;

// The answers that are no refusals: whether the badge is earned, whether the file claims it.
const NEITHER: u8 = 64;

const EARNED: u8 = 65;

const CLAIMED: u8 = 66;

const BOTH: u8 = 67;

// The wish that a host's number means; any above 2 is refused before.
fn wish_of(n: u8) -> Wish
    ensures { result ≡ wish_of n }
{
    match n {
        BY_VERSION => Wish::Version,
        BY_OLDER => Wish::Under(Rule::Older),
        _ => Wish::Under(Rule::Newer),
    }
}

// One number for a verdict and the file's claim.
fn verdict_number(earned: bool, claimed: bool) -> u8
    ensures { result ≡ verdict_number earned claimed }
{
    match (earned, claimed) {
        (false, false) => NEITHER,
        (true, false) => EARNED,
        (false, true) => CLAIMED,
        (true, true) => BOTH,
    }
}

// One number for an answer, that of its refusal where it has one.
fn award_number(a: Award) -> u8
    ensures { result ≡ award_number a }
{
    match a {
        Award::Judged { earned, claimed } => verdict_number(earned, claimed),
        Award::Refused(n) => n,
    }
}

// One number for the answer of a file.
fn badge_number(b: FileBadge) -> u8
    ensures { result ≡ host_number b }
{
    match b {
        FileBadge::Read(_, award) => award_number(award),
        FileBadge::Unread(n) => n,
    }
}

// Judges the badge of a file for hosts. `wish` is 0 for the rule of the file's version, 1 for the older rule, 2
// for the newer; any other is answered with 255, and nothing is changed. Below 64 the answer is the number of
// the refusal; 64 is not earned and not claimed by the file, 65 earned and not claimed, 66 not earned and
// claimed, 67 earned and claimed.
#[unsafe(no_mangle)]
pub extern "C" fn evf_badge(file: &[u8], wish: u8, board: &mut [i8], cells: &mut [u16]) -> u8
    ensures { HostBadges file.now wish board.old cells.old result
        board.new cells.new }
{
    if BY_NEWER < wish {
        return NO_WISH;
    }
    badge_number(badge_file(wish_of(wish), file, board, cells))
}
