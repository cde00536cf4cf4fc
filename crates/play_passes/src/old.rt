// The events of versions 0 to 3 passed by the codes of their records: most ask for nothing more.
ghost use Rattle.std.specs.Prelude.{◌≡◌, ℕ, ◌+◌, ◌<◌, ◌≤◌, ◌≢◌, length, MatchOption};
ghost use mathlib.Core.List.{foldl};
ghost use Rattle.std.specs.Prelude.{Float};
ghost use Rattle.game.specs.declared.Event.TheVariants.{Mouse};
ghost use Rattle.record_fields.specs.Fields.{field};
ghost use Rattle.records_v0_v3.specs.Records.{kind_in};
ghost use Rattle.evf_events.specs.Events.{first_events};
ghost use Rattle.play_passes.specs.OldCodes.{old_code, is_idle};

use crate::pass::Pass;
use evf_events::EventCursor;
use record_fields::u16_of;
use records_v0_v3::{END_ALONE, END_AND_CHECKSUM};

// The bytes of a record.
const OLD_LEN: usize = 8;

// The codes of the events that act on a board: lr, rc and pf.
const RELEASE: u8 = 3;

const FLAG: u8 = 4;

const OTHER_FLAG: u8 = 8;

// The code of the whole record at a place, unless the events or the file end there.
#[tactic(auto, unfolding(crate::specs::OldCodes::old_code))]
fn old_code(file: &[u8], at: usize) -> Option<u8>
    ensures { MatchOption result (0 ≡ old_code file.now at)
        (λ code. (code ≡ old_code file.now at) × (code ≢ 0)) }
{
    if file.len() <= at || file.len() - at < OLD_LEN {
        return None;
    }
    match file[at] {
        END_AND_CHECKSUM | END_ALONE => None,
        code => Some(code),
    }
}

// Whether events of a code do nothing to a board.
#[tactic(auto, unfolding(crate::specs::OldCodes::is_idle))]
pub(crate) fn is_idle(code: u8) -> bool
    ensures { result ≡ is_idle code }
{
    !matches!(code, RELEASE | FLAG | OTHER_FLAG)
}

// Takes the record of a code at a place.
fn record_at<P: Pass>(file: &[u8], at: usize, code: u8, board: &[i8], cells: &mut [u16], p: P) -> P
    requires { at + 8 ≤ length file.now }
    ensures { ((version : ℕ) (t : Float)
        → (result, cells.new) ≡ P.after board.now (p, cells.old)
        (Mouse t (kind_in version code) (field 2 file.now (at + 4)) (field 2 file.now (at + 6))))
        × (length cells.new ≡ length cells.old) }
{
    if P::is_idle(code) {
        return p;
    }
    let x = u16_of(file[at + 4], file[at + 5]);
    let y = u16_of(file[at + 6], file[at + 7]);
    p.click(board, cells, code, x, y)
}

// Takes the events from a cursor on, so many at most.
pub(crate) fn pass_old<P: Pass>(
    file: &[u8],
    c: EventCursor,
    most: usize,
    board: &[i8],
    cells: &mut [u16],
    from: P,
) -> P
    requires { c.version < 4 }
    ensures { (result, cells.new)
        ≡ foldl (P.after board.now) (from, cells.old)
        (first_events most file.now c) }
{
    let mut p = from;
    let mut at = c.at;
    for _ in 0..most {
        let Some(code) = old_code(file, at) else {
            return p;
        };
        p = record_at(file, at, code, board, cells, p);
        at += OLD_LEN;
    }
    p
}
