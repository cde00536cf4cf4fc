// What keeps a version from holding an entry.
ghost use Rattle.std.specs.Prelude.{◌≡◌, cond, eqb, None, Some};
ghost use Rattle.evf_records.specs.Causes.{first_mouse_fault, mouse_fault};
ghost use Rattle.evf_records.specs.Refusals.{is_ub};

use crate::{EntryFault, FirstFault};
use game::limits::LARGEST_U24;
use game::{MouseKind, may_begin};
use times::GameMs;

// Version 4 begins with an event before these milliseconds.
const FIRST_MS_LIMIT: u32 = 256;

fn is_ub(kind: MouseKind) -> bool
    ensures { result ≡ is_ub kind }
{
    matches!(kind, MouseKind::Ub)
}

// What keeps a version from beginning with a mouse event: in version 4 its kind, or else its milliseconds.
pub(crate) fn first_mouse_fault(version: u8, kind: MouseKind, ms: GameMs) -> Option<FirstFault>
    ensures { result ≡ cond (eqb version 4) (first_mouse_fault kind ms) None }
{
    if version != 4 {
        return None;
    }
    if !may_begin(kind) {
        return Some(FirstFault::Kind);
    }
    if ms.0 < FIRST_MS_LIMIT {
        return None;
    }
    Some(FirstFault::TooLate(ms))
}

// A fault where the version is 4, which alone asks how a row begins.
pub(crate) fn in_version_4(version: u8, fault: FirstFault) -> Option<FirstFault>
    ensures { result ≡ cond (eqb version 4) (Some fault) None }
{
    (version == 4).then_some(fault)
}

// What keeps a version from beginning with a row of which `entries` were seen before: the first one decides.
pub(crate) fn keep_first(
    entries: usize,
    fault: Option<FirstFault>,
    before: Option<FirstFault>,
) -> Option<FirstFault>
    ensures { result ≡ cond (eqb entries 0) fault before }
{
    if entries == 0 {
        return fault;
    }
    before
}

// What keeps a version from holding a mouse event at a place of the row: in version 4 that it is ub, or else
// earlier than the mouse event at `last`; in version 3 that its milliseconds take more than 24 bits.
pub(crate) fn mouse_fault(
    version: u8,
    place: usize,
    last: GameMs,
    kind: MouseKind,
    ms: GameMs,
) -> Option<EntryFault>
    ensures { result ≡ mouse_fault version place last kind ms }
{
    if version != 4 {
        if LARGEST_U24 < ms.0 {
            return Some(EntryFault::PastVersion3 { place, ms });
        }
        return None;
    }
    if is_ub(kind) {
        return Some(EntryFault::Unnamed { place });
    }
    if ms.0 < last.0 {
        return Some(EntryFault::Earlier { place, last, ms });
    }
    None
}
