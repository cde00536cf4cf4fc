// The mouse buttons along a row of events: which are down, and whether the row holds a chord (cc, or one
// button pressed while the other is down), which a game that is played through refuses.
#![tactic(auto)]

ghost use Rattle.std.specs.Prelude.{◌≡◌};
ghost use mathlib.Core.List.{foldl};
ghost use Rattle.buttons.specs.Pressing.{none_down, pressed, pressed_kind};

use game::{Event, MouseKind};

// Which buttons are down, and whether a chord was met.
#[derive(Clone, Copy)]
pub struct Buttons {
    pub left: bool,
    pub right: bool,
    pub chord: bool,
}

// Before the first event: no button is down.
pub fn no_buttons() -> Buttons
    ensures { result ≡ none_down }
{
    Buttons {
        left: false,
        right: false,
        chord: false,
    }
}

// Takes what the mouse did: lc and rc press a button and lr and rr let it go; a press while the other button
// is down is a chord, and so is cc.
pub fn press_kind(from: Buttons, kind: MouseKind) -> Buttons
    ensures { result ≡ pressed_kind from kind }
{
    match kind {
        MouseKind::Lc => Buttons {
            left: true,
            chord: from.chord || from.right,
            ..from
        },
        MouseKind::Lr => Buttons {
            left: false,
            ..from
        },
        MouseKind::Rc => Buttons {
            right: true,
            chord: from.chord || from.left,
            ..from
        },
        MouseKind::Rr => Buttons {
            right: false,
            ..from
        },
        MouseKind::Cc => Buttons {
            chord: true,
            ..from
        },
        _ => from,
    }
}

// Takes one event more; a game state presses nothing.
pub fn press(from: Buttons, event: Event) -> Buttons
    ensures { result ≡ pressed from event }
{
    match event {
        Event::Mouse { kind, .. } => press_kind(from, kind),
        Event::State { .. } => from,
    }
}

// Takes every entry of a lent row.
pub fn press_row(row: &[Event], from: Buttons) -> Buttons
    ensures { result ≡ foldl pressed from row.now }
{
    row.iter().fold(from, |b, event| press(b, *event))
}
