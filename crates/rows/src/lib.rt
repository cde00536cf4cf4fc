// Rows of events that the caller lends: what stands past their end, and the laws of a row that turns of a
// reading fill, in `proofs/`.
#![tactic(auto)]

ghost use Rattle.std.specs.Prelude.{◌≡◌};
ghost use Rattle.rows.specs.Rows.{no_event};

use game::{Event, GameState};

// The event that stands past a row's end.
pub fn no_event() -> Event
    ensures { result ≡ no_event }
{
    Event::State {
        seconds: 0.0,
        state: GameState::Replay,
    }
}
