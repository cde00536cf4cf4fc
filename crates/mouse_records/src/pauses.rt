// How version 4 tells the wait between two mouse events: pauses while it is too long for a record, and the
// rest in the record.
ghost use Rattle.std.specs.Prelude.{◌≡◌, ◌-◌, ◌∷◌, length};
ghost use Rattle.byte_reader.specs.Numbers.{bytes_of};
ghost use Rattle.byte_writer.specs.Places.{Writes};
ghost use Rattle.mouse_records.specs.Pauses.{pause_in, pauses_of, rest_of};

use byte_writer::{write_u8, write_u16};
use times::GameMs;

// The longest wait that a record tells by itself.
const LONGEST_WAIT: u32 = 255;

const LONGEST_PAUSE: u32 = 65535;

const PAUSE_CODE: u8 = 255;

// A pause's code and milliseconds.
const PAUSE_LEN: usize = 3;

// The milliseconds from one mouse event to another; 0 where the other is the earlier one.
pub(crate) fn wait_of(last: GameMs, ms: GameMs) -> u32
    ensures { result ≡ ms.0 - last.0 }
{
    ms.0.saturating_sub(last.0)
}

// How many bytes the pauses of a wait take: there is one for each 65535 ms, and one more where over 255 ms
// are left.
#[tactic(auto, using(crate::proofs::Waits::pauses_long))]
pub(crate) fn pauses_len(wait: u32) -> usize
    ensures { result ≡ length (pauses_of wait) }
{
    let whole = (wait / LONGEST_PAUSE) as usize;
    if LONGEST_WAIT < wait % LONGEST_PAUSE {
        return (whole + 1) * PAUSE_LEN;
    }
    whole * PAUSE_LEN
}

// The next pause of a wait.
fn pause_in(wait: u32) -> u16
    ensures { result ≡ pause_in wait }
{
    wait.min(LONGEST_PAUSE) as u16
}

fn put_pause(out: &mut [u8], at: usize, pause: u16) -> usize
    ensures { Writes out.old out.new at (255 ∷ bytes_of 2 pause) result }
{
    let ms = write_u8(out, at, PAUSE_CODE);
    write_u16(out, ms, pause)
}

// The place behind the pauses, and what is left of the wait.
#[derive(Clone, Copy)]
pub(crate) struct Paused {
    pub(crate) at: usize,
    pub(crate) rest: u8,
}

// The pauses of a wait, from a place on.
#[tactic(auto, using(crate::proofs::Waits::written))]
pub(crate) fn put_pauses(out: &mut [u8], from: usize, wait: u32) -> Paused
    ensures { Writes out.old out.new from (pauses_of wait) result.at × (result.rest ≡ rest_of wait) }
{
    let mut at = from;
    let mut rest = wait;
    while LONGEST_WAIT < rest {
        let pause = pause_in(rest);
        at = put_pause(out, at, pause);
        rest -= u32::from(pause);
    }
    Paused {
        at,
        rest: rest as u8,
    }
}
