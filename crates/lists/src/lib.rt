// What several crates share: definitions and laws on lists, and the one store that takes any place.
#![tactic(auto)]

ghost use Rattle.std.specs.Prelude.{◌≡◌, ◌+◌, set};

// Stores `b` at place `at + i`. A place past the end takes nothing.
pub fn put_byte(out: &mut [u8], at: usize, i: usize, b: u8)
    ensures { out.new ≡ set out.old (at + i) b }
{
    if at < out.len() && i < out.len() - at {
        out[at + i] = b;
    }
}
