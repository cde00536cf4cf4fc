// What the event records of all versions share: numbers of two and three bytes.
#![tactic(auto)]

ghost use Rattle.std.specs.Prelude.{◌≡◌, ◌+◌, ◌*◌};

// The largest number of four bytes, which the milliseconds of an event and the pauses before it must not
// pass.
pub const LARGEST_MS: u64 = 4294967295;

// The number that two bytes of a file are, the first counting most.
pub fn u16_of(a: u8, b: u8) -> u16
    ensures { result ≡ a * 256 + b }
{
    (a as u16) * 256 + (b as u16)
}

// The number that three bytes of a file are, the first counting most.
pub fn u24_of(a: u8, b: u8, c: u8) -> u32
    ensures { result ≡ (a * 256 + b) * 256 + c }
{
    (u16_of(a, b) as u32) * 256 + (c as u32)
}
