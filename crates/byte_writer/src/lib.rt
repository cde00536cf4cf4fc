// Writing into a lent buffer field by field, each behind the last, and adding up lengths that may pass the
// largest usize. What does not fit a buffer is dropped.
#![tactic(auto)]

ghost use Rattle.std.specs.Prelude.{◌≡◌, ◌+◌, ◌≤◌};
ghost use Rattle.std.proofs.lemmas.List.Edits.{sets};
ghost use Rattle.text.specs.Decimals.{decimal_bytes};
ghost use Rattle.byte_reader.specs.Numbers.{bytes_of};
ghost use Rattle.byte_writer.specs.Places.{capped, Writes, length_of, plus_of, fits_in};
ghost use Rattle.byte_writer.specs.Fields.{zero_ended};

// A number of bytes, and whether it passes the largest usize, which then stands for it.
#[derive(Clone, Copy)]
pub struct Length {
    pub bytes: usize,
    pub over: bool,
}

// The length of so many bytes.
pub fn length_of(n: usize) -> Length
    ensures { result ≡ length_of n }
{
    Length {
        bytes: n,
        over: false,
    }
}

// The place n bytes on; the largest usize where that is more.
pub fn advance(at: usize, n: usize) -> usize
    ensures { result ≡ capped (at + n) }
{
    at.saturating_add(n)
}

impl Length {
    // So many bytes more.
    pub fn plus(self, n: usize) -> Length
        ensures { result ≡ plus_of self n }
    {
        match self.bytes.checked_add(n) {
            Some(bytes) => Length {
                bytes,
                over: self.over,
            },
            None => Length {
                bytes: usize::MAX,
                over: true,
            },
        }
    }

    // Whether a buffer of so many bytes has room for them.
    #[tactic(auto, unfolding(crate::specs::Places::fits_in))]
    pub fn fits(self, room: usize) -> bool
        ensures { result ≡ fits_in self room }
    {
        !self.over && self.bytes <= room
    }
}

// Bytes as they are. What does not fit `out` is dropped. No `copy_from_slice`: it asks a C program for `memmove`.
pub fn put_bytes(out: &mut [u8], at: usize, bytes: &[u8])
    ensures { out.new ≡ sets out.old at bytes.now }
{
    for (i, b) in bytes.iter().enumerate() {
        lists::put_byte(out, at, i, *b);
    }
}

// The k bytes of a number, one function for every width; the last byte goes first. `to_be_bytes`, copied as a
// slice, took half as long again for a field of one to three bytes, of which every event has four.
fn put_number(out: &mut [u8], at: usize, k: usize, v: u64)
    requires { k ≤ 8 }
    ensures { out.new ≡ sets out.old at (bytes_of k v) }
{
    let mut rest = v;
    for i in (0..k).rev() {
        lists::put_byte(out, at, i, (rest % 256) as u8);
        rest /= 256;
    }
}

// A number into the bytes from at. What does not fit `out` is dropped.
pub fn put_u8(out: &mut [u8], at: usize, v: u8)
    ensures { out.new ≡ sets out.old at (bytes_of 1 v) }
{
    put_number(out, at, 1, v as u64)
}

pub fn put_u16(out: &mut [u8], at: usize, v: u16)
    ensures { out.new ≡ sets out.old at (bytes_of 2 v) }
{
    put_number(out, at, 2, v as u64)
}

// The low three bytes of a number.
pub fn put_u24(out: &mut [u8], at: usize, v: u32)
    ensures { out.new ≡ sets out.old at (bytes_of 3 v) }
{
    put_number(out, at, 3, v as u64)
}

pub fn put_u32(out: &mut [u8], at: usize, v: u32)
    ensures { out.new ≡ sets out.old at (bytes_of 4 v) }
{
    put_number(out, at, 4, v as u64)
}

pub fn put_u64(out: &mut [u8], at: usize, v: u64)
    ensures { out.new ≡ sets out.old at (bytes_of 8 v) }
{
    put_number(out, at, 8, v)
}

// Each of these writes a field from a place on and answers the place behind it.

pub fn write_u8(out: &mut [u8], at: usize, v: u8) -> usize
    ensures { Writes out.old out.new at (bytes_of 1 v) result }
{
    put_u8(out, at, v);
    advance(at, 1)
}

pub fn write_u16(out: &mut [u8], at: usize, v: u16) -> usize
    ensures { Writes out.old out.new at (bytes_of 2 v) result }
{
    put_u16(out, at, v);
    advance(at, 2)
}

// The low three bytes of a number.
pub fn write_u24(out: &mut [u8], at: usize, v: u32) -> usize
    ensures { Writes out.old out.new at (bytes_of 3 v) result }
{
    put_u24(out, at, v);
    advance(at, 3)
}

pub fn write_u32(out: &mut [u8], at: usize, v: u32) -> usize
    ensures { Writes out.old out.new at (bytes_of 4 v) result }
{
    put_u32(out, at, v);
    advance(at, 4)
}

pub fn write_u64(out: &mut [u8], at: usize, v: u64) -> usize
    ensures { Writes out.old out.new at (bytes_of 8 v) result }
{
    put_u64(out, at, v);
    advance(at, 8)
}

// Bytes as they are.
pub fn write_bytes(out: &mut [u8], at: usize, bytes: &[u8]) -> usize
    ensures { Writes out.old out.new at bytes.now result }
{
    put_bytes(out, at, bytes);
    advance(at, bytes.len())
}

// A text and the 00 that ends it.
pub fn write_c_string(out: &mut [u8], at: usize, text: &[u8]) -> usize
    ensures { Writes out.old out.new at (zero_ended text.now) result }
{
    let end = write_bytes(out, at, text);
    write_u8(out, end, 0)
}

// A number in decimal and the 00 that ends it.
pub fn write_decimal(out: &mut [u8], at: usize, n: u64) -> usize
    ensures { Writes out.old out.new at (zero_ended (decimal_bytes n)) result }
{
    text::put_decimal(out, at, n);
    let end = advance(at, text::decimal_len(n));
    write_u8(out, end, 0)
}
