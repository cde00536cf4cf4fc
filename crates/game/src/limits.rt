// The largest numbers that the fields of a file take, by name.

// The largest number of one byte: a height or width.
pub const LARGEST_U8: usize = 255;
// The largest number of two bytes: mines, 3BV, and the length of a counted text.
pub const LARGEST_U16: usize = 65535;
// The largest number of three bytes: the milliseconds of version 3.
pub const LARGEST_U24: u32 = 16777215;
// The most pixels that version 4's writer takes in height or width.
pub const LARGEST_PIXELS: usize = 32767;
// The length of a checksum in versions 0 to 3, which do not count it.
pub const CHECKSUM_LEN: usize = 32;
