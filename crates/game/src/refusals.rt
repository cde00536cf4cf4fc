// The refusals by their number: 1 to 10 of reading a file, 11 and 12 of what it is read into, 13 of
// upgrading, 14 to 22 of writing, 23 of what is written into, checked in that order; 24 of what is worked in,
// which is checked after 17; 25 of writing, which is checked after 20; and 27 and 28 of playing, which are
// checked after 24. 26, that a rule of rounding is none, stands with the rules in `times` and is checked
// before 14.

// The file ends inside a field.
pub const FILE_ENDS: u8 = 1;
// The version is above 4.
pub const VERSION_UNKNOWN: u8 = 2;
// A text that has to be UTF-8 is not.
pub const TEXT_NOT_UTF8: u8 = 3;
// The software begins Arbiter, whose times are not read.
pub const ARBITER: u8 = 4;
// A start or end text that has to be a decimal number is not.
pub const TIME_NOT_DECIMAL: u8 = 5;
// A Viennasweeper start or end is above the largest u64.
pub const TIME_TOO_LARGE: u8 = 6;
// The board has height 0.
pub const HEIGHT_ZERO: u8 = 7;
// The first code of version 4 is not 1, 2, 4 or 8.
pub const FIRST_CODE_UNKNOWN: u8 = 8;
// A later code of version 4 is 13 to 80 or 84 to 98.
pub const CODE_UNKNOWN: u8 = 9;
// Pending pauses or an event's milliseconds are above the largest u32.
pub const MS_TOO_LARGE: u8 = 10;
// The lent board is below height × width cells.
pub const BOARD_BUFFER_SHORT: u8 = 11;
// The lent row is shorter than the events.
pub const ROW_SHORT: u8 = 12;
// The file to be upgraded is of version 4.
pub const ALREADY_VERSION_4: u8 = 13;
// One of the nine texts, or the block of the custom metrics, ends past the lent bytes.
pub const TEXT_OUTSIDE: u8 = 14;
// The height is 0 or above 255, or the width is above 255.
pub const SIZE_UNWRITABLE: u8 = 15;
// Height or width in pixels is above 32767, in version 4.
pub const PIXELS_TOO_LARGE: u8 = 16;
// The lent board is below height × width cells, in a call that does not read it from a file.
pub const BOARD_SHORT: u8 = 17;
// Mines or 3BV are above 65535, or the time of version 3 is above 16777215.
pub const NUMBER_TOO_LARGE: u8 = 18;
// A text to be ended by 00 holds one or has to be UTF-8 and is not.
pub const TEXT_UNWRITABLE: u8 = 19;
// A device id or checksum has a length that its version cannot say.
pub const LENGTH_UNWRITABLE: u8 = 20;
// Version 4 has no first entry, or one that is not mv, lc, rc or pf below 256 ms.
pub const FIRST_EVENT_UNWRITABLE: u8 = 21;
// A mouse event that its version cannot say: ub or an earlier time in version 4, above 16777215 ms in version
// 3.
pub const EVENT_UNWRITABLE: u8 = 22;
// The lent file is too short for the bytes to be written.
pub const FILE_BUFFER_SHORT: u8 = 23;
// The lent working buffer is below height × width entries.
pub const WORK_SHORT: u8 = 24;
// The block of the custom metrics is not as many texts as it is said to be, in version 4.
pub const METRICS_UNWRITABLE: u8 = 25;
// A cell has no pixels, in a game that is to be played.
pub const PIXELS_ZERO: u8 = 27;
// The row of a game that is to be played holds a chord: cc, or one button pressed while the other is down.
pub const BUTTONS_TOGETHER: u8 = 28;
