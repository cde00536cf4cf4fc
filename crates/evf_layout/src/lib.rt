// What stands in a file of version 3 or 4 before its events and behind them: written into a lent buffer, and
// measured.
#![tactic(auto)]

ghost use Rattle.std.specs.Prelude.{[]};
ghost use Rattle.byte_writer.specs.Places.{Writes};
ghost use Rattle.evf_layout.specs.Layout.{front_of, tail_of};
ghost use Rattle.layout_fields.specs.Parts.{part_of, Measures};

use byte_writer::Length;
use game::Header;

// Everything before the events, from the buffer's start on; the place behind it.
pub fn write_front(file: &mut [u8], version: u8, h: Header, bytes: &[u8], board: &[i8]) -> usize
    ensures { Writes file.old file.new 0
        (part_of (front_of version) h bytes.now board.now) result }
{
    if version == 4 {
        return layout_v4::write_front_4(file, h, bytes, board);
    }
    layout_v3::write_front_3(file, h, bytes, board)
}

// The end of the events and the checksum, from a place on; the place behind them.
pub fn write_tail(file: &mut [u8], at: usize, version: u8, h: Header, bytes: &[u8]) -> usize
    ensures { Writes file.old file.new at
        (part_of (tail_of version) h bytes.now []) result }
{
    if version == 4 {
        return layout_v4::write_tail_4(file, at, h, bytes);
    }
    layout_v3::write_tail_3(file, at, h, bytes)
}

// A length and that of everything before the events.
pub fn add_front(l: Length, version: u8, h: Header, bytes: &[u8]) -> Length
    ensures { Measures (front_of version) h bytes.now l result }
{
    if version == 4 {
        return layout_lengths::add_front_4(l, h, bytes);
    }
    layout_lengths::add_front_3(l, h, bytes)
}

// A length and that of what stands behind the events.
pub fn add_tail(l: Length, version: u8, h: Header, bytes: &[u8]) -> Length
    ensures { Measures (tail_of version) h bytes.now l result }
{
    if version == 4 {
        return layout_lengths::add_tail_4(l, h, bytes);
    }
    layout_lengths::add_tail_3(l, h, bytes)
}
