// The fields that both versions have, each written from a place on; the answer is the place behind it.
#![tactic(auto)]

ghost use Rattle.std.specs.Prelude.{◌≡◌, ◌%◌, ◌≤◌};
ghost use Rattle.board.specs.Bits.{packed};
ghost use Rattle.board.specs.Geometry.{mine_at};
ghost use Rattle.byte_writer.specs.Places.{Writes};
ghost use Rattle.byte_writer.specs.Fields.{zero_ended, counted};
ghost use Rattle.layout_fields.specs.Fields.{bit, first_flags, flags4, second_flags, start_bytes};
ghost use Rattle.layout_fields.specs.Fields.{cell_count};
ghost use Rattle.game.specs.Header.{text_at};

use byte_writer::{write_bytes, write_c_string, write_u8, write_u16};
use game::{Header, text_of};

// The low bits of a number.
pub fn low_u8(n: usize) -> u8
    ensures { result ≡ n % 256 }
{
    (n % 256) as u8
}

pub fn low_u16(n: usize) -> u16
    ensures { result ≡ n % 65536 }
{
    (n % 65536) as u16
}

// A text and the 00 that ends it.
pub fn write_text(file: &mut [u8], at: usize, h: Header, bytes: &[u8], slot: usize) -> usize
    ensures { Writes file.old file.new at
        (zero_ended (text_at h bytes.now slot)) result }
{
    write_c_string(file, at, text_of(h, bytes, slot))
}

// A u16 and that many bytes of a text.
pub fn write_counted(file: &mut [u8], at: usize, h: Header, bytes: &[u8], slot: usize) -> usize
    ensures { Writes file.old file.new at (counted (text_at h bytes.now slot)) result }
{
    let text = text_of(h, bytes, slot);
    let next = write_u16(file, at, low_u16(text.len()));
    write_bytes(file, next, text)
}

// A flag's mask where it is set.
fn bit_of(set: bool, mask: u8) -> u8
    ensures { (result ≡ bit set mask) × (result ≤ mask) }
{
    if set { mask } else { 0 }
}

// The first byte of flags, without translated.
pub fn first_flags(h: Header) -> u8
    ensures { (result ≡ first_flags h) × (result ≤ 240) }
{
    let a = bit_of(h.is_completed, 0x80);
    let b = bit_of(h.is_official, 0x40);
    let c = bit_of(h.is_fair, 0x20);
    let d = bit_of(h.nf, 0x10);
    a + (b + (c + d))
}

// The same with translated.
pub fn flags_4(h: Header) -> u8
    ensures { result ≡ flags4 h }
{
    first_flags(h) + bit_of(h.translated, 0x08)
}

fn second_flags(h: Header) -> u8
    ensures { result ≡ second_flags h }
{
    let a = bit_of(h.use_question, 0x80);
    let b = bit_of(h.use_cursor_pos_lim, 0x40);
    let c = bit_of(h.use_auto_replay, 0x20);
    a + (b + c)
}

// The version, the flags and the sizes, at the buffer's start.
pub fn write_start(file: &mut [u8], version: u8, flags: u8, h: Header) -> usize
    ensures { Writes file.old file.new 0 (start_bytes version flags h) result }
{
    let at = write_u8(file, 0, version);
    let at = write_u8(file, at, flags);
    let at = write_u8(file, at, second_flags(h));
    let at = write_u8(file, at, low_u8(h.height));
    let at = write_u8(file, at, low_u8(h.width));
    let at = write_u16(file, at, low_u16(h.mine_num));
    let at = write_u8(file, at, h.cell_pixel_size);
    let at = write_u16(file, at, h.mode);
    write_u16(file, at, low_u16(h.bbbv))
}

// The packed board.
pub fn write_board(file: &mut [u8], at: usize, h: Header, board: &[i8]) -> usize
    ensures { Writes file.old file.new at
        (packed (mine_at board.now) (cell_count h)) result }
{
    let height = low_u8(h.height);
    let width = low_u8(h.width);
    board::put_board(board, height, width, file, at);
    byte_writer::advance(at, board::packed_len(height, width))
}
