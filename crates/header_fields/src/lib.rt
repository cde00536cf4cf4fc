// What the headers of all versions share: a value of several fields comes with the cursor behind it.
#![tactic(auto)]

ghost use Rattle.std.specs.Prelude.{◌≡◌};
ghost use Rattle.text.specs.Places.{absent};
ghost use Rattle.byte_reader.specs.Cursor.{Reads, Gives};
ghost use Rattle.header_fields.specs.Fields.{flag, flags, sizes, texts_of, board_bytes};

use byte_reader::{ByteReader, Read};
use game::refusals::HEIGHT_ZERO;
use text::{ABSENT, Place};
use times::{CalendarUs, GameMs};

// The flag bytes; the second is 0 in a version that has one only.
#[derive(Clone, Copy)]
pub struct Flags {
    pub first: u8,
    pub second: u8,
}

#[derive(Clone, Copy)]
pub struct ReadFlags {
    pub value: Flags,
    pub next: ByteReader,
}

#[derive(Clone, Copy)]
pub struct Sizes {
    pub height: u8,
    pub width: u8,
    pub mine_num: u16,
    pub cell_pixel_size: u8,
    pub mode: u16,
    pub bbbv: u16,
}

#[derive(Clone, Copy)]
pub struct ReadSizes {
    pub value: Sizes,
    pub next: ByteReader,
}

// When a game started and ended.
#[derive(Clone, Copy)]
pub struct Span {
    pub start: CalendarUs,
    pub end: CalendarUs,
}

// The texts of a header but for the checksum.
#[derive(Clone, Copy)]
pub struct Texts {
    pub software: Place,
    pub translated_software: Place,
    pub original_encoding: Place,
    pub player: Place,
    pub race: Place,
    pub unique_id: Place,
    pub country: Place,
    pub device_id: Place,
}

// What a header tells in front of its board.
#[derive(Clone, Copy)]
pub struct Front {
    pub flags: Flags,
    pub sizes: Sizes,
    pub time: GameMs,
    pub span: Span,
    pub translated: bool,
    pub texts: Texts,
}

#[derive(Clone, Copy)]
pub struct ReadFront {
    pub value: Front,
    pub next: ByteReader,
}

// Tells whether the bit of a mask, `bit`, is set in a byte of flags.
pub fn mask(flags: u8, bit: u8) -> bool
    ensures { result ≡ flag flags bit }
{
    flags & bit != 0
}

// Reads the flag bytes of a version: two from version 3 on; before, one, and the second is 0.
pub fn read_flags(file: &[u8], version: u8, c: ByteReader) -> ReadFlags
    ensures { Gives (flags version) file.now c result.value result.next }
{
    let first = c.get_u8(file);
    if version < 3 {
        return ReadFlags {
            value: Flags {
                first: first.value,
                second: 0,
            },
            next: first.next,
        };
    }
    let second = first.next.get_u8(file);
    ReadFlags {
        value: Flags {
            first: first.value,
            second: second.value,
        },
        next: second.next,
    }
}

// Reads the six numbers from the height to the 3BV, which stand alike in all versions.
pub fn read_sizes(file: &[u8], c: ByteReader) -> ReadSizes
    ensures { Gives sizes file.now c result.value result.next }
{
    let height = c.get_u8(file);
    let width = height.next.get_u8(file);
    let mines = width.next.get_u16(file);
    let pixels = mines.next.get_u8(file);
    let mode = pixels.next.get_u16(file);
    let bbbv = mode.next.get_u16(file);
    ReadSizes {
        value: Sizes {
            height: height.value,
            width: width.value,
            mine_num: mines.value,
            cell_pixel_size: pixels.value,
            mode: mode.value,
            bbbv: bbbv.value,
        },
        next: bbbv.next,
    }
}

// Reads the place of a board's packed bytes. A height of 0 is refused before any byte of it, with 7.
pub fn read_board_place(file: &[u8], height: u8, width: u8, c: ByteReader) -> Read<Place>
    ensures { Reads absent (board_bytes height width) file.now c result.value result.next }
{
    let known = c.refuse_if(height == 0, HEIGHT_ZERO);
    known.get_buffer(file, board::packed_len(height, width))
}

// Puts the texts of a header into the order of the nine. The checksum is absent: it is read behind the
// events.
pub fn texts_of(t: Texts) -> [Place; 9]
    ensures { result ≡ texts_of t }
{
    [
        t.software,
        t.translated_software,
        t.original_encoding,
        t.player,
        t.race,
        t.unique_id,
        t.country,
        t.device_id,
        ABSENT,
    ]
}
