// Version 3, but for its events.
#![tactic(auto)]

ghost use Rattle.std.specs.Prelude.{[]};
ghost use Rattle.byte_writer.specs.Places.{Writes};
ghost use Rattle.layout_v3.specs.Version3.{texts3, front3, tail3};
ghost use Rattle.layout_fields.specs.Parts.{part_of};

use byte_writer::{write_bytes, write_decimal, write_u8, write_u24};
use game::{CHECKSUM, COUNTRY, DEVICE_ID, Header, PLAYER, RACE, SOFTWARE, UNIQUE_ID, text_of};
use layout_fields::{first_flags, write_board, write_start, write_text};

// The byte that ends the events where no checksum follows.
const NO_CHECKSUM: u8 = 255;

// From the software to the device id.
fn write_texts_3(file: &mut [u8], at: usize, h: Header, bytes: &[u8]) -> usize
    ensures { Writes file.old file.new at (part_of texts3 h bytes.now []) result }
{
    let at = write_text(file, at, h, bytes, SOFTWARE);
    let at = write_text(file, at, h, bytes, PLAYER);
    let at = write_text(file, at, h, bytes, RACE);
    let at = write_text(file, at, h, bytes, UNIQUE_ID);
    let at = write_decimal(file, at, h.start_time.0);
    let at = write_decimal(file, at, h.end_time.0);
    let at = write_text(file, at, h, bytes, COUNTRY);
    write_text(file, at, h, bytes, DEVICE_ID)
}

// Everything before the events.
pub fn write_front_3(file: &mut [u8], h: Header, bytes: &[u8], board: &[i8]) -> usize
    ensures { Writes file.old file.new 0
        (part_of front3 h bytes.now board.now) result }
{
    let at = write_start(file, 3, first_flags(h), h);
    let at = write_u24(file, at, h.rtime_ms.0);
    let at = write_texts_3(file, at, h, bytes);
    write_board(file, at, h, board)
}

// The end of the events: 0 and the checksum, or `NO_CHECKSUM` where there is none.
pub fn write_tail_3(file: &mut [u8], at: usize, h: Header, bytes: &[u8]) -> usize
    ensures { Writes file.old file.new at (part_of tail3 h bytes.now []) result }
{
    let checksum = text_of(h, bytes, CHECKSUM);
    if checksum.is_empty() {
        return write_u8(file, at, NO_CHECKSUM);
    }
    let next = write_u8(file, at, 0);
    write_bytes(file, next, checksum)
}
