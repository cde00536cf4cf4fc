// Version 4, but for its events.
#![tactic(auto)]

ghost use Rattle.std.specs.Prelude.{[]};
ghost use Rattle.game.specs.Header.{country_slot, text_at};
ghost use Rattle.game.specs.Country.{two_letters};
ghost use Rattle.byte_writer.specs.Places.{Writes};
ghost use Rattle.layout_v4.specs.Version4.{translation_bytes, texts4, metrics_bytes, front4, tail4};
ghost use Rattle.layout_fields.specs.Parts.{part_of};

use byte_writer::{write_bytes, write_u8, write_u16, write_u32, write_u64};
use game::{
    CHECKSUM, COUNTRY, Country, DEVICE_ID, Header, ORIGINAL_ENCODING, PLAYER, RACE, SOFTWARE,
    TRANSLATED_SOFTWARE, UNIQUE_ID, metrics_block, text_of,
};
use layout_fields::{flags_4, write_board, write_counted, write_start, write_text};

// The country's two letters.
fn write_country(file: &mut [u8], at: usize, h: Header, bytes: &[u8]) -> usize
    ensures { Writes file.old file.new at
        (two_letters (text_at h bytes.now country_slot)) result }
{
    let Country(first, second) = game::two_letters(text_of(h, bytes, COUNTRY));
    let next = write_u8(file, at, first);
    write_u8(file, next, second)
}

// The two texts of a translation, where there is one.
fn write_translation(file: &mut [u8], at: usize, h: Header, bytes: &[u8]) -> usize
    ensures { Writes file.old file.new at
        (part_of translation_bytes h bytes.now []) result }
{
    if h.translated {
        let next = write_text(file, at, h, bytes, TRANSLATED_SOFTWARE);
        return write_text(file, next, h, bytes, ORIGINAL_ENCODING);
    }
    at
}

// From the software to the device id.
fn write_texts_4(file: &mut [u8], at: usize, h: Header, bytes: &[u8]) -> usize
    ensures { Writes file.old file.new at (part_of texts4 h bytes.now []) result }
{
    let at = write_text(file, at, h, bytes, SOFTWARE);
    let at = write_translation(file, at, h, bytes);
    let at = write_text(file, at, h, bytes, PLAYER);
    let at = write_text(file, at, h, bytes, RACE);
    let at = write_text(file, at, h, bytes, UNIQUE_ID);
    write_counted(file, at, h, bytes, DEVICE_ID)
}

// The custom metrics: their count and their block.
fn write_metrics(file: &mut [u8], at: usize, h: Header, bytes: &[u8]) -> usize
    ensures { Writes file.old file.new at
        (part_of metrics_bytes h bytes.now []) result }
{
    let at = write_u16(file, at, h.metrics_count);
    write_bytes(file, at, metrics_block(h, bytes))
}

// Everything before the events.
pub fn write_front_4(file: &mut [u8], h: Header, bytes: &[u8], board: &[i8]) -> usize
    ensures { Writes file.old file.new 0
        (part_of front4 h bytes.now board.now) result }
{
    let at = write_start(file, 4, flags_4(h), h);
    let at = write_u32(file, at, h.rtime_ms.0);
    let at = write_country(file, at, h, bytes);
    let at = write_u64(file, at, h.start_time.0);
    let at = write_u64(file, at, h.end_time.0);
    let at = write_texts_4(file, at, h, bytes);
    let at = write_board(file, at, h, board);
    write_metrics(file, at, h, bytes)
}

// The end of the events and the checksum.
pub fn write_tail_4(file: &mut [u8], at: usize, h: Header, bytes: &[u8]) -> usize
    ensures { Writes file.old file.new at (part_of tail4 h bytes.now []) result }
{
    let at = write_u8(file, at, 0);
    write_counted(file, at, h, bytes, CHECKSUM)
}
