// How long the parts of a file are: each of these adds the length of a part to one that is known.
#![tactic(auto)]

ghost use Rattle.std.specs.Prelude.{◌≡◌, length};
ghost use Rattle.text.specs.Decimals.{decimal_bytes};
ghost use Rattle.board.specs.Bits.{packed_length};
ghost use Rattle.byte_writer.specs.Places.{plus_of};
ghost use Rattle.byte_writer.specs.Fields.{zero_ended, counted};
ghost use Rattle.layout_fields.specs.Fields.{cell_count};
ghost use Rattle.layout_v3.specs.Version3.{texts3, front3, tail3};
ghost use Rattle.layout_v4.specs.Version4.{translation_bytes, texts4, metrics_bytes, front4, tail4};
ghost use Rattle.layout_fields.specs.Parts.{Measures};
ghost use Rattle.game.specs.Header.{text_at};

use byte_writer::Length;
use game::{
    CHECKSUM, COUNTRY, DEVICE_ID, Header, ORIGINAL_ENCODING, PLAYER, RACE, SOFTWARE,
    TRANSLATED_SOFTWARE, UNIQUE_ID, metrics_block, text_of,
};
use layout_fields::low_u8;

// A text and its 00.
fn add_text(l: Length, h: Header, bytes: &[u8], slot: usize) -> Length
    ensures { result ≡ plus_of l (length (zero_ended (text_at h bytes.now slot))) }
{
    let text = text_of(h, bytes, slot);
    let l = l.plus(text.len());
    l.plus(1)
}

// A text and its length in two bytes.
fn add_counted(l: Length, h: Header, bytes: &[u8], slot: usize) -> Length
    ensures { result ≡ plus_of l (length (counted (text_at h bytes.now slot))) }
{
    let text = text_of(h, bytes, slot);
    let l = l.plus(text.len());
    l.plus(2)
}

// The packed board.
fn add_board(l: Length, h: Header) -> Length
    ensures { result ≡ plus_of l (packed_length (cell_count h)) }
{
    l.plus(board::packed_len(low_u8(h.height), low_u8(h.width)))
}

fn add_translation(l: Length, h: Header, bytes: &[u8]) -> Length
    ensures { Measures translation_bytes h bytes.now l result }
{
    if h.translated {
        let l = add_text(l, h, bytes, TRANSLATED_SOFTWARE);
        return add_text(l, h, bytes, ORIGINAL_ENCODING);
    }
    l.plus(0)
}

fn add_texts_4(l: Length, h: Header, bytes: &[u8]) -> Length
    ensures { Measures texts4 h bytes.now l result }
{
    let l = add_text(l, h, bytes, SOFTWARE);
    let l = add_translation(l, h, bytes);
    let l = add_text(l, h, bytes, PLAYER);
    let l = add_text(l, h, bytes, RACE);
    let l = add_text(l, h, bytes, UNIQUE_ID);
    add_counted(l, h, bytes, DEVICE_ID)
}

// The count of the custom metrics in two bytes, and their block.
fn add_metrics(l: Length, h: Header, bytes: &[u8]) -> Length
    ensures { Measures metrics_bytes h bytes.now l result }
{
    let block = metrics_block(h, bytes);
    let l = l.plus(block.len());
    l.plus(2)
}

// 34 bytes of numbers and the country, the texts, the board and the custom metrics.
pub fn add_front_4(l: Length, h: Header, bytes: &[u8]) -> Length
    ensures { Measures front4 h bytes.now l result }
{
    let l = l.plus(34);
    let l = add_texts_4(l, h, bytes);
    let l = add_board(l, h);
    add_metrics(l, h, bytes)
}

pub fn add_tail_4(l: Length, h: Header, bytes: &[u8]) -> Length
    ensures { Measures tail4 h bytes.now l result }
{
    let l = l.plus(1);
    add_counted(l, h, bytes, CHECKSUM)
}

// A number in decimal and its 00.
fn add_decimal(l: Length, n: u64) -> Length
    ensures { result ≡ plus_of l (length (zero_ended (decimal_bytes n))) }
{
    let l = l.plus(text::decimal_len(n));
    l.plus(1)
}

fn add_texts_3(l: Length, h: Header, bytes: &[u8]) -> Length
    ensures { Measures texts3 h bytes.now l result }
{
    let l = add_text(l, h, bytes, SOFTWARE);
    let l = add_text(l, h, bytes, PLAYER);
    let l = add_text(l, h, bytes, RACE);
    let l = add_text(l, h, bytes, UNIQUE_ID);
    let l = add_decimal(l, h.start_time.0);
    let l = add_decimal(l, h.end_time.0);
    let l = add_text(l, h, bytes, COUNTRY);
    add_text(l, h, bytes, DEVICE_ID)
}

// 15 bytes of numbers, the texts and the board.
pub fn add_front_3(l: Length, h: Header, bytes: &[u8]) -> Length
    ensures { Measures front3 h bytes.now l result }
{
    let l = l.plus(15);
    let l = add_texts_3(l, h, bytes);
    add_board(l, h)
}

pub fn add_tail_3(l: Length, h: Header, bytes: &[u8]) -> Length
    ensures { Measures tail3 h bytes.now l result }
{
    let checksum = text_of(h, bytes, CHECKSUM);
    let l = l.plus(1);
    l.plus(checksum.len())
}
