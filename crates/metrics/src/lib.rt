// The custom metrics of version 4: so many texts one behind the other, each UTF-8 and ended by 00. They are
// read from a file, and a block that is to be written is judged by the same reading.
#![tactic(auto)]

ghost use Rattle.std.specs.Prelude.{◌≡◌};
ghost use Rattle.byte_reader.specs.Cursor.{Gives};
ghost use Rattle.metrics.specs.Block.{texts, between, custom_metrics, are_texts};

use byte_reader::ByteReader;
use text::{ABSENT, Place};

// How many texts there are, and the place of the block that they stand in, the 00 behind the last one
// included.
#[derive(Clone, Copy)]
pub struct Metrics {
    pub count: u16,
    pub block: Place,
}

#[derive(Clone, Copy)]
pub struct ReadMetrics {
    pub value: Metrics,
    pub next: ByteReader,
}

// Passes over so many texts.
fn skip_texts(file: &[u8], count: u16, c: ByteReader) -> ByteReader
    ensures { Gives (texts count) file.now c tt result }
{
    let mut next = c;
    for _ in 0..count {
        next = next.get_utf8_c_string(file).next;
    }
    next
}

// The place from one cursor to another, which is not before it; absent where reading was refused.
#[tactic(auto, unfolding(crate::specs::Block::between))]
fn place_between(from: ByteReader, to: ByteReader) -> Place
    ensures { result ≡ between from to }
{
    match (from, to) {
        (ByteReader::At(start), ByteReader::At(end)) => Place {
            start,
            len: end.saturating_sub(start),
        },
        _ => ABSENT,
    }
}

// Reads a count and that many texts.
pub fn read_metrics(file: &[u8], c: ByteReader) -> ReadMetrics
    ensures { Gives custom_metrics file.now c result.value result.next }
{
    let n = c.get_u16(file);
    let next = skip_texts(file, n.value, n.next);
    ReadMetrics {
        value: Metrics {
            count: n.value,
            block: place_between(n.next, next),
        },
        next,
    }
}

// Tells whether a block is exactly so many texts.
pub fn are_texts(count: u16, block: &[u8]) -> bool
    ensures { result ≡ are_texts count block.now }
{
    match skip_texts(block, count, ByteReader::At(0)) {
        ByteReader::At(end) => end == block.len(),
        ByteReader::Refused(_) => false,
    }
}
