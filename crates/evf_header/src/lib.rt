// Everything of a replay file before its first event record, for versions 0 to 4: one line of fields along a
// cursor that keeps the first refusal, which is 1 to 7.
#![tactic(auto)]

ghost use Rattle.std.specs.Prelude.{◌≡◌};
ghost use Rattle.byte_reader.specs.Cursor.{Reads, Gives};
ghost use Rattle.evf_header.specs.Opening.{header_of, front_of, metrics_of, opening, blank_opening};

use byte_reader::ByteReader;
use game::Header;
use game::refusals::VERSION_UNKNOWN;
use header_fields::{Front, ReadFront, mask, read_board_place, texts_of};
use header_v0_v3::read_old;
use header_v4::read_new;
use metrics::{Metrics, ReadMetrics};
use text::{ABSENT, Place};

// A header, complete but for the checksum, the place of the packed board, and the cursor at the first event
// record. Where the file is refused the header is blank and the board at 0, 0.
#[derive(Clone, Copy)]
pub struct Opening {
    pub header: Header,
    pub board: Place,
    pub next: ByteReader,
}

// Reads the header up to the board, by the version.
fn read_front(file: &[u8], version: u8, c: ByteReader) -> ReadFront
    ensures { Gives (front_of version) file.now c result.value result.next }
{
    if version == 4 {
        return read_new(file, c);
    }
    read_old(file, version, c)
}

// Reads the custom metrics, which only version 4 has.
fn read_metrics(file: &[u8], version: u8, c: ByteReader) -> ReadMetrics
    ensures { Gives (metrics_of version) file.now c result.value result.next }
{
    if version == 4 {
        return metrics::read_metrics(file, c);
    }
    ReadMetrics {
        value: Metrics {
            count: 0,
            block: ABSENT,
        },
        next: c,
    }
}

// Makes the header of any version from what it tells in front of its board, the mines found on it, and the
// custom metrics behind it.
fn header_of(version: u8, t: Front, found: usize, m: Metrics) -> Header
    ensures { result ≡ header_of version t found m }
{
    let f = t.flags;
    let z = t.sizes;
    let height = usize::from(z.height);
    let width = usize::from(z.width);
    let mines = usize::from(z.mine_num);
    Header {
        version,
        is_completed: mask(f.first, 0x80),
        is_official: mask(f.first, 0x40),
        is_fair: mask(f.first, 0x20),
        nf: mask(f.first, 0x10),
        translated: t.translated,
        use_question: mask(f.second, 0x80),
        use_cursor_pos_lim: mask(f.second, 0x40),
        use_auto_replay: mask(f.second, 0x20),
        height,
        width,
        mine_num: mines,
        cell_pixel_size: z.cell_pixel_size,
        mode: z.mode,
        bbbv: usize::from(z.bbbv),
        rtime_ms: t.time,
        start_time: t.span.start,
        end_time: t.span.end,
        level: game::level_of(height, width, mines),
        mines_found: found,
        texts: texts_of(t.texts),
        metrics: m.block,
        metrics_count: m.count,
    }
}

// Reads a file up to its first event record; 1 to 7 where it is refused.
pub fn read_opening(file: &[u8]) -> Opening
    ensures { Reads blank_opening opening file.now (ByteReader.At 0)
        (record { header = result.header; board = result.board }) result.next }
{
    let version = ByteReader::At(0).get_u8(file);
    let v = version.value;
    let known = version.next.refuse_if(4 < v, VERSION_UNKNOWN);
    let front = read_front(file, v, known);
    let t = front.value;
    let z = t.sizes;
    let board = read_board_place(file, z.height, z.width, front.next);
    let metrics = read_metrics(file, v, board.next);
    match metrics.next {
        ByteReader::At(_) => {
            let found = board::mines_found(text::part(file, board.value), z.height, z.width);
            Opening {
                header: header_of(v, t, found, metrics.value),
                board: board.value,
                next: metrics.next,
            }
        }
        ByteReader::Refused(_) => Opening {
            header: game::blank_header(),
            board: ABSENT,
            next: metrics.next,
        },
    }
}
