// The record of a mouse event, in either layout. Each function writes from a place on and answers the place
// behind.
ghost use Rattle.std.specs.Prelude.{◌++◌};
ghost use Rattle.byte_reader.specs.Numbers.{bytes_of};
ghost use Rattle.byte_writer.specs.Places.{Writes};
ghost use Rattle.mouse_records.specs.Records.{record3, record4};
ghost use Rattle.mouse_records.specs.MouseRecords.{mouse_bytes};

use crate::pauses::{put_pauses, wait_of};
use crate::{Last, difference};
use byte_writer::{write_u8, write_u16, write_u24};
use game::MouseKind;

fn put_two(out: &mut [u8], at: usize, x: u16, y: u16) -> usize
    ensures { Writes out.old out.new at (bytes_of 2 x ++ bytes_of 2 y) result }
{
    let next = write_u16(out, at, x);
    write_u16(out, next, y)
}

// A record of version 3.
fn put_record_3(out: &mut [u8], at: usize, kind: MouseKind, to: Last) -> usize
    ensures { Writes out.old out.new at (record3 kind to.ms.0 to.x to.y) result }
{
    let ms_at = write_u8(out, at, u8::from(kind));
    let x_at = write_u24(out, ms_at, to.ms.0);
    put_two(out, x_at, to.x, to.y)
}

// The pauses before a record of version 4, and the record.
fn put_record_4(out: &mut [u8], at: usize, last: Last, kind: MouseKind, to: Last) -> usize
    ensures { Writes out.old out.new at (record4 last kind to.ms.0 to.x to.y) result }
{
    let paused = put_pauses(out, at, wait_of(last.ms, to.ms));
    let ms_at = write_u8(out, paused.at, u8::from(kind));
    let x_at = write_u8(out, ms_at, paused.rest);
    put_two(
        out,
        x_at,
        difference(last.x, to.x),
        difference(last.y, to.y),
    )
}

// A mouse event in a version's layout, where `last` is the one before it.
pub fn put_mouse(
    out: &mut [u8],
    at: usize,
    version: u8,
    last: Last,
    kind: MouseKind,
    to: Last,
) -> usize
    ensures { Writes out.old out.new at (mouse_bytes version last kind to) result }
{
    if version == 4 {
        return put_record_4(out, at, last, kind, to);
    }
    put_record_3(out, at, kind, to)
}
