// The line of an event, written into a lent buffer: its name and its numbers, parted by tabs. What does not
// fit is dropped, as everywhere in `byte_writer`.
#![tactic(auto)]

ghost use Rattle.byte_writer.specs.Places.{Writes};
ghost use Rattle.event_lines.specs.Lines.{letters, mouse_line, state_line, event_line, three_columns};

use byte_writer::{write_bytes, write_u8};
use game::{Event, GameState, MouseKind};
use lines::write_column;
use names::Name;
use text::Place;
use times::{HALVES_AWAY, rounded_ms};

// Each of these writes a line or fields from a place on and answers the place behind them.

pub fn write_name(out: &mut [u8], at: usize, name: Name) -> usize
    ensures { Writes out.old out.new at (letters name) result }
{
    let bytes = name.bytes;
    let place = Place {
        start: 0,
        len: name.len,
    };
    write_bytes(out, at, text::part(&bytes, place))
}

// Three numbers, each behind a tab.
pub fn write_columns(out: &mut [u8], at: usize, a: u64, b: u64, c: u64) -> usize
    ensures { Writes out.old out.new at (three_columns a b c) result }
{
    let second = write_column(out, at, a);
    let third = write_column(out, second, b);
    write_column(out, third, c)
}

fn write_mouse(out: &mut [u8], at: usize, kind: MouseKind, ms: u32, x: u16, y: u16) -> usize
    ensures { Writes out.old out.new at (mouse_line kind ms x y) result }
{
    let time = write_name(out, at, names::kind_name(kind));
    let end = write_columns(out, time, ms as u64, x as u64, y as u64);
    write_u8(out, end, b'\n')
}

fn write_state(out: &mut [u8], at: usize, state: GameState, ms: u32) -> usize
    ensures { Writes out.old out.new at (state_line state ms) result }
{
    let time = write_name(out, at, names::state_name(state));
    let end = write_column(out, time, ms as u64);
    write_u8(out, end, b'\n')
}

pub fn write_event(out: &mut [u8], at: usize, event: Event) -> usize
    ensures { Writes out.old out.new at (event_line event) result }
{
    match event {
        Event::Mouse {
            seconds,
            kind,
            x,
            y,
        } => {
            let ms = rounded_ms(seconds, HALVES_AWAY);
            write_mouse(out, at, kind, ms.0, x, y)
        }
        Event::State { seconds, state } => {
            let ms = rounded_ms(seconds, HALVES_AWAY);
            write_state(out, at, state, ms.0)
        }
    }
}
