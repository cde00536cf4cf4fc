// Events in lines, as the cases of reading print them: fields parted by spaces, times by the bits of their
// seconds.
#![tactic(auto)]

use evf_events::{EventCursor, Step};
use game::Event;
use names::Name;
use printing::{Printer, say, say_field};
use std::io::Write;

fn show_name(printer: &mut Printer<impl Write>, name: Name) {
    let bytes = name.bytes;
    printing::say_first(printer, &bytes, name.len);
}

fn show_time(printer: &mut Printer<impl Write>, seconds: f64) {
    say(printer, b" ");
    printing::show_bits(printer, seconds);
}

fn show_event(printer: &mut Printer<impl Write>, event: Event) {
    match event {
        Event::Mouse {
            seconds,
            kind,
            x,
            y,
        } => {
            show_name(printer, names::kind_name(kind));
            show_time(printer, seconds);
            say_field(printer, x as u64);
            say_field(printer, y as u64);
        }
        Event::State { seconds, state } => {
            show_name(printer, names::state_name(state));
            show_time(printer, seconds);
        }
    }
    say(printer, b"\n");
}

// Shows the events from a cursor on, a line each, `most` of them or as many as there are.
pub fn show_events(printer: &mut Printer<impl Write>, file: &[u8], from: EventCursor, most: usize) {
    let mut c = from;
    for _ in 0..most {
        let Step::Got(event, next) = c.step(file) else {
            return;
        };
        show_event(printer, event);
        c = next;
    }
}
