// The header of versions 0 to 3, from the flags to the board.
#![tactic(auto)]

ghost use Rattle.std.specs.Prelude.{◌≡◌};
ghost use Rattle.byte_reader.specs.Cursor.{Gives};
ghost use Rattle.header_v0_v3.specs.Front.{old_texts, old_times, old_device, with_old, old_front};

use byte_reader::{ByteReader, Read};
use header_fields::{Front, ReadFront, Span, Texts, read_flags, read_sizes};
use header_software::{Times, begins_yuan, times_of};
use text::{ABSENT, Place};
use times::{CalendarUs, GameMs};

// The texts of versions 0 to 3 that come before their times can be judged.
#[derive(Clone, Copy)]
pub struct OldTexts {
    pub software: Place,
    pub player: Place,
    pub race: Place,
    pub unique_id: Place,
    pub start: Place,
    pub end: Place,
}

#[derive(Clone, Copy)]
pub struct ReadOldTexts {
    pub value: OldTexts,
    pub next: ByteReader,
}

// A span and the cursor behind it. The span is 0 and 0 where the times are refused here; behind a cursor that
// was refused before, it is still what the texts tell, and means nothing.
#[derive(Clone, Copy)]
pub struct ReadSpan {
    pub value: Span,
    pub next: ByteReader,
}

// Reads the six texts from the software to the end text, by which 4 to 6 are judged.
pub fn read_old_texts(file: &[u8], c: ByteReader) -> ReadOldTexts
    ensures { Gives old_texts file.now c result.value result.next }
{
    let software = c.get_utf8_c_string(file);
    let player = software.next.get_c_buffer(file);
    let race = player.next.get_c_buffer(file);
    let id = race.next.get_c_buffer(file);
    let start = id.next.get_utf8_c_string(file);
    let end = start.next.get_utf8_c_string(file);
    ReadOldTexts {
        value: OldTexts {
            software: software.value,
            player: player.value,
            race: race.value,
            unique_id: id.value,
            start: start.value,
            end: end.value,
        },
        next: end.next,
    }
}

// Judges when the game started and ended, by the texts `words` and its time: 4, 5 or 6. Reads nothing; `c`
// stands behind the end text.
pub fn read_old_times(file: &[u8], words: OldTexts, time: GameMs, c: ByteReader) -> ReadSpan
    ensures { Gives (old_times words time) file.now c result.value result.next }
{
    match times_of(
        text::part(file, words.software),
        text::part(file, words.start),
        text::part(file, words.end),
        time,
    ) {
        Times::Known(span) => ReadSpan {
            value: span,
            next: c,
        },
        Times::Refused(why) => ReadSpan {
            value: Span {
                start: CalendarUs(0),
                end: CalendarUs(0),
            },
            next: c.refuse_if(true, why),
        },
    }
}

// Reads the device id, which versions 0 and 1 have not: there it is absent, and nothing is read.
pub fn read_old_device(file: &[u8], version: u8, c: ByteReader) -> Read<Place>
    ensures { Gives (old_device version) file.now c result.value result.next }
{
    if version < 2 {
        return Read {
            value: ABSENT,
            next: c,
        };
    }
    c.get_c_buffer(file)
}

// Puts the texts of versions 0 to 3 together. Those of a translation are absent.
pub fn old_texts(old: OldTexts, country: Place, device: Place) -> Texts
    ensures { result ≡ with_old old country device }
{
    Texts {
        software: old.software,
        translated_software: ABSENT,
        original_encoding: ABSENT,
        player: old.player,
        race: old.race,
        unique_id: old.unique_id,
        country,
        device_id: device,
    }
}

// Reads the header of versions 0 to 3 from the flags up to the board.
pub fn read_old(file: &[u8], version: u8, c: ByteReader) -> ReadFront
    ensures { Gives (old_front version) file.now c result.value result.next }
{
    let flags = read_flags(file, version, c);
    let sizes = read_sizes(file, flags.next);
    let time = sizes.next.get_u24(file);
    let words = read_old_texts(file, time.next);
    let old = words.value;
    let span = read_old_times(file, old, GameMs(time.value), words.next);
    let country = span.next.get_c_buffer(file);
    let device = read_old_device(file, version, country.next);
    ReadFront {
        value: Front {
            flags: flags.value,
            sizes: sizes.value,
            time: GameMs(time.value),
            span: span.value,
            translated: !begins_yuan(text::part(file, old.software)),
            texts: old_texts(old, country.value, device.value),
        },
        next: device.next,
    }
}
