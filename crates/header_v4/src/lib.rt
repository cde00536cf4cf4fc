// The header of version 4, from the flags to the board.
#![tactic(auto)]

ghost use Rattle.byte_reader.specs.Cursor.{Gives};
ghost use Rattle.header_v4.specs.Front.{translation, new_texts, new_front};

use byte_reader::ByteReader;
use header_fields::{Front, ReadFront, Span, Texts, mask, read_flags, read_sizes};
use text::{ABSENT, Place};
use times::{CalendarUs, GameMs};

// Two texts that are there together or not at all.
#[derive(Clone, Copy)]
pub struct Translation {
    pub software: Place,
    pub encoding: Place,
}

#[derive(Clone, Copy)]
pub struct ReadTranslation {
    pub value: Translation,
    pub next: ByteReader,
}

#[derive(Clone, Copy)]
pub struct ReadTexts {
    pub value: Texts,
    pub next: ByteReader,
}

// Reads the two texts of a translation; both are absent, and nothing is read, where `translated` is false.
pub fn read_translation(file: &[u8], translated: bool, c: ByteReader) -> ReadTranslation
    ensures { Gives (translation translated) file.now c result.value result.next }
{
    if translated {
        let software = c.get_utf8_c_string(file);
        let encoding = software.next.get_utf8_c_string(file);
        return ReadTranslation {
            value: Translation {
                software: software.value,
                encoding: encoding.value,
            },
            next: encoding.next,
        };
    }
    ReadTranslation {
        value: Translation {
            software: ABSENT,
            encoding: ABSENT,
        },
        next: c,
    }
}

// Reads the texts of version 4 from the software to the device id. The country stands before them and is
// handed over.
pub fn read_new_texts(file: &[u8], country: Place, translated: bool, c: ByteReader) -> ReadTexts
    ensures { Gives (new_texts country translated) file.now c result.value result.next }
{
    let software = c.get_utf8_c_string(file);
    let two = read_translation(file, translated, software.next);
    let player = two.next.get_utf8_c_string(file);
    let race = player.next.get_utf8_c_string(file);
    let id = race.next.get_utf8_c_string(file);
    let device = id.next.get_counted(file);
    ReadTexts {
        value: Texts {
            software: software.value,
            translated_software: two.value.software,
            original_encoding: two.value.encoding,
            player: player.value,
            race: race.value,
            unique_id: id.value,
            country,
            device_id: device.value,
        },
        next: device.next,
    }
}

// Reads the header of version 4 from the flags up to the board.
pub fn read_new(file: &[u8], c: ByteReader) -> ReadFront
    ensures { Gives new_front file.now c result.value result.next }
{
    let flags = read_flags(file, 4, c);
    let sizes = read_sizes(file, flags.next);
    let time = sizes.next.get_u32(file);
    let country = time.next.get_utf8_string(file, 2);
    let start = country.next.get_u64(file);
    let end = start.next.get_u64(file);
    let translated = mask(flags.value.first, 0x08);
    let texts = read_new_texts(file, country.value, translated, end.next);
    ReadFront {
        value: Front {
            flags: flags.value,
            sizes: sizes.value,
            time: GameMs(time.value),
            span: Span {
                start: CalendarUs(start.value),
                end: CalendarUs(end.value),
            },
            translated,
            texts: texts.value,
        },
        next: texts.next,
    }
}
