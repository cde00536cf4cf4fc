// The header of a game for a person: a line for each value.
#![tactic(auto)]

ghost use Rattle.byte_writer.specs.Places.{Writes};
ghost use Rattle.shown_header.specs.Lines.{names_shown, translation_shown, translation_if_any, values_shown};
ghost use Rattle.shown_header.specs.Lines.{flags_shown, header_shown};

use forms::write_filled;
use game::{
    CHECKSUM, COUNTRY, DEVICE_ID, Header, ORIGINAL_ENCODING, PLAYER, RACE, SOFTWARE,
    TRANSLATED_SOFTWARE, UNIQUE_ID, text_of,
};

// Who played, and with what.
fn write_names(out: &mut [u8], at: usize, file: &[u8], h: Header) -> usize
    ensures { Writes out.old out.new at (names_shown file.now h) result }
{
    let slots = [
        PLAYER as u64,
        RACE as u64,
        UNIQUE_ID as u64,
        COUNTRY as u64,
        SOFTWARE as u64,
    ];
    write_filled(
        out,
        at,
        b"player               $\n\
        race                 $\n\
        unique id            $\n\
        country              $\n\
        software             $\n",
        &slots,
        file,
        h,
    )
}

// The two texts of a translation.
fn write_translation(out: &mut [u8], at: usize, file: &[u8], h: Header) -> usize
    ensures { Writes out.old out.new at (translation_shown file.now h) result }
{
    let slots = [TRANSLATED_SOFTWARE as u64, ORIGINAL_ENCODING as u64];
    write_filled(
        out,
        at,
        b"translated software  $\n\
        original encoding    $\n",
        &slots,
        file,
        h,
    )
}

// The device, the board's sizes, and when it was played.
fn write_values(out: &mut [u8], at: usize, file: &[u8], h: Header) -> usize
    ensures { Writes out.old out.new at (values_shown file.now h) result }
{
    let time = h.rtime_ms;
    let start = h.start_time;
    let end = h.end_time;
    let values = [
        DEVICE_ID as u64,
        h.version as u64,
        h.level as u64,
        h.height as u64,
        h.width as u64,
        h.mine_num as u64,
        h.mines_found as u64,
        h.cell_pixel_size as u64,
        h.mode as u64,
        h.bbbv as u64,
        time.0 as u64,
        start.0,
        end.0,
    ];
    let form = b"device id            $\n\
        version              #\n\
        level                %\n\
        board                # rows, # columns, # mines\n\
        mines on the board   #\n\
        cell size            # pixels\n\
        mode                 #\n\
        3BV                  #\n\
        time                 @ s\n\
        start                # microseconds\n\
        end                  # microseconds\n";
    write_filled(out, at, form, &values, file, h)
}

// The flags, the number of the checksum's bytes and that of the events.
fn write_flags(out: &mut [u8], at: usize, file: &[u8], h: Header, events: usize) -> usize
    ensures { Writes out.old out.new at (flags_shown file.now h events) result }
{
    let values = [
        h.is_completed as u64,
        h.is_official as u64,
        h.is_fair as u64,
        h.nf as u64,
        h.translated as u64,
        h.use_question as u64,
        h.use_cursor_pos_lim as u64,
        h.use_auto_replay as u64,
        text_of(h, file, CHECKSUM).len() as u64,
        events as u64,
    ];
    write_filled(
        out,
        at,
        b"completed            ?\n\
        official             ?\n\
        fair                 ?\n\
        no flags             ?\n\
        translated           ?\n\
        question marks       ?\n\
        cursor limit         ?\n\
        auto replay          ?\n\
        checksum             # bytes\n\
        events               #\n",
        &values,
        file,
        h,
    )
}

// The two texts of a translation in version 4, where there is one.
#[tactic(auto, unfolding(crate::specs::Lines::translation_if_any))]
fn write_translation_if_any(out: &mut [u8], at: usize, file: &[u8], h: Header) -> usize
    ensures { Writes out.old out.new at (translation_if_any file.now h) result }
{
    if h.version == 4 && h.translated {
        return write_translation(out, at, file, h);
    }
    at
}

// Every value of the header.
pub fn write_header(out: &mut [u8], file: &[u8], h: Header, events: usize) -> usize
    ensures { Writes out.old out.new 0 (header_shown file.now h events) result }
{
    let at = write_names(out, 0, file, h);
    let at = write_translation_if_any(out, at, file, h);
    let at = write_values(out, at, file, h);
    write_flags(out, at, file, h, events)
}
