// Reads a game as it is framed in the input of the programs that write it (tools/make_writes.py): the
// header's fields one by one, then the lent bytes and the board, which `framing` reads, then the row, 13
// bytes for each entry.
#![tactic(auto)]

ghost use Rattle.std.specs.Prelude.{◌≡◌};
ghost use Rattle.std.specs.Iterator.{at_most};
ghost use Rattle.header_fields.specs.Fields.{flag};
ghost use Rattle.byte_reader.specs.Cursor.{Gives};
ghost use Rattle.framed_games.specs.Games.{signed_cell, event_of, entry};
ghost use Rattle.framed_games.specs.Layout.{flags_field, sizes_fields, times_fields, other_fields, places};
ghost use Rattle.framed_games.specs.Layout.{metrics_fields, header_fields, row_head, row_bytes};

use byte_reader::ByteReader;
use game::{Event, GameState, Header, MouseKind};
use text::Place;
use times::{CalendarUs, GameMs};

// The bytes of an entry of the row.
const ENTRY_BYTES: usize = 13;

// A header so far, and the cursor behind what was read of it.
#[derive(Clone, Copy)]
pub struct ReadHeader {
    pub header: Header,
    pub next: ByteReader,
}

// Whether a byte of flags has one of the bits of a mask.
fn is_set(flags: u8, mask: u8) -> bool
    ensures { result ≡ flag flags mask }
{
    flags & mask != 0
}

// The header that is blank but for the eight flags in a byte, the high bit first.
fn flagged(b: u8) -> Header {
    let mut h = game::blank_header();
    h.is_completed = is_set(b, 128);
    h.is_official = is_set(b, 64);
    h.is_fair = is_set(b, 32);
    h.nf = is_set(b, 16);
    h.translated = is_set(b, 8);
    h.use_question = is_set(b, 4);
    h.use_cursor_pos_lim = is_set(b, 2);
    h.use_auto_replay = is_set(b, 1);
    h
}

// Reads the eight flags into a header that is blank else.
fn read_flags(input: &[u8], from: ByteReader) -> ReadHeader
    ensures { Gives flags_field input.now from tt result.next }
{
    let flags = from.get_u8(input);
    ReadHeader {
        header: flagged(flags.value),
        next: flags.next,
    }
}

// Reads height, width, mines and 3BV, the pixels of a cell and the mode.
fn read_sizes(input: &[u8], from: ReadHeader) -> ReadHeader
    ensures { Gives sizes_fields input.now from.next tt result.next }
{
    let c = from.next;
    let height = c.get_u64(input);
    let c = height.next;
    let width = c.get_u64(input);
    let c = width.next;
    let mines = c.get_u64(input);
    let c = mines.next;
    let bbbv = c.get_u64(input);
    let c = bbbv.next;
    let pixels = c.get_u8(input);
    let c = pixels.next;
    let mode = c.get_u16(input);
    let c = mode.next;
    let mut h = from.header;
    h.height = height.value as usize;
    h.width = width.value as usize;
    h.mine_num = mines.value as usize;
    h.bbbv = bbbv.value as usize;
    h.cell_pixel_size = pixels.value;
    h.mode = mode.value;
    ReadHeader { header: h, next: c }
}

// Reads the time, the start and the end.
fn read_times(input: &[u8], from: ReadHeader) -> ReadHeader
    ensures { Gives times_fields input.now from.next tt result.next }
{
    let c = from.next;
    let time = c.get_u32(input);
    let c = time.next;
    let start = c.get_u64(input);
    let c = start.next;
    let end = c.get_u64(input);
    let c = end.next;
    let time = GameMs(time.value);
    let start = CalendarUs(start.value);
    let end = CalendarUs(end.value);
    let mut h = from.header;
    h.rtime_ms = time;
    h.start_time = start;
    h.end_time = end;
    ReadHeader { header: h, next: c }
}

// Reads what no writer looks at: the game's own version, its level, the mines found.
fn read_others(input: &[u8], from: ReadHeader) -> ReadHeader
    ensures { Gives other_fields input.now from.next tt result.next }
{
    let c = from.next;
    let version = c.get_u8(input);
    let c = version.next;
    let level = c.get_u8(input);
    let c = level.next;
    let found = c.get_u64(input);
    let c = found.next;
    let mut h = from.header;
    h.version = version.value;
    h.level = level.value;
    h.mines_found = found.value as usize;
    ReadHeader { header: h, next: c }
}

// Reads the places of the nine texts, start and length each.
fn read_places(input: &[u8], from: ReadHeader) -> ReadHeader
    ensures { Gives (places 9) input.now from.next tt result.next }
{
    let mut texts = [text::ABSENT; 9];
    let mut c = from.next;
    for place in texts.iter_mut() {
        let start = c.get_u64(input);
        let d = start.next;
        let len = d.get_u64(input);
        *place = Place {
            start: start.value as usize,
            len: len.value as usize,
        };
        c = len.next;
    }
    let mut h = from.header;
    h.texts = texts;
    ReadHeader { header: h, next: c }
}

// Reads the place of the custom metrics, start and length, and their count.
fn read_metrics(input: &[u8], from: ReadHeader) -> ReadHeader
    ensures { Gives metrics_fields input.now from.next tt result.next }
{
    let c = from.next;
    let start = c.get_u64(input);
    let c = start.next;
    let len = c.get_u64(input);
    let c = len.next;
    let count = c.get_u16(input);
    let c = count.next;
    let block = Place {
        start: start.value as usize,
        len: len.value as usize,
    };
    let mut h = from.header;
    h.metrics = block;
    h.metrics_count = count.value;
    ReadHeader { header: h, next: c }
}

// Reads a whole header, as `header_fields` says.
pub fn read_header(input: &[u8], from: ByteReader) -> ReadHeader
    ensures { Gives header_fields input.now from tt result.next }
{
    let h = read_flags(input, from);
    let h = read_sizes(input, h);
    let h = read_times(input, h);
    let h = read_others(input, h);
    let h = read_places(input, h);
    read_metrics(input, h)
}

// The cell of a byte: two's complement.
fn signed_cell(b: u8) -> i8
    ensures { result ≡ signed_cell b }
{
    b.cast_signed()
}

// Puts a cell for each byte, as far as there are cells, and answers these; the cells behind them stay.
pub fn put_cells<'a>(cells: &'a mut [i8], bytes: &[u8]) -> &'a [i8] {
    for (cell, b) in cells.iter_mut().zip(bytes) {
        *cell = signed_cell(*b);
    }
    &cells[..bytes.len().min(cells.len())]
}

// An entry of the row, and the cursor behind it.
#[derive(Clone, Copy)]
pub struct Entry {
    pub event: Event,
    pub next: ByteReader,
}

// The event of an entry: that of a state's code, or else of a mouse kind's.
fn event_of(code: u8, seconds: f64, x: u16, y: u16) -> Event
    ensures { result ≡ event_of code seconds x y }
{
    match GameState::from_code(code) {
        Some(state) => Event::State { seconds, state },
        None => Event::Mouse {
            seconds,
            kind: MouseKind::from(code),
            x,
            y,
        },
    }
}

// Reads one entry of the row, as `entry` says.
pub fn read_entry(input: &[u8], from: ByteReader) -> Entry
    ensures { Gives entry input.now from result.event result.next }
{
    let code = from.get_u8(input);
    let c = code.next;
    let bits = c.get_u64(input);
    let c = bits.next;
    let x = c.get_u16(input);
    let c = x.next;
    let y = c.get_u16(input);
    let c = y.next;
    let e = event_of(code.value, framing::float_of(bits.value), x.value, y.value);
    Entry { event: e, next: c }
}

// The row as it lies in the input: where its entries start, how many there are, and how many bytes are taken
// to be counted before them.
#[derive(Clone, Copy)]
pub struct Row {
    pub at: ByteReader,
    pub entries: u32,
    pub counted: u64,
}

impl Row {
    // The events of its entries, which lie in the input.
    pub fn events(self, input: &[u8]) -> Events
        ensures { (result.input.now ≡ input.now) × ((result.at ≡ self.at) × (result.left ≡ self.entries)) }
    {
        Events {
            input,
            at: self.at,
            left: self.entries,
        }
    }
}

// The events of a row, read one by one: the cursor before the next, and how many are left.
#[derive(Clone, Copy)]
pub struct Events<'a> {
    pub input: &'a [u8],
    pub at: ByteReader,
    pub left: u32,
}

impl<'a> Iterator for Events<'a> {
    type Item = Event;

    ghost remaining = { λ s. at_most s.left };

    fn next(&mut self) -> Option<Event> {
        if self.left == 0 {
            return None;
        }
        let entry = read_entry(self.input, self.at);
        self.at = entry.next;
        self.left -= 1;
        Some(entry.event)
    }
}

// Reads what stands before the entries.
pub fn read_row(input: &[u8], from: ByteReader) -> Row
    ensures { Gives row_head input.now from result.entries result.at }
{
    let counted = from.get_u64(input);
    let c = counted.next;
    let entries = c.get_u32(input);
    let c = entries.next;
    Row {
        at: c,
        entries: entries.value,
        counted: counted.value,
    }
}

// The cursor behind the entries.
pub fn behind_row(input: &[u8], row: Row) -> ByteReader
    ensures { Gives (row_bytes row.entries) input.now row.at tt result }
{
    let c = row.at;
    let entries = row.entries;
    let all = c.get_buffer(input, (entries as usize) * ENTRY_BYTES);
    all.next
}
