// A game as a replay tells it: mouse kinds, game states, events, and the header with its nine texts.
// A text is a place in bytes that the caller lends.
#![tactic(auto)]

ghost use Rattle.std.specs.Prelude.{◌≡◌, [], ◌∷◌};
ghost use Rattle.game.specs.Kinds.{kind_of, code_of, begins, state_of};
ghost use Rattle.game.specs.Header.{level_of, blank, place_at, text_at, block_at};
ghost use Rattle.game.specs.Checks.{first_of};
ghost use Rattle.game.specs.Sizes.{sizes_bad, cells_short, work_checks};
ghost use Rattle.game.specs.Country.{is_letter, upper, two_letters};

pub mod limits; // the largest numbers that fields take, by name
pub mod refusals; // the numbers of the refusals, by name

use limits::LARGEST_U8;
use refusals::{BOARD_SHORT, SIZE_UNWRITABLE, WORK_SHORT};
use text::{ABSENT, Place};
use times::{CalendarUs, GameMs};

// What the mouse did: it moved, a button went down or up, and so on. `Ub` stands for every code without a
// name.
#[derive(Clone, Copy, PartialEq, Eq)]
pub enum MouseKind {
    Mv,
    Lc,
    Lr,
    Rc,
    Rr,
    Mc,
    Mr,
    Pf,
    Cc,
    L,
    R,
    M,
    Ub,
}

// What became of the game.
#[derive(Clone, Copy, PartialEq, Eq)]
pub enum GameState {
    Replay,
    Win,
    Fail,
    Error,
}

// An event at its seconds: the mouse did something at a pixel, or the game came to a state.
#[derive(Clone, Copy)]
pub enum Event {
    Mouse {
        seconds: f64,
        kind: MouseKind,
        x: u16,
        y: u16,
    },
    State {
        seconds: f64,
        state: GameState,
    },
}

// The kind of a code: 1 to 12 have names, any other is `Ub`.
#[tactic(auto, unfolding(crate::specs::Kinds::kind_of))]
impl From<u8> for MouseKind {
    ghost from_gives = { λ code kind. kind ≡ kind_of code };

    fn from(code: u8) -> MouseKind {
        match code {
            1 => MouseKind::Mv,
            2 => MouseKind::Lc,
            3 => MouseKind::Lr,
            4 => MouseKind::Rc,
            5 => MouseKind::Rr,
            6 => MouseKind::Mc,
            7 => MouseKind::Mr,
            8 => MouseKind::Pf,
            9 => MouseKind::Cc,
            10 => MouseKind::L,
            11 => MouseKind::R,
            12 => MouseKind::M,
            _ => MouseKind::Ub,
        }
    }
}

// The code of a kind. `Ub` has none, and gives 99.
impl From<MouseKind> for u8 {
    ghost from_gives = { λ kind code. code ≡ code_of kind };

    fn from(kind: MouseKind) -> u8 {
        match kind {
            MouseKind::Mv => 1,
            MouseKind::Lc => 2,
            MouseKind::Lr => 3,
            MouseKind::Rc => 4,
            MouseKind::Rr => 5,
            MouseKind::Mc => 6,
            MouseKind::Mr => 7,
            MouseKind::Pf => 8,
            MouseKind::Cc => 9,
            MouseKind::L => 10,
            MouseKind::R => 11,
            MouseKind::M => 12,
            MouseKind::Ub => 99,
        }
    }
}

// Whether a row of version 4 may begin with a kind: mv, lc, rc and pf.
pub fn may_begin(kind: MouseKind) -> bool
    ensures { result ≡ begins kind }
{
    matches!(
        kind,
        MouseKind::Mv | MouseKind::Lc | MouseKind::Rc | MouseKind::Pf
    )
}

impl GameState {
    // The game state of a code, where it has one.
    #[tactic(auto, unfolding(crate::specs::Kinds::state_of))]
    pub fn from_code(code: u8) -> Option<GameState>
        ensures { result ≡ state_of code }
    {
        match code {
            81 => Some(GameState::Replay),
            82 => Some(GameState::Win),
            83 => Some(GameState::Fail),
            99 => Some(GameState::Error),
            _ => None,
        }
    }
}

// The nine texts, by their index in a header's `texts`.
pub const SOFTWARE: usize = 0;

pub const TRANSLATED_SOFTWARE: usize = 1;

pub const ORIGINAL_ENCODING: usize = 2;

pub const PLAYER: usize = 3;

pub const RACE: usize = 4;

pub const UNIQUE_ID: usize = 5;

pub const COUNTRY: usize = 6;

pub const DEVICE_ID: usize = 7;

pub const CHECKSUM: usize = 8;

// What stands before a replay's events: the values of its fields, and where its texts lie. The block of the
// custom metrics is `metrics_count` texts one behind the other, each with the 00 that ends it.
#[derive(Clone, Copy)]
pub struct Header {
    pub version: u8,
    pub is_completed: bool,
    pub is_official: bool,
    pub is_fair: bool,
    pub nf: bool,
    pub translated: bool,
    pub use_question: bool,
    pub use_cursor_pos_lim: bool,
    pub use_auto_replay: bool,
    pub height: usize,
    pub width: usize,
    pub mine_num: usize,
    pub cell_pixel_size: u8,
    pub mode: u16,
    pub bbbv: usize,
    pub rtime_ms: GameMs,
    pub start_time: CalendarUs,
    pub end_time: CalendarUs,
    pub level: u8,
    pub mines_found: usize,
    pub texts: [Place; 9],
    pub metrics: Place,
    pub metrics_count: u16,
}

// A header with every value 0 or false and no text.
pub fn blank_header() -> Header
    ensures { result ≡ blank }
{
    Header {
        version: 0,
        is_completed: false,
        is_official: false,
        is_fair: false,
        nf: false,
        translated: false,
        use_question: false,
        use_cursor_pos_lim: false,
        use_auto_replay: false,
        height: 0,
        width: 0,
        mine_num: 0,
        cell_pixel_size: 0,
        mode: 0,
        bbbv: 0,
        rtime_ms: GameMs(0),
        start_time: CalendarUs(0),
        end_time: CalendarUs(0),
        level: 0,
        mines_found: 0,
        texts: [ABSENT; 9],
        metrics: ABSENT,
        metrics_count: 0,
    }
}

// The place of one of the nine texts; the absent place where `slot` is 9 or more.
fn place_of(h: Header, slot: usize) -> Place
    ensures { result ≡ place_at h slot }
{
    let texts = h.texts;
    if slot < 9 {
        return texts[slot];
    }
    ABSENT
}

// The bytes of one of the nine texts, as far as they lie in `bytes`; none where `slot` is 9 or more.
pub fn text_of(h: Header, bytes: &[u8], slot: usize) -> &[u8]
    ensures { result.now ≡ text_at h bytes.now slot }
{
    text::part(bytes, place_of(h, slot))
}

// The bytes of the block of custom metrics, as far as they lie in `bytes`.
pub fn metrics_block(h: Header, bytes: &[u8]) -> &[u8]
    ensures { result.now ≡ block_at h bytes.now }
{
    let place = h.metrics;
    text::part(bytes, place)
}

// Whether no file can say a board of this height and width: no row, or a size above 255.
#[tactic(auto, unfolding(crate::specs::Sizes::sizes_bad))]
pub fn sizes_bad(height: usize, width: usize) -> bool
    ensures { result ≡ sizes_bad height width }
{
    height == 0 || LARGEST_U8 < height || LARGEST_U8 < width
}

// Whether `cells` are fewer than height × width, which may pass the largest usize.
pub fn cells_short(height: usize, width: usize, cells: usize) -> bool
    ensures { result ≡ cells_short height width cells }
{
    if height == 0 {
        return false;
    }
    cells / height < width
}

// The first refusal of a call that works on `cells` lent cells in `entries` lent entries: 15, 17 or 24, or 0
// where there is none.
pub fn work_refusal(height: usize, width: usize, cells: usize, entries: usize) -> u8
    ensures { result ≡ first_of 0 (λ n. n) (work_checks height width cells entries) }
{
    if sizes_bad(height, width) {
        return SIZE_UNWRITABLE;
    }
    if cells_short(height, width, cells) {
        return BOARD_SHORT;
    }
    if cells_short(height, width, entries) {
        return WORK_SHORT;
    }
    0
}

// The level of a board: 3, 4 and 5 are the three standard ones, any other is 6.
#[tactic(auto, unfolding(crate::specs::Header::level_of))]
pub fn level_of(height: usize, width: usize, mines: usize) -> u8
    ensures { result ≡ level_of height width mines }
{
    if height == 8 && width == 8 && mines == 10 {
        return 3;
    }
    if height == 16 && width == 16 && mines == 40 {
        return 4;
    }
    if height == 16 && width == 30 && mines == 99 {
        return 5;
    }
    6
}

// A country's two-letter form: two bytes.
#[derive(Clone, Copy)]
pub struct Country(pub u8, pub u8);

// An ASCII letter, of either case.
#[tactic(auto, unfolding(crate::specs::Country::is_letter))]
fn is_letter(b: u8) -> bool
    ensures { result ≡ is_letter b }
{
    matches!(b, b'A'..=b'Z' | b'a'..=b'z')
}

// A letter in upper case; what is below `a` is left as it is.
#[tactic(auto, unfolding(crate::specs::Country::upper))]
fn upper_case(b: u8) -> u8
    ensures { result ≡ upper b }
{
    if b < b'a' {
        return b;
    }
    b - 32
}

// The two letters of a text that is just that, in upper case; any other text gives `XX`.
#[tactic(auto, unfolding(crate::specs::Country::two_letters))]
pub fn two_letters(text: &[u8]) -> Country
    ensures { result.0 ∷ result.1 ∷ [] ≡ two_letters text.now }
{
    match text {
        &[first, second] if is_letter(first) && is_letter(second) => {
            Country(upper_case(first), upper_case(second))
        }
        _ => Country(b'X', b'X'),
    }
}
