// The check of UTF-8, to be read beside section 4 of RFC 3629: the same rules in the same order, and under
// each rule its lines. A byte is judged by its class, read off the table of class_table.rt, which `is_utf8`
// lends to the rules. A byte behind a character's first is read in `is_class` alone, which tests that it is
// there.
ghost use Rattle.std.specs.Prelude.{◌≡◌, ◌<◌, length, drop};
ghost use Rattle.text.specs.Utf8.{tail, utf8_1, utf8_2, utf8_3, utf8_4, utf8, within};
ghost use Rattle.text.specs.Classes.{table, in_classes};
ghost use Rattle.text.specs.Chars.{FirstIs, starts, spelled_by, char_len, some_len};

use crate::class_table::{
    ASCII, CLASSES, LEAD_C2, LEAD_E0, LEAD_E1, LEAD_ED, LEAD_F0, LEAD_F1, LEAD_F4, TAIL_80,
    TAIL_90, TAIL_A0,
};

// UTF8-octets = *( UTF8-char )
//
// Whether the bytes are UTF-8; an empty slice is.
pub fn is_utf8(s: &[u8]) -> bool
    ensures { result ≡ utf8 s.now }
{
    // laid out once, and lent: the constant would be laid out anew at each look into it
    let classes = CLASSES;
    let mut rest = s;
    while !rest.is_empty() {
        let Some(n) = utf8_char(&classes, rest) else {
            return false;
        };
        rest = &rest[n..];
    }
    true
}

// UTF8-char = UTF8-1 / UTF8-2 / UTF8-3 / UTF8-4
//
// How many bytes the character has with which `s` begins, by the first rule that spells one. `s` is not
// empty.
#[tactic(auto, using(crate::proofs::Classes::first_is), unfolding(crate::specs::Chars::char_len))]
fn utf8_char(classes: &[u8; 256], s: &[u8]) -> Option<usize>
    requires { (classes.now ≡ table) × (0 < length s.now) }
    ensures { result ≡ some_len (char_len s.now) }
{
    let first = classes[s[0] as usize];
    utf8_1(s, first)
        .or_else(|| utf8_2(classes, s, first))
        .or_else(|| utf8_3(classes, s, first))
        .or_else(|| utf8_4(classes, s, first))
}

// UTF8-1 = %x00-7F
//
// How many bytes the character has that this rule spells where `s` begins. The next three answer the same
// of their rules. `first` is the class of the first byte of `s`.
fn utf8_1(s: &[u8], first: u8) -> Option<usize>
    requires { FirstIs s.now first }
    ensures { result ≡ some_len (spelled_by utf8_1 s.now) }
{
    if first == ASCII {
        return Some(1);
    }
    None
}

// UTF8-2 = %xC2-DF UTF8-tail
fn utf8_2(classes: &[u8; 256], s: &[u8], first: u8) -> Option<usize>
    requires { (classes.now ≡ table) × FirstIs s.now first }
    ensures { result ≡ some_len (spelled_by utf8_2 s.now) }
{
    if first == LEAD_C2 && utf8_tail(classes, s, 1) {
        return Some(2);
    }
    None
}

// UTF8-3 =
fn utf8_3(classes: &[u8; 256], s: &[u8], first: u8) -> Option<usize>
    requires { (classes.now ≡ table) × FirstIs s.now first }
    ensures { result ≡ some_len (spelled_by utf8_3 s.now) }
{
    // %xE0 %xA0-BF UTF8-tail /
    if first == LEAD_E0 && is_class(classes, s, 1, TAIL_A0, TAIL_A0) && utf8_tail(classes, s, 2) {
        return Some(3);
    }
    // %xE1-EC 2( UTF8-tail ) /
    if first == LEAD_E1 && utf8_tail(classes, s, 1) && utf8_tail(classes, s, 2) {
        return Some(3);
    }
    // %xED %x80-9F UTF8-tail /
    if first == LEAD_ED && is_class(classes, s, 1, TAIL_80, TAIL_90) && utf8_tail(classes, s, 2) {
        return Some(3);
    }
    // %xEE-EF 2( UTF8-tail ): these are of the class of E1-EC, so the second line has tested them
    None
}

// UTF8-4 =
fn utf8_4(classes: &[u8; 256], s: &[u8], first: u8) -> Option<usize>
    requires { (classes.now ≡ table) × FirstIs s.now first }
    ensures { result ≡ some_len (spelled_by utf8_4 s.now) }
{
    // %xF0 %x90-BF 2( UTF8-tail ) /
    if first == LEAD_F0
        && is_class(classes, s, 1, TAIL_90, TAIL_A0)
        && utf8_tail(classes, s, 2)
        && utf8_tail(classes, s, 3)
    {
        return Some(4);
    }
    // %xF1-F3 3( UTF8-tail ) /
    if first == LEAD_F1
        && utf8_tail(classes, s, 1)
        && utf8_tail(classes, s, 2)
        && utf8_tail(classes, s, 3)
    {
        return Some(4);
    }
    // %xF4 %x80-8F 2( UTF8-tail )
    if first == LEAD_F4
        && is_class(classes, s, 1, TAIL_80, TAIL_80)
        && utf8_tail(classes, s, 2)
        && utf8_tail(classes, s, 3)
    {
        return Some(4);
    }
    None
}

// UTF8-tail = %x80-BF
//
// Whether byte `i` of `s` is one.
fn utf8_tail(classes: &[u8; 256], s: &[u8], i: usize) -> bool
    requires { classes.now ≡ table }
    ensures { result ≡ starts (within tail) (drop i s.now) }
{
    is_class(classes, s, i, TAIL_80, TAIL_A0)
}

// Whether byte `i` of `s` is there, and of a class from `low` to `high`.
fn is_class(classes: &[u8; 256], s: &[u8], i: usize, low: u8, high: u8) -> bool
    requires { classes.now ≡ table }
    ensures { result ≡ starts (in_classes low high) (drop i s.now) }
{
    if s.len() <= i {
        return false;
    }
    let class = classes[s[i] as usize];
    low <= class && class <= high
}
