// Which texts a version cannot hold: those that it ends by 00, those whose length it counts or fixes, and the
// block of the custom metrics.
#![tactic(auto)]

ghost use Rattle.std.specs.Prelude.{◌≡◌};
ghost use Rattle.judging_texts.specs.Texts.{holds00, text_bad, shared_bad, translation_bad, texts3_bad};
ghost use Rattle.judging_texts.specs.Texts.{texts_bad, lengths_bad, metrics_bad};

use game::limits::{CHECKSUM_LEN, LARGEST_U16};
use game::{
    CHECKSUM, COUNTRY, DEVICE_ID, Header, ORIGINAL_ENCODING, PLAYER, RACE, SOFTWARE,
    TRANSLATED_SOFTWARE, UNIQUE_ID, metrics_block, text_of,
};

// A text that holds a 00.
#[tactic(auto, using(crate::proofs::Found::end_found))]
fn holds_00(text: &[u8]) -> bool
    ensures { result ≡ holds00 text.now }
{
    text::text_end(text, 0).is_some()
}

// A text that is not UTF-8, or holds a 00.
fn text_bad(text: &[u8]) -> bool
    ensures { result ≡ text_bad text.now }
{
    !text::is_utf8(text) || holds_00(text)
}

// 19, of the texts that both versions write.
fn shared_bad(h: Header, bytes: &[u8]) -> bool
    ensures { result ≡ shared_bad h bytes.now }
{
    text_bad(text_of(h, bytes, SOFTWARE))
        || text_bad(text_of(h, bytes, PLAYER))
        || text_bad(text_of(h, bytes, RACE))
        || text_bad(text_of(h, bytes, UNIQUE_ID))
}

// 19, of version 4's translation.
fn translation_bad(h: Header, bytes: &[u8]) -> bool
    ensures { result ≡ translation_bad h bytes.now }
{
    h.translated
        && (text_bad(text_of(h, bytes, TRANSLATED_SOFTWARE))
            || text_bad(text_of(h, bytes, ORIGINAL_ENCODING)))
}

// 19, of version 3's country and device id.
fn texts_3_bad(h: Header, bytes: &[u8]) -> bool
    ensures { result ≡ texts3_bad h bytes.now }
{
    if text_bad(text_of(h, bytes, COUNTRY)) {
        return true;
    }
    holds_00(text_of(h, bytes, DEVICE_ID))
}

// 19: a text that is to be ended by 00.
#[tactic(auto, unfolding(crate::specs::Texts::texts_bad))]
pub fn texts_bad(version: u8, h: Header, bytes: &[u8]) -> bool
    ensures { result ≡ texts_bad h bytes.now version }
{
    if shared_bad(h, bytes) {
        return true;
    }
    if version == 4 {
        return translation_bad(h, bytes);
    }
    texts_3_bad(h, bytes)
}

// 20: lengths that the version cannot say.
#[tactic(auto, unfolding(crate::specs::Texts::lengths_bad))]
pub fn lengths_bad(version: u8, h: Header, bytes: &[u8]) -> bool
    ensures { result ≡ lengths_bad h bytes.now version }
{
    let checksum = text_of(h, bytes, CHECKSUM);
    if version == 4 {
        let device = text_of(h, bytes, DEVICE_ID);
        if LARGEST_U16 < device.len() {
            return true;
        }
        return LARGEST_U16 < checksum.len();
    }
    if checksum.len() == 0 {
        return false;
    }
    checksum.len() != CHECKSUM_LEN
}

// 25: custom metrics that version 4 cannot hold.
#[tactic(auto, unfolding(crate::specs::Texts::metrics_bad))]
pub fn metrics_bad(version: u8, h: Header, bytes: &[u8]) -> bool
    ensures { result ≡ metrics_bad h bytes.now version }
{
    version == 4 && !metrics::are_texts(h.metrics_count, metrics_block(h, bytes))
}
