// The name under which a copy is written until it is whole: NAME.DIGEST.part, in NAME's folder. It is made of
// the name and the copy's bytes alone, so that a later run finds what an earlier one left.
#![tactic(auto)]

ghost use Rattle.std.specs.Prelude.{◌≡◌};
ghost use Rattle.byte_writer.specs.Places.{Writes};
ghost use Rattle.part_names.specs.Parts.{digest, tears, cut_at, kept, shortened, part_name};

use byte_writer::write_bytes;
use lines::write_number;

// What a digest keeps of a step: 56 bits, so that the next fits 64.
const WRAP: u64 = 72057594037927936;

// So many bytes of a name are kept at most.
const KEPT: usize = 100;

// The digest of bytes that stand behind those of the digest `from`.
#[tactic(auto, unfolding(crate::specs::Parts::digest))]
fn digest_of(from: u64, bytes: &[u8]) -> u64
    ensures { result ≡ digest from bytes.now }
{
    bytes
        .iter()
        .fold(from, |h, b| h % WRAP * 251 + u64::from(*b))
}

// Whether a cut at a place tears a character of UTF-8.
fn tears_at(name: &[u8], at: usize) -> bool
    ensures { result ≡ tears name.now at }
{
    matches!(name.get(at), Some(0x80..=0xBF))
}

// Where a name is cut.
#[tactic(auto, using(crate::proofs::Steps::cut_here, crate::proofs::Steps::cut_start, crate::proofs::Steps::cut_before))]
fn cut_at(name: &[u8]) -> usize
    ensures { result ≡ cut_at name.now kept }
{
    for k in (1..=KEPT).rev() {
        if !tears_at(name, k) {
            return k;
        }
    }
    0
}

// The beginning of a name; one that is short enough stays whole.
#[tactic(auto, unfolding(crate::specs::Parts::shortened))]
fn shorten(name: &[u8]) -> &[u8]
    ensures { result.now ≡ shortened name.now }
{
    let k = cut_at(name);
    if name.len() <= k {
        return name;
    }
    &name[..k]
}

// Writes the part name of the file `name` in `folder`, which ends in / or is empty, for a copy of these
// bytes, and answers its length. A buffer that is 126 bytes longer than `folder` has room.
pub fn write_part_name(out: &mut [u8], folder: &[u8], name: &[u8], bytes: &[u8]) -> usize
    ensures { Writes out.old out.new 0
        (part_name folder.now name.now bytes.now) result }
{
    let at = write_bytes(out, 0, folder);
    let at = write_bytes(out, at, shorten(name));
    let at = write_bytes(out, at, b".");
    let at = write_number(out, at, digest_of(digest_of(0, name), bytes));
    write_bytes(out, at, b".part")
}
