// The system's error numbers in words, written into a lent buffer. What does not fit is dropped, as
// everywhere in `byte_writer`.
#![tactic(auto)]

ghost use Rattle.std.specs.Prelude.{◌≡◌, ◌<◌, length, MatchOption};
ghost use Rattle.byte_writer.specs.Places.{Writes};
ghost use Rattle.errors.specs.Errors.{number_of, error_words, other_words};
ghost use Rattle.errors.specs.Places.{place_in, place_of, text_at_place};

use byte_writer::write_bytes;
use lines::write_number;
use text_table::write_text;

// An error's number; one below 0 counts as 0.
pub fn number_of(error: i32) -> u32
    ensures { result ≡ number_of error }
{
    u32::try_from(error).unwrap_or(0)
}

// The place where a number first stands in a list.
#[tactic(auto, unfolding(crate::specs::Places::place_in))]
fn place_in(numbers: &[u32], n: u32) -> Option<usize>
    ensures { MatchOption result (place_in numbers.now n ≡ length numbers.now)
        (λ k. (place_in numbers.now n ≡ k) × (k < length numbers.now)) }
{
    for (i, m) in numbers.iter().enumerate() {
        if *m == n {
            return Some(i);
        }
    }
    None
}

// The place of an error in the table.
#[tactic(auto, unfolding(crate::specs::Places::place_of, crate::specs::Errors::table))]
fn place_of(n: u32) -> Option<usize>
    ensures { MatchOption result (place_of n ≡ 19) (λ k. (place_of n ≡ k) × (k < 19)) }
{
    let numbers: [u32; 19] = [
        2, 1, 13, 20, 21, 17, 28, 122, 30, 36, 40, 5, 27, 23, 24, 12, 22, 6, 9,
    ];
    place_in(&numbers, n)
}

// The words at a place of the table.
fn write_known(out: &mut [u8], at: usize, k: u8) -> usize
    ensures { Writes out.old out.new at (text_at_place k) result }
{
    write_text(
        out,
        at,
        b"no such file or folder\0\
        permission denied\0\
        permission denied\0\
        a part of the name is no folder\0\
        a folder, not a file\0\
        the name is taken\0\
        no room left on the device\0\
        the disk quota is used up\0\
        the file system is read-only\0\
        the name is too long\0\
        too many links\0\
        the device failed\0\
        the file would be too large\0\
        too many open files\0\
        too many open files\0\
        no memory left\0\
        a name that no file can have\0\
        no such device\0\
        it is not open\0",
        k,
    )
}

// The words for a number that the table lacks.
fn write_other(out: &mut [u8], at: usize, n: u32) -> usize
    ensures { Writes out.old out.new at (other_words n) result }
{
    let end = write_bytes(out, at, b"the system's error ");
    write_number(out, end, n as u64)
}

// Writes what an error number of the system says, and answers the place behind it.
pub fn write_error(out: &mut [u8], at: usize, n: u32) -> usize
    ensures { Writes out.old out.new at (error_words n) result }
{
    match place_of(n) {
        Some(k) => write_known(out, at, k as u8),
        None => write_other(out, at, n),
    }
}
