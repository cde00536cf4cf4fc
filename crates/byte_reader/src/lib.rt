// Reading a file along a cursor that keeps the first refusal.
#![tactic(auto)]

ghost use Rattle.std.specs.Prelude.{◌≡◌, ◌+◌, ◌≤◌, length};
ghost use Rattle.byte_reader.specs.Numbers.{number};
ghost use Rattle.text.specs.Places.{absent, Inside};
ghost use Rattle.byte_reader.specs.Fields.{bytes, counted_bytes, text, must_be_utf8, utf8_text, utf8_bytes};
ghost use Rattle.byte_reader.specs.Fields.{no_place};
ghost use Rattle.byte_reader.specs.Cursor.{Reads, refused_if};
ghost use Rattle.byte_reader.specs.Widths.{NumberIs, Narrow};

use game::refusals::{FILE_ENDS, TEXT_NOT_UTF8};
use text::{ABSENT, Place};

// Where reading stands: at a place, or refused with a number. Nothing is read from a cursor that has refused.
#[derive(Clone, Copy)]
pub enum ByteReader {
    At(usize),
    Refused(u8),
}

// A value and the cursor after it. Where it is refused the value is 0, or the absent place.
#[derive(Clone, Copy)]
pub struct Read<T> {
    pub value: T,
    pub next: ByteReader,
}

// The number in the k bytes from at, which the file has.
fn number_at(file: &[u8], at: usize, k: usize) -> u64
    requires { (k ≤ 8) × (at + k ≤ length file.now) }
    ensures { NumberIs k file.now at result }
{
    let mut v: u64 = 0;
    for byte in &file[at..at + k] {
        v = v * 256 + u64::from(*byte);
    }
    v
}

// A refusal, and no place.
fn no_place(why: u8) -> Read<Place>
    ensures { result ≡ no_place why }
{
    Read {
        value: ABSENT,
        next: ByteReader::Refused(why),
    }
}

// What was read, refused where its bytes are not UTF-8.
fn must_be_utf8(file: &[u8], r: Read<Place>) -> Read<Place>
    requires { Inside file.now r.value }
    ensures { Reads absent (must_be_utf8 r.value) file.now r.next result.value result.next }
{
    let next = r.next;
    match next {
        ByteReader::At(_) => {
            let p = r.value;
            let start = p.start;
            let end = start + p.len;
            if text::is_utf8(&file[start..end]) {
                return r;
            }
            no_place(TEXT_NOT_UTF8)
        }
        ByteReader::Refused(why) => no_place(why),
    }
}

impl ByteReader {
    // A number of k bytes, one function for every width.
    fn get_number(self, file: &[u8], k: usize) -> Read<u64>
        requires { k ≤ 8 }
        ensures { Narrow k file.now self result }
    {
        match self {
            ByteReader::At(at) => {
                if file.len() < at {
                    return Read {
                        value: 0,
                        next: ByteReader::Refused(FILE_ENDS),
                    };
                }
                if file.len() - at < k {
                    return Read {
                        value: 0,
                        next: ByteReader::Refused(FILE_ENDS),
                    };
                }
                Read {
                    value: number_at(file, at, k),
                    next: ByteReader::At(at + k),
                }
            }
            ByteReader::Refused(n) => Read {
                value: 0,
                next: ByteReader::Refused(n),
            },
        }
    }

    pub fn get_u8(self, file: &[u8]) -> Read<u8>
        ensures { Reads 0 (number 1) file.now self result.value result.next }
    {
        let r = self.get_number(file, 1);
        let next = r.next;
        Read {
            value: r.value as u8,
            next: next,
        }
    }

    pub fn get_u16(self, file: &[u8]) -> Read<u16>
        ensures { Reads 0 (number 2) file.now self result.value result.next }
    {
        let r = self.get_number(file, 2);
        let next = r.next;
        Read {
            value: r.value as u16,
            next: next,
        }
    }

    pub fn get_u24(self, file: &[u8]) -> Read<u32>
        ensures { Reads 0 (number 3) file.now self result.value result.next }
    {
        let r = self.get_number(file, 3);
        let next = r.next;
        Read {
            value: r.value as u32,
            next: next,
        }
    }

    pub fn get_u32(self, file: &[u8]) -> Read<u32>
        ensures { Reads 0 (number 4) file.now self result.value result.next }
    {
        let r = self.get_number(file, 4);
        let next = r.next;
        Read {
            value: r.value as u32,
            next: next,
        }
    }

    pub fn get_u64(self, file: &[u8]) -> Read<u64>
        ensures { Reads 0 (number 8) file.now self result.value result.next }
    {
        self.get_number(file, 8)
    }

    // n bytes.
    pub fn get_buffer(self, file: &[u8], n: usize) -> Read<Place>
        ensures { Reads absent (bytes n) file.now self result.value result.next }
    {
        match self {
            ByteReader::At(at) => {
                if file.len() < at {
                    return no_place(FILE_ENDS);
                }
                if file.len() - at < n {
                    return no_place(FILE_ENDS);
                }
                Read {
                    value: Place { start: at, len: n },
                    next: ByteReader::At(at + n),
                }
            }
            ByteReader::Refused(why) => no_place(why),
        }
    }

    // A u16 and that many bytes.
    pub fn get_counted(self, file: &[u8]) -> Read<Place>
        ensures { Reads absent counted_bytes file.now self result.value result.next }
    {
        let n = self.get_u16(file);
        let next = n.next;
        next.get_buffer(file, n.value as usize)
    }

    // A text and the 00 that ends it.
    pub fn get_c_buffer(self, file: &[u8]) -> Read<Place>
        ensures { Reads absent text file.now self result.value result.next }
    {
        match self {
            ByteReader::At(at) => match text::text_end(file, at) {
                Some(end) => Read {
                    value: Place {
                        start: at,
                        len: end - at,
                    },
                    next: ByteReader::At(end + 1),
                },
                None => no_place(FILE_ENDS),
            },
            ByteReader::Refused(why) => no_place(why),
        }
    }

    // A text that must be UTF-8.
    pub fn get_utf8_c_string(self, file: &[u8]) -> Read<Place>
        ensures { Reads absent utf8_text file.now self result.value result.next }
    {
        must_be_utf8(file, self.get_c_buffer(file))
    }

    // n bytes that must be UTF-8.
    pub fn get_utf8_string(self, file: &[u8], n: usize) -> Read<Place>
        ensures { Reads absent (utf8_bytes n) file.now self result.value result.next }
    {
        must_be_utf8(file, self.get_buffer(file, n))
    }

    // Refuses what is bad, unless there is a refusal already.
    pub fn refuse_if(self, bad: bool, number: u8) -> ByteReader
        ensures { result ≡ refused_if self bad number }
    {
        match self {
            ByteReader::At(at) => {
                if bad {
                    return ByteReader::Refused(number);
                }
                ByteReader::At(at)
            }
            ByteReader::Refused(n) => ByteReader::Refused(n),
        }
    }
}
