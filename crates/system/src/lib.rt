// What the system tells of files, of the time and of the stack. No contract can say what it answers.
#![tactic(auto)]

mod calls; // what std tells, as structs
mod limits; // the limits of a process
pub mod names; // files by names that are bytes
pub mod streams; // the standard streams
pub mod types; // what the system tells, as plain numbers

ghost use Rattle.std.specs.Prelude.{◌≡◌, pos};
ghost use Rattle.system.specs.Files.{Ended, path_error, c_path, blank_file, unfound, found_of, Refuses};
ghost use Rattle.system.specs.Files.{is_file, is_folder};
ghost use Rattle.system.specs.Times.{natural, milliseconds};

use byte_writer::put_bytes;
use std::fs::{Metadata, OpenFile};
use std::io;
use std::rt::{Clock, Files};
use types::{Stat, Timespec};

// What is known of a file. Where `error` is true nothing is, and `errno` is the system's error number.
#[derive(Clone, Copy)]
pub struct Found {
    pub error: bool,
    pub errno: i32,
    pub mode: u32,
    pub size: i64,
    pub dev: u64,
    pub ino: u64,
}

// The bytes of a path as C takes it (Linux's limits.h), the last of which is 0.
pub const PATH_MAX: usize = 4096;

// Linux's error numbers (errno.h) that the tool knows.
pub const ENOENT: i32 = 2;

pub const EIO: i32 = 5;

pub const EEXIST: i32 = 17;

pub const EISDIR: i32 = 21;

pub const EINVAL: i32 = 22;

pub const ENAMETOOLONG: i32 = 36;

// EILSEQ, the error of a name that is not UTF-8: std opens no such file.
pub const NOT_TEXT: i32 = 84;

// The last byte of a path as C takes it.
const LAST: usize = PATH_MAX - 1;

// The kind of a file is four bits of its mode, S_IFMT of sys/stat.h, as a number.
const KIND_UNIT: u32 = 4096;

const KINDS: u32 = 16;

// S_IFREG and S_IFDIR.
const REGULAR: u32 = 0o100000 / KIND_UNIT;

const FOLDER: u32 = 0o040000 / KIND_UNIT;

// More seconds than a clock shows that counts from the machine's start: 34,000 years.
const MANY_SECONDS: u64 = 1 << 40;

// Why no file can have such a path, as the system's error number: more than 4095 bytes, or a 00; else 0.
pub fn path_error(path: &[u8]) -> i32
    ensures { result ≡ pos (path_error path.now) }
{
    if LAST < path.len() {
        return ENAMETOOLONG;
    }
    match text::text_end(path, 0) {
        Some(_) => EINVAL,
        None => 0,
    }
}

// A path as C takes it, its bytes and then zeros.
#[tactic(auto, unfolding(crate::specs::Files::c_path))]
fn c_path(path: &[u8]) -> [u8; PATH_MAX]
    ensures value { result ≡ c_path path.now }
    ensures ended { Ended result }
{
    let mut name = [0u8; PATH_MAX];
    put_bytes(&mut name, 0, path);
    name[LAST] = 0;
    name
}

// What is told of no file.
fn blank_file() -> Stat
    ensures { result ≡ blank_file }
{
    let none = Timespec {
        tv_sec: 0,
        tv_nsec: 0,
    };
    Stat {
        st_dev: 0,
        st_ino: 0,
        st_nlink: 0,
        st_mode: 0,
        st_uid: 0,
        st_gid: 0,
        pad: 0,
        st_rdev: 0,
        st_size: 0,
        st_blksize: 0,
        st_blocks: 0,
        st_atim: none,
        st_mtim: none,
        st_ctim: none,
        unused: [0; 3],
    }
}

// No file, and why.
fn unfound(errno: i32) -> Found
    ensures { result ≡ unfound errno }
{
    Found {
        error: true,
        errno,
        mode: 0,
        size: 0,
        dev: 0,
        ino: 0,
    }
}

// What is kept of what the system tells of a file.
fn found_of(file: Stat) -> Found
    ensures { result ≡ found_of file }
{
    Found {
        error: false,
        errno: 0,
        mode: file.st_mode,
        size: file.st_size,
        dev: file.st_dev,
        ino: file.st_ino,
    }
}

// What a call told, or why it failed.
fn answer(told: Result<Stat, i32>) -> Found {
    match told {
        Ok(file) => found_of(file),
        Err(errno) => unfound(errno),
    }
}

// The file at a path, by what std tells of its name.
fn find<Ask: FnOnce(&str) -> io::Result<Metadata>>(path: &[u8], ask: Ask) -> Found
    requires { Ask.IsAlwaysCallable ask }
    ensures { Refuses (path_error path.now) result }
{
    let refused = path_error(path);
    if refused != 0 {
        return unfound(refused);
    }
    answer(calls::ask_at(&c_path(path), blank_file(), ask))
}

// The file at a path; at a link the file that it leads to.
pub fn stat(rt: &impl Files, path: &[u8]) -> Found
    ensures { Refuses (path_error path.now) result }
{
    find(path, |name| rt.metadata(name))
}

// The file at a path; at a link the link itself.
pub fn lstat(rt: &impl Files, path: &[u8]) -> Found
    ensures { Refuses (path_error path.now) result }
{
    find(path, |name| rt.symlink_metadata(name))
}

// The file that is open.
pub fn fstat(file: &impl OpenFile) -> Found {
    answer(calls::ask_open(file, blank_file()))
}

// Whether it is a regular file.
pub fn is_file(f: Found) -> bool
    ensures { result ≡ is_file f }
{
    !f.error && f.mode / KIND_UNIT % KINDS == REGULAR
}

// Whether it is a folder.
pub fn is_folder(f: Found) -> bool
    ensures { result ≡ is_folder f }
{
    !f.error && f.mode / KIND_UNIT % KINDS == FOLDER
}

// A number as an unsigned one; 0 for one below 0.
fn natural(n: i64) -> u64
    ensures { result ≡ natural n }
{
    u64::try_from(n).unwrap_or(0)
}

// A time in whole milliseconds; 0 where it has too many seconds.
fn milliseconds(seconds: u64, nanoseconds: u64) -> u64
    ensures { result ≡ milliseconds seconds nanoseconds }
{
    if MANY_SECONDS <= seconds {
        return 0;
    }
    seconds * 1000 + nanoseconds / 1000000
}

// Milliseconds of a clock that only goes forward, from a start of the system's choice; 0 where there is none.
pub fn now_ms(rt: &impl Clock) -> u64 {
    match calls::ask_time(rt) {
        Ok(time) => milliseconds(natural(time.tv_sec), natural(time.tv_nsec)),
        Err(_) => 0,
    }
}

// The most bytes that the stack may have; u64::MAX where there is no limit, or the system does not tell.
pub fn stack_limit(rt: &impl Files) -> u64 {
    calls::ask_limit(rt).unwrap_or(u64::MAX)
}
