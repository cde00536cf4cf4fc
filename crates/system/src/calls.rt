// What std tells of files and of the time, as the C library's structs, with nothing around it. Nothing is said of
// what the system puts there.
ghost use Rattle.system.specs.Files.{Ended};

use crate::limits::stack_limit_in;
use crate::names::error_of;
use crate::types::{Stat, Timespec};
use crate::{NOT_TEXT, PATH_MAX};
use std::fs::{Metadata, OpenFile};
use std::io;
use std::io::Read;
use std::os::unix::fs::MetadataExt;
use std::rt::{Clock, Files};

// The time of the clock that only goes forward.
pub(crate) fn ask_time(rt: &impl Clock) -> io::Result<Timespec> {
    let time = rt.monotonic()?;
    Ok(Timespec {
        tv_sec: time.as_secs().cast_signed(),
        tv_nsec: i64::from(time.subsec_nanos()),
    })
}

// The process's limit on its stack, from the file in which the system tells it, read in one go, as the system
// gives it.
pub(crate) fn ask_limit(rt: &impl Files) -> io::Result<u64> {
    let mut limits = [0u8; PATH_MAX];
    let mut file = std::fs::open(rt, "/proc/self/limits")?;
    let n = file.read(&mut limits)?;
    Ok(stack_limit_in(&limits[..n]))
}

// What was told of a file, as a struct, or the system's error number.
fn told(answer: io::Result<Metadata>, blank: Stat) -> Result<Stat, i32> {
    let m = answer.map_err(error_of)?;
    Ok(Stat {
        st_dev: m.dev(),
        st_ino: m.ino(),
        st_nlink: m.nlink(),
        st_mode: m.mode(),
        st_uid: m.uid(),
        st_gid: m.gid(),
        st_rdev: m.rdev(),
        st_size: m.size().cast_signed(),
        st_blksize: m.blksize().cast_signed(),
        st_blocks: m.blocks().cast_signed(),
        ..blank
    })
}

// The file that is open.
pub(crate) fn ask_open(file: &impl OpenFile, blank: Stat) -> Result<Stat, i32> {
    told(file.metadata(), blank)
}

// The bytes of a path as C takes it, up to the first 00.
fn bytes_of(path: &[u8; PATH_MAX]) -> &[u8] {
    let n = path.iter().position(|b| *b == 0).unwrap_or(path.len());
    &path[..n]
}

// What `ask` tells of the file at a path. A name that is not UTF-8 is none that std takes.
pub(crate) fn ask_at<Ask: FnOnce(&str) -> io::Result<Metadata>>(
    path: &[u8; PATH_MAX],
    blank: Stat,
    ask: Ask,
) -> Result<Stat, i32>
    requires ended { Ended path.now }
    requires is_always_callable { Ask.IsAlwaysCallable ask }
{
    match str::from_utf8(bytes_of(path)) {
        Ok(name) => told(ask(name), blank),
        Err(_) => Err(NOT_TEXT),
    }
}
