// A file read to its end.
ghost use Rattle.std.specs.Prelude.{IfOk};
ghost use Rattle.io.specs.Counts.{IsPrefixLen};

use std::io::Read;
use std::rt::Files;
use system::names::{error_of, open_read};

// Why a file was not read to its end: it fills the buffer, and may have more; or the system's error.
#[derive(Clone, Copy)]
pub enum Unread {
    Long,
    System(i32),
}

// What a name leads to: a file; a folder; or something that may keep a reader waiting, a pipe or a device.
#[derive(Clone, Copy)]
pub enum Sort {
    File,
    Folder,
    Waiting,
}

// What a name leads to, links followed, or the system's error where nothing can be found. It opens nothing, so
// that no pipe keeps it waiting.
pub fn sort_of(rt: &impl Files, path: &[u8]) -> Result<Sort, i32> {
    let found = system::stat(rt, path);
    if found.error {
        Err(found.errno)
    } else if system::is_file(found) {
        Ok(Sort::File)
    } else if system::is_folder(found) {
        Ok(Sort::Folder)
    } else {
        Ok(Sort::Waiting)
    }
}

// Reads to the end, or until the buffer is full; how many bytes there are. A read that fails is no end.
pub fn read_to_end(from: &mut impl Read, file: &mut [u8]) -> Result<usize, Unread>
    ensures { IfOk result (λ n. IsPrefixLen n file.new) }
{
    let mut done: usize = 0;
    while done < file.len() {
        match from.read(&mut file[done..]) {
            Ok(0) => return Ok(done),
            Ok(n) => done += n,
            Err(e) => return Err(Unread::System(error_of(e))),
        }
    }
    Err(Unread::Long)
}

// Reads the file of a name to its end; how many bytes there are.
pub fn read_whole(rt: &impl Files, path: &[u8], file: &mut [u8]) -> Result<usize, Unread>
    ensures { IfOk result (λ n. IsPrefixLen n file.new) }
{
    let mut from = open_read(rt, path).map_err(Unread::System)?;
    read_to_end(&mut from, file)
}
