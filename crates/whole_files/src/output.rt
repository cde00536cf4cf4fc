// A new file, whole or not there, and no other file overwritten.
//
// The bytes go into a part file first, are synchronised, and then take the name: the name is made as an empty
// file, which fails where it is taken, and the part is renamed over it. A part that a killed run left has the
// same name again; where it begins as the new bytes do, it is completed in place. Two runs that
// make the same file share the part and write equal bytes into it; only one of their renames finds it.
ghost use Rattle.std.specs.Prelude.{IfOk, IfSome};
ghost use Rattle.whole_files.specs.Files.{IsRest};

use name_lines::last_part;
use part_names::write_part_name;
use std::fs::OpenFile;
use std::io::{Read, Write};
use std::rt::{Clock, Files};
use std::time::Duration;
use system::names::{create, error_of, open_read, open_update, rename, unlink};
use system::{EEXIST, EISDIR, ENAMETOOLONG, ENOENT, Found, PATH_MAX};

// What became of a new file: made here; there already with the same bytes; its name is another file's; or a part
// file of other bytes is in the way.
#[derive(Clone, Copy)]
pub enum Made {
    New,
    Same,
    Taken,
    InTheWay,
}

// What became of a new file, nothing where another run is just making it; or the system's error.
type Attempt = Result<Option<Made>, i32>;

// How often a file is looked at again that another run is just making.
const TRIES: u32 = 100;

// An empty file that stays so for as many milliseconds is nobody's who is just making it.
const LEFT_MS: u64 = 1000;

// The milliseconds between two looks at it.
const PAUSE_MS: u64 = 1;

// The bytes read at once to be compared.
const CHUNK: usize = 65536;

// Compares a file with bytes, from where it stands to its end: what is left of the bytes behind those that it
// holds, nothing where it holds something else.
fn compare_through<'a>(
    from: &mut impl Read,
    bytes: &'a [u8],
    chunk: &mut [u8],
) -> Result<Option<&'a [u8]>, i32>
    ensures { IfOk result (λ found. IfSome found (λ rest. IsRest rest.now bytes.now)) }
{
    let mut rest = bytes;
    loop {
        let n = from.read(chunk).map_err(error_of)?;
        if n == 0 {
            return Ok(Some(rest));
        }
        match rest.strip_prefix(&chunk[..n]) {
            Some(behind) => rest = behind,
            None => return Ok(None),
        }
    }
}

// Compares a file with bytes, from where it stands to its end.
fn compare<'a>(from: &mut impl Read, bytes: &'a [u8]) -> Result<Option<&'a [u8]>, i32>
    ensures { IfOk result (λ found. IfSome found (λ rest. IsRest rest.now bytes.now)) }
{
    let mut chunk = [0u8; CHUNK];
    compare_through(from, bytes, &mut chunk)
}

// Writes the rest of the bytes, as far as the system says on the device.
fn write_rest<F: Write + OpenFile>(file: &mut F, rest: &[u8]) -> Result<(), i32> {
    file.write_all(rest).map_err(error_of)?;
    file.sync_all().map_err(error_of)
}

// Writes the rest of the bytes and closes the part, which is then whole. A part that cannot be written is removed.
fn finish_part<R: Files>(rt: &R, mut file: R::File, rest: &[u8], part: &[u8]) -> Attempt {
    let written = write_rest(&mut file, rest);
    drop(file);
    if let Err(error) = written {
        let _ = unlink(rt, part);
        return Err(error);
    }
    Ok(Some(Made::New))
}

// Completes a part that is open, where the bytes begin as it does.
fn complete_open<R: Files>(rt: &R, mut file: R::File, bytes: &[u8], part: &[u8]) -> Attempt {
    match compare(&mut file, bytes)? {
        Some(rest) => finish_part(rt, file, rest, part),
        None => Ok(Some(Made::InTheWay)),
    }
}

// Whether two names or open files are the same file.
fn is_same_file(a: Found, b: Found) -> bool {
    !a.error && a.dev == b.dev && a.ino == b.ino
}

// Completes a part that is there. None where it is gone meanwhile, or the name leads to another file.
fn complete_part(rt: &impl Files, bytes: &[u8], part: &[u8]) -> Attempt {
    let found = system::lstat(rt, part);
    if found.error {
        return Ok(None);
    }
    if !system::is_file(found) {
        return Ok(Some(Made::InTheWay));
    }
    match open_update(rt, part) {
        Ok(file) if is_same_file(system::fstat(&file), found) => {
            complete_open(rt, file, bytes, part)
        }
        Ok(_) | Err(ENOENT) => Ok(None),
        Err(_) => Ok(Some(Made::InTheWay)),
    }
}

// Writes the part, anew or by completing what is there.
fn write_part(rt: &impl Files, bytes: &[u8], part: &[u8]) -> Attempt {
    match create(rt, part) {
        Ok(file) => finish_part(rt, file, bytes, part),
        Err(EEXIST) => complete_part(rt, bytes, part),
        Err(error) => Err(error),
    }
}

// Whether a name leads to an empty file, and not by a link.
fn is_empty(rt: &impl Files, path: &[u8]) -> bool {
    let found = system::lstat(rt, path);
    system::is_file(found) && found.size == 0
}

// Whether a name still leads to the empty file that was found there.
fn is_untouched(rt: &impl Files, path: &[u8], found: Found) -> bool {
    let now = system::lstat(rt, path);
    is_same_file(now, found) && now.size == 0
}

// Renames the part over the empty file `to`, which is ours and was found as `found`. Where another run was
// quicker, the file is looked at again.
fn rename_over(rt: &impl Files, part: &[u8], to: &[u8], found: Found) -> Attempt {
    if !is_untouched(rt, to, found) {
        return Ok(None);
    }
    match rename(rt, part, to) {
        Ok(()) => Ok(Some(Made::New)),
        Err(ENOENT) if !is_empty(rt, to) => Ok(None),
        Err(error) => {
            let _ = unlink(rt, to);
            let _ = unlink(rt, part);
            Err(error)
        }
    }
}

// Gives a whole part the name `to`, which was free.
fn take_name(rt: &impl Files, part: &[u8], to: &[u8]) -> Attempt {
    match create(rt, to) {
        Ok(file) => {
            let found = system::fstat(&file);
            drop(file);
            rename_over(rt, part, to, found)
        }
        Err(EEXIST) => Ok(None),
        Err(error) => {
            let _ = unlink(rt, part);
            Err(error)
        }
    }
}

// Whether so many milliseconds have passed; a clock that went back has passed them.
fn has_passed(rt: &impl Clock, from: u64, ms: u64) -> bool {
    match system::now_ms(rt).checked_sub(from) {
        Some(passed) => ms <= passed,
        None => true,
    }
}

// Whether a name leads to an empty file and goes on to do so for a while. A run that is making the file has it
// empty for an instant; one that was killed then left it so.
fn stays_empty<R: Files + Clock>(rt: &R, path: &[u8]) -> bool {
    let from = system::now_ms(rt);
    for _ in 0..u64::MAX {
        if !is_empty(rt, path) {
            return false;
        }
        if has_passed(rt, from, LEFT_MS) {
            return true;
        }
        rt.sleep(Duration::from_millis(PAUSE_MS));
    }
    true
}

// Finishes what a killed run left: an empty file, and its part beside it. An empty file alone is not ours.
fn finish_left<R: Files + Clock>(
    rt: &R,
    bytes: &[u8],
    part: &[u8],
    to: &[u8],
    found: Found,
) -> Attempt {
    let beside = system::lstat(rt, part);
    if !beside.error && !stays_empty(rt, to) {
        return Ok(None);
    }
    match complete_part(rt, bytes, part)? {
        Some(Made::New) => rename_over(rt, part, to, found),
        _ if is_empty(rt, to) => Ok(Some(Made::Taken)),
        _ => Ok(None),
    }
}

// Compares a file of a name with bytes.
fn compare_named<'a>(
    rt: &impl Files,
    path: &[u8],
    bytes: &'a [u8],
) -> Result<Option<&'a [u8]>, i32> {
    let mut file = open_read(rt, path)?;
    compare(&mut file, bytes)
}

// Removes a part that a killed run left beside a file that is there; one of other bytes stays.
fn remove_part(rt: &impl Files, bytes: &[u8], part: &[u8]) {
    if system::is_file(system::lstat(rt, part)) {
        if let Ok(Some(_)) = compare_named(rt, part, bytes) {
            let _ = unlink(rt, part);
        }
    }
}

// Tells the same file from another, where a file of the name is there.
fn tell_apart(rt: &impl Files, bytes: &[u8], part: &[u8], to: &[u8]) -> Made {
    remove_part(rt, bytes, part);
    match compare_named(rt, to, bytes) {
        Ok(Some(rest)) if rest.is_empty() => Made::Same,
        _ => Made::Taken,
    }
}

// Makes the file once, or says that another run is just making it.
fn attempt<R: Files + Clock>(rt: &R, bytes: &[u8], part: &[u8], to: &[u8]) -> Attempt {
    let found = system::lstat(rt, to);
    if found.error {
        if found.errno != ENOENT {
            return Err(found.errno);
        }
        return match write_part(rt, bytes, part)? {
            Some(Made::New) => take_name(rt, part, to),
            other => Ok(other),
        };
    }
    if !system::is_file(found) {
        return Ok(Some(Made::Taken));
    }
    if found.size == 0 {
        return finish_left(rt, bytes, part, to, found);
    }
    Ok(Some(tell_apart(rt, bytes, part, to)))
}

// Tries until no other run is just making the file.
fn attempts<R: Files + Clock>(rt: &R, bytes: &[u8], part: &[u8], to: &[u8]) -> Result<Made, i32> {
    for _ in 0..TRIES {
        if let Some(made) = attempt(rt, bytes, part, to)? {
            return Ok(made);
        }
    }
    Ok(Made::Taken)
}

// Makes the file `name` of `folder`, which together are `to`, by way of its part file.
fn make_in<R: Files + Clock>(
    rt: &R,
    bytes: &[u8],
    folder: &[u8],
    name: &[u8],
    to: &[u8],
) -> Result<Made, i32> {
    if name.is_empty() {
        return Err(EISDIR);
    }
    let mut part = [0u8; PATH_MAX];
    let n = write_part_name(&mut part, folder, name, bytes);
    if PATH_MAX <= n {
        return Err(ENAMETOOLONG);
    }
    attempts(rt, bytes, &part[..n], to)
}

// Makes a file of these bytes where its name is free, or answers the system's error. A file that is there stays
// as it is.
pub fn make_file<R: Files + Clock>(rt: &R, bytes: &[u8], to: &[u8]) -> Result<Made, i32> {
    if PATH_MAX <= to.len() {
        return Err(ENAMETOOLONG);
    }
    let (folder, name) = to.split_at(last_part(to));
    make_in(rt, bytes, folder, name, to)
}

// Synchronises a folder, so that the names made in it last.
pub fn sync_folder(rt: &impl Files, folder: &[u8]) -> Result<(), i32> {
    let file = open_read(rt, folder)?;
    file.sync_all().map_err(error_of)
}
