// Files by names that are bytes, opened, renamed and removed. What the system refuses is answered by its error
// number, 5 where it tells none.
use crate::{EIO, NOT_TEXT, path_error};
use std::fs::OpenOptions;
use std::io;
use std::rt::Files;

// The number of an error; that of a failed device where it has none.
pub fn error_of(e: io::Error) -> i32 {
    match e.raw_os_error() {
        Some(number) if number != 0 => number,
        _ => EIO,
    }
}

// A name as text, or why std takes none such.
fn text_of(path: &[u8]) -> Result<&str, i32> {
    let refused = path_error(path);
    if refused != 0 {
        return Err(refused);
    }
    str::from_utf8(path).map_err(|_| NOT_TEXT)
}

// Opens a file in some way.
fn open_as<F: Files>(rt: &F, path: &[u8], how: &OpenOptions) -> Result<F::File, i32> {
    rt.open_file(how, text_of(path)?).map_err(error_of)
}

// Opens a file to be read.
pub fn open_read<F: Files>(rt: &F, path: &[u8]) -> Result<F::File, i32> {
    let mut how = OpenOptions::new();
    how.read(true);
    open_as(rt, path, &how)
}

// Opens a file to be read and written, whose bytes stay.
pub fn open_update<F: Files>(rt: &F, path: &[u8]) -> Result<F::File, i32> {
    let mut how = OpenOptions::new();
    how.read(true).write(true);
    open_as(rt, path, &how)
}

// Makes a file to be written, where the name is free.
pub fn create<F: Files>(rt: &F, path: &[u8]) -> Result<F::File, i32> {
    let mut how = OpenOptions::new();
    how.write(true).create_new(true);
    open_as(rt, path, &how)
}

// Gives a file another name.
pub fn rename(rt: &impl Files, from: &[u8], to: &[u8]) -> Result<(), i32> {
    rt.rename(text_of(from)?, text_of(to)?).map_err(error_of)
}

// Removes a name.
pub fn unlink(rt: &impl Files, path: &[u8]) -> Result<(), i32> {
    rt.remove_file(text_of(path)?).map_err(error_of)
}
