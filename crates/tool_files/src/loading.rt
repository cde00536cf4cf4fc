// The bytes of a file of a name, brought into a buffer that is used again for the next.
use crate::troubles::Trouble;
use errors::number_of;
use std::rt::Files;
use system::EISDIR;
use system::streams::Streams;
use tool_output::complain;
use whole_files::input::{Sort, read_whole, sort_of};

// A file may have 2097152 bytes; one byte more tells that it has more.
pub const ROOM_IN: usize = 2097153;

// Reads a file that can be opened.
fn load_open<'a>(rt: &impl Files, name: &[u8], file: &'a mut [u8]) -> Result<&'a [u8], Trouble> {
    let n = read_whole(rt, name, file)?;
    Ok(&file[..n])
}

// The bytes of the file of a name, read into a buffer; or why not. What may keep a reader waiting is told before
// it is opened.
pub fn load<'a>(
    rt: &(impl Files + Streams),
    name: &[u8],
    file: &'a mut [u8],
    line: &mut [u8],
) -> Result<&'a [u8], Trouble> {
    match sort_of(rt, name) {
        Ok(Sort::File) => load_open(rt, name, file),
        Ok(Sort::Folder) => Err(Trouble::System(number_of(EISDIR))),
        Ok(Sort::Waiting) => {
            complain(rt, line, name, b"not a file: waiting for its end");
            load_open(rt, name, file)
        }
        Err(error) => Err(Trouble::System(number_of(error))),
    }
}
