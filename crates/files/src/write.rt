// Named files, written.
use crate::filled::Filled;
use crate::print::{front, print};
use crate::read::path_of;
use std::fmt::Write as _;
use std::fs::File;
use std::io;
use std::io::Write;
use std::rt::Files;

// Says on standard error why a file can't be written: its name, and the system's words for the error, without its number, which stands in brackets behind
// the words and a blank.
fn print_failed(err: &impl Print, name: &[u8], error: io::Error) {
    let mut text: Filled<256> = Filled::new();
    let _ = write!(text, "{error}");
    let words = text.as_slice();
    let end = words
        .iter()
        .position(|b| *b == b'(')
        .map_or(words.len(), |at| at.saturating_sub(1));
    print(err, name);
    print(err, b": ");
    print(err, front(words, end));
    print(err, b"\n");
}

// The file made to hold these bytes and nothing else.
fn put_file(rt: &impl Files, name: &[u8], bytes: &[u8]) -> io::Result<()> {
    let mut file = File::create(rt, path_of(name)?)?;
    file.write_all(bytes)
}

// Makes the file hold these bytes and nothing else; says on standard error if it can't be done.
pub(crate) fn write_file(rt: &impl Files, err: &impl Print, name: &[u8], bytes: &[u8]) -> bool {
    match put_file(rt, name, bytes) {
        Ok(()) => true,
        Err(error) => {
            print_failed(err, name, error);
            false
        }
    }
}
