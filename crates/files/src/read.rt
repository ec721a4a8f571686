// Named files, read into rooms. A file that can't be opened counts as an empty text.
ghost use Rattle.std.specs.Prelude.{◌≡◌, ◌≤◌, length};
ghost use Rattle.files.specs.Counts.{IsPrefixLen};

use crate::filled::Filled;
use std::fs::File;
use std::io;
use std::io::Read;
use std::rt::Files;

// The bytes that a text has room for.
pub const TEXT: usize = 57301;

// A text that is read.
pub type Text = Filled<TEXT>;

// One byte more than the longest text, a trace of form 2: a longer file is answer 1 whatever its size.
#[inline(always)]
pub fn text_buffer() -> [u8; TEXT]
    ensures { 57301 ≡ length result }
{
    [0; TEXT]
}

// The name of a file as std takes it: one that is not UTF-8 counts as that of a file that can't be opened.
pub(crate) fn path_of(name: &[u8]) -> io::Result<&str> {
    str::from_utf8(name).map_err(|_| io::Error::from(io::ErrorKind::InvalidFilename))
}

fn opened<R: Files>(rt: &R, name: &[u8]) -> io::Result<R::File> {
    File::open(rt, path_of(name)?)
}

// How many bytes one more read has put at the front of the lent ones: none at the end of the file, and none where the read fails.
fn read_once(file: &mut impl Read, buf: &mut [u8]) -> usize
    ensures { IsPrefixLen result buf.new }
{
    file.read(buf).unwrap_or(0)
}

// Reads until the lent bytes are full or a read puts none there.
fn read_full(file: &mut impl Read, buf: &mut [u8]) -> usize
    ensures { IsPrefixLen result buf.new }
{
    let mut done: usize = 0;
    // A Vec and `read_to_end` need the heap, which the programs have not, and `read_exact` fails at the end of a file.
    while done < buf.len() {
        let bytes = read_once(file, &mut buf[done..]);
        if bytes == 0 {
            return done;
        }
        done += bytes;
    }
    done
}

// The bytes of a file, as many as are lent.
pub fn read_file(rt: &impl Files, name: &[u8], buf: &mut [u8]) -> usize
    ensures { IsPrefixLen result buf.new }
{
    match opened(rt, name) {
        Ok(mut file) => read_full(&mut file, buf),
        Err(_) => 0,
    }
}

// The same, as many as a room holds.
pub fn read_text<const N: usize>(rt: &impl Files, name: &[u8], room: &mut Filled<N>)
    ensures { length room.new ≤ N }
{
    room.fill(|buf| read_file(rt, name, buf));
}
