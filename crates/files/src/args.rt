// The words of a call: the program's name, three names, then options. A word that is none of them is a slip of the hand: the program then says how it
// is used and prints nothing else, so that nothing is read as a verdict.
ghost use Rattle.std.specs.Prelude.{◌≡◌, ◌≤◌, length};
ghost use Rattle.files.specs.Counts.{IsPrefixLen};

use crate::filled::Filled;
use event::Word;
use std::env::FillError;
use std::rt::Env;

// The place of the first option: the program's name has place 0, and three names come after it.
const OPTIONS: usize = 4;

// The most bytes of a word.
pub const WORD: usize = 4096;

// A word of a call.
pub type Name = Filled<WORD>;

// What the options say, where they do.
#[derive(Clone, Copy)]
pub struct Options {
    // The place of the word that names the list's file.
    pub list: Option<usize>,
    // The group whose lines of the list are used.
    pub group: Option<Word>,
}

// Room for a word: the name of no file is as long.
#[inline(always)]
pub fn word_buffer() -> [u8; WORD]
    ensures { 4096 ≡ length result }
{
    [0; WORD]
}

// The word at a place, at the front of the lent bytes; what comes back is its length. A word that is missing, or longer than the bytes, is empty.
pub fn word_at(rt: &impl Env, place: usize, buf: &mut [u8]) -> usize
    ensures { IsPrefixLen result buf.new }
{
    rt.arg(place, buf).unwrap_or(0)
}

// The same in a room of its own.
#[inline(always)]
pub fn name_at(rt: &impl Env, place: usize) -> Name
    ensures { length result ≤ 4096 }
{
    let mut word = Filled::over(word_buffer());
    word.fill(|room| word_at(rt, place, room));
    word
}

// Whether there is a word at a place.
fn has_word(rt: &impl Env, place: usize) -> bool {
    !matches!(rt.arg(place, &mut []), Err(FillError::NotPresent))
}

// The group that a word names.
fn group_named(word: &[u8]) -> Option<Word> {
    match word {
        b"1" => Some(1),
        b"2" => Some(2),
        _ => None,
    }
}

// The options with a list or a group more, whose word stands at a place; each may be named once.
fn with_value(rt: &impl Env, options: Options, name: usize, place: usize) -> Option<Options> {
    match name_at(rt, name).as_slice() {
        b"--list" if options.list.is_none() => Some(Options {
            list: Some(place),
            ..options
        }),
        b"--group" if options.group.is_none() => Some(Options {
            group: Some(group_named(name_at(rt, place).as_slice())?),
            ..options
        }),
        _ => None,
    }
}

// The options with that which stands at a place, and its value at the next; none if it is not known, or stands there again, or has no value.
fn with_option(rt: &impl Env, options: Options, name: usize, place: usize) -> Option<Options> {
    if !has_word(rt, name) {
        return Some(options);
    }
    if !has_word(rt, place) {
        return None;
    }
    with_value(rt, options, name, place)
}

// The options: the words from their place on, `--list` with the name of a file and `--group` with 1 or 2, in any order; each may stand once.
fn options_given(rt: &impl Env) -> Option<Options> {
    let none = Options {
        list: None,
        group: None,
    };
    let one = with_option(rt, none, OPTIONS, OPTIONS + 1)?;
    let two = with_option(rt, one, OPTIONS + 2, OPTIONS + 3)?;
    if has_word(rt, OPTIONS + 4) {
        return None;
    }
    Some(two)
}

// How a program is used, on standard error.
pub fn print_usage(err: &impl Print, usage: &[u8]) {
    let _ = err.write_all(usage);
}

// Whether a name is missing.
pub fn is_short(rt: &impl Env) -> bool {
    !has_word(rt, OPTIONS - 1)
}

// The options of the call. Where one is not right or a name is missing it says how the program is used, on standard error.
pub fn options_of(rt: &impl Env, err: &impl Print, usage: &[u8]) -> Option<Options> {
    let options = options_given(rt);
    if options.is_none() {
        print_usage(err, usage);
    }
    if is_short(rt) {
        print_usage(err, usage);
    }
    options
}
