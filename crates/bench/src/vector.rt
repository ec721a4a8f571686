// A vector in a file: a header, what is handed over, what comes back. The head comment of peer/vectors.rs gives the formats.
ghost use Rattle.std.specs.Prelude.{◌≡◌, length};

use super::call::{Call, ListFor};
use event::{Answer, Word, number_index};
use files::check::Texts;
use record::form::Form;
use text::line::LF;
use text::number::number_of;
use text::scan::find;

// The byte that parts the numbers of a header.
const BLANK: u8 = b' ';

// Which number of a check's and a run's header is which.
const SOURCE_BYTES: usize = 0;

const TARGET_BYTES: usize = 1;

const MATCHING_BYTES: usize = 2;

pub(crate) const SOURCE_WORDS: usize = 3;

pub(crate) const TARGET_WORDS: usize = 4;

pub(crate) const ENTRY_WORDS: usize = 5;

// Which number of a move's and a writing's header is which.
const FORM: usize = 0;

const TEXT_BYTES: usize = 1;

pub(crate) const ROOM_WORDS: usize = 2;

pub(crate) const CHANGED_AT: usize = 3;

pub(crate) const CHANGED_TO: usize = 4;

pub(crate) const OUT_BYTES: usize = 5;

// Which number of every header is which.
const NUMBER: usize = 6;

const SIDE: usize = 7;

const PLACE: usize = 8;

const GIVEN_BYTES: usize = 9;

// A call with a list has the length of the list there, and the name after it.
const LIST_BYTES: usize = 10;

const NAME: usize = 10;

// Data that is cut from the front.
#[derive(Clone, Copy)]
pub(crate) struct Parts<'a> {
    rest: &'a [u8],
}

impl<'a> Parts<'a> {
    pub fn new(rest: &'a [u8]) -> Self {
        Parts { rest }
    }

    // How many bytes are left.
    pub fn len(&self) -> usize
        ensures { result ≡ length self.now.rest.now }
    {
        self.rest.len()
    }

    // So many bytes, or all that are left.
    pub fn take(&mut self, count: usize) -> &'a [u8] {
        let rest = self.rest;
        let (part, after) = rest.split_at(count.min(rest.len()));
        self.rest = after;
        part
    }

    // What stands before the next such byte, which goes too.
    fn until(&mut self, stop: u8) -> &'a [u8] {
        let part = self.take(find(self.rest, 0, stop));
        self.take(1);
        part
    }

    // The list of a call for a group, as long as the header says; there is none without a group.
    fn call(&mut self, header: Header<'_>, group: Option<Word>) -> Call<'a> {
        Call {
            list: group.map(|group| ListFor {
                list: self.take(header.number(LIST_BYTES)),
                group,
            }),
        }
    }
}

// The first line of a vector: numbers, then its name.
#[derive(Clone, Copy)]
pub(crate) struct Header<'a> {
    line: &'a [u8],
}

impl<'a> Header<'a> {
    // What stands behind so many fields.
    fn behind(self, k: usize) -> Parts<'a> {
        let mut parts = Parts::new(self.line);
        for _ in 0..k {
            parts.until(BLANK);
        }
        parts
    }

    // Number k, from 0; 0 if it is none. None is too great: a word of an event may be one.
    pub fn number(self, k: usize) -> usize {
        number_of(self.behind(k).until(BLANK), u64::MAX).map_or(0, |n| n as usize)
    }

    // The form that is named.
    pub fn form(self) -> Form {
        if self.number(FORM) == 2 {
            return Form::Two;
        }
        Form::One
    }

    // The numbers of the answer.
    pub fn answer(self) -> [usize; 3] {
        [self.number(NUMBER), self.number(SIDE), self.number(PLACE)]
    }

    // Whether an answer is the one that is said.
    pub fn is_said(self, answer: Answer) -> bool {
        self.answer()
            == [
                number_index(answer.number),
                number_index(answer.side),
                answer.place,
            ]
    }

    // The name: all that follows the numbers that every header has, the length of a list before it.
    pub fn name(self) -> &'a [u8] {
        self.behind(NAME).rest
    }
}

// A check, a run or a shortening. What comes back is the offending line, or the lines of the steps.
#[derive(Clone, Copy)]
pub(crate) struct CheckVector<'a> {
    pub header: Header<'a>,
    pub texts: Texts<'a>,
    pub given: &'a [u8],
    pub call: Call<'a>,
}

impl<'a> CheckVector<'a> {
    // The one that is next, with a list for a group or without.
    pub fn read(parts: &mut Parts<'a>, group: Option<Word>) -> Self {
        let header = Header {
            line: parts.until(LF),
        };
        let texts = Texts {
            source: parts.take(header.number(SOURCE_BYTES)),
            target: parts.take(header.number(TARGET_BYTES)),
            matching: parts.take(header.number(MATCHING_BYTES)),
        };
        CheckVector {
            header,
            texts,
            given: parts.take(header.number(GIVEN_BYTES)),
            call: parts.call(header, group),
        }
    }
}

// A move, a writing or a list. The text that is written, or the marks of the list, is what comes back.
#[derive(Clone, Copy)]
pub(crate) struct TextVector<'a> {
    pub header: Header<'a>,
    pub text: &'a [u8],
    pub written: &'a [u8],
    pub call: Call<'a>,
}

impl<'a> TextVector<'a> {
    // The one that is next, with a list for a group or without.
    pub fn read(parts: &mut Parts<'a>, group: Option<Word>) -> Self {
        let header = Header {
            line: parts.until(LF),
        };
        TextVector {
            header,
            text: parts.take(header.number(TEXT_BYTES)),
            written: parts.take(header.number(GIVEN_BYTES)),
            call: parts.call(header, group),
        }
    }
}
