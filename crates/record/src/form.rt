// The forms of a trace text, told by its line 1. A line's reader, its print and the limit depend on the form, and nothing else does.
ghost use Rattle.std.specs.Prelude.{◌≡◌};
ghost use Rattle.record.specs.Form.{coded, header, limit_of, loses, silent};

use event::Word;

#[derive(Clone, Copy)]
pub enum Form {
    One,
    Two,
}

// The most bytes of a text of form 1, and of form 2.
pub const PLAIN_LIMIT: usize = 52500;

pub const CODED_LIMIT: usize = 57300;

// Whether an event's line ends with a code line.
pub fn is_coded(form: Form) -> bool
    ensures { result ≡ coded form }
{
    matches!(form, Form::Two)
}

// Whether a code line would be lost.
pub fn does_lose(form: Form, code: Word) -> bool
    ensures { result ≡ loses form code }
{
    matches!(form, Form::One) && code != 0
}

// Whether a starting value is a silent zero: it has no line, and a location without a line has it.
pub fn is_silent(form: Form, value: Word) -> bool
    ensures { result ≡ silent form value }
{
    matches!(form, Form::One) && value == 0
}

// The most bytes of a text.
pub fn limit_of(form: Form) -> usize
    ensures { result ≡ limit_of form }
{
    match form {
        Form::One => PLAIN_LIMIT,
        Form::Two => CODED_LIMIT,
    }
}

// Line 1 of a text, without its LF.
pub fn header_bytes(form: Form) -> [u8; 7]
    ensures { result ≡ header form }
{
    match form {
        Form::One => *b"trace\t1",
        Form::Two => *b"trace\t2",
    }
}

// The same, lent for as long as the program runs.
pub fn header_of(form: Form) -> &'static [u8]
    ensures { result.now ≡ header form }
{
    match form {
        Form::One => b"trace\t1",
        Form::Two => b"trace\t2",
    }
}
