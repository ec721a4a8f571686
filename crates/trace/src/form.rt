// The form of a trace text, from its line 1.
ghost use Rattle.std.specs.Prelude.{◌≡◌};
ghost use Rattle.event.specs.Told.{Passes};
ghost use Rattle.text.specs.Line.{split};
ghost use Rattle.frame.specs.Reading.{headed, head_fault};
ghost use Rattle.record.specs.Form.{header, limit_of};
ghost use Rattle.trace.specs.Reading.{form_of};

use event::{Answer, Number};
use frame::{head_fault, is_headed};
use record::form::{Form, header_bytes, limit_of};

// Whether line 1 is that of a form, and has a LF.
pub fn is_of(form: Form, text: &[u8]) -> bool
    ensures { result ≡ headed (header form) (split text.now) }
{
    is_headed(text, &header_bytes(form))
}

// The form of a text.
#[tactic(auto, unfolding(crate::specs::Reading::form_of))]
pub fn form_of(text: &[u8]) -> Form
    ensures { result ≡ form_of text.now }
{
    if is_of(Form::Two, text) {
        return Form::Two;
    }
    Form::One
}

// 1, and 2 at line 1, for a text that is to be of a form.
pub(crate) fn head_fault_of(form: Form, text: &[u8], side: Number) -> Result<(), Answer>
    ensures { Passes (head_fault side (limit_of form) (header form) text.now) result }
{
    head_fault(text, side, limit_of(form), &header_bytes(form))
}
