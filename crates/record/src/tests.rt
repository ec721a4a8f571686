// Line 1 of each form, in its bytes.
use crate::form::{Form, header_bytes, header_of};

#[test]
fn line_1_of_each_form(rt: HostRuntime) {
    for (form, line) in [(Form::One, b"trace\t1"), (Form::Two, b"trace\t2")] {
        assert_eq!(rt; header_of(form), line.as_slice());
        assert_eq!(rt; header_bytes(form), *line);
    }
}
