//! Texts that are no traces, and one that is as long as may be.
use crate::judged::judged;
use crate::lines::{LEGAL, spoilt, wrong};
use psy_base::limits;
use std::test::Fail;

#[test]
fn no_text_is_a_trace_without_its_end(rt: HostRuntime) {
    assert_eq!(rt; judged(rt.alloc(), b""), wrong(1, 1));
}

#[test]
fn a_long_line_is_no_line_of_a_trace(rt: HostRuntime) -> Result<(), Fail> {
    let mut text = Vec::new(rt.alloc());
    text.resize(limits::FILE_BYTES, b'a')?;
    assert_eq!(rt; judged(rt.alloc(), text.as_slice()), wrong(1, 1));
    Ok(())
}

#[test]
fn blanks_may_fill_the_last_line(rt: HostRuntime) -> Result<(), Fail> {
    let mut text = spoilt(rt.alloc(), (8, "end 2", 9))?;
    text.resize(limits::FILE_BYTES, b' ')?;
    assert_eq!(rt; judged(rt.alloc(), text.as_slice()), LEGAL);
    Ok(())
}
