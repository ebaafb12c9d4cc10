//! What is written is what was read.
use crate::images::{counting, tick};
use psy_image::{Image, decode, encode, laws};
use std::test::Fail;

#[test]
fn an_image_is_written_as_it_was_read(rt: HostRuntime) -> Result<(), Fail> {
    let Image { unit, code } = decode(rt.alloc(), &counting())
        .ok()
        .ok_or("the bytes are an image")?;
    laws::kept();
    let bytes = encode(rt.alloc(), &unit, &code)
        .ok()
        .ok_or("memory is there")?;
    assert_eq!(rt; bytes.as_slice(), counting().as_slice());
    Ok(())
}

#[test]
fn a_tick_is_written_in_33_bytes(rt: HostRuntime) -> Result<(), Fail> {
    let Image { unit, code } = decode(rt.alloc(), &tick())
        .ok()
        .ok_or("the bytes are an image")?;
    laws::kept();
    let bytes = encode(rt.alloc(), &unit, &code)
        .ok()
        .ok_or("memory is there")?;
    assert_eq!(rt; bytes.as_slice(), tick().as_slice());
    Ok(())
}
