//! Printed numbers, and the texts of refused ones.
use mp_text::{BadNumber, put_number};
use std::alloc::{AllocError, Global};
use std::process::Abort;

// The least and the greatest number, behind what was there.
fn two_numbers(alloc: Global) -> Result<Vec<u8>, AllocError> {
    let mut out = b">".to_vec(alloc)?;
    put_number(&mut out, 0)?;
    put_number(&mut out, u64::MAX)?;
    Ok(out)
}

#[test]
fn numbers_are_written(rt: HostRuntime) -> Result<(), AllocError> {
    let out = two_numbers(rt.alloc())?;
    assert!(rt; out.as_slice() == b">018446744073709551615".as_slice());
    Ok(())
}

fn reads(rt: &impl Abort, alloc: Global, bad: BadNumber, text: &str) -> Result<(), AllocError> {
    let shown = bad.to_string(alloc)?;
    assert!(rt; shown.as_str() == text);
    Ok(())
}

#[test]
fn bad_numbers_have_a_text(rt: HostRuntime) -> Result<(), AllocError> {
    reads(&rt, rt.alloc(), BadNumber::Digits, "not a number")?;
    reads(&rt, rt.alloc(), BadNumber::Range, "number out of range")
}
