//! The texts of refused words. What words ask for, and which are refused, stands in examples/cases.toml.
use mp_words::WordsRefused;
use std::alloc::{AllocError, Global};
use std::process::Abort;

fn reads(rt: &impl Abort, alloc: Global, why: WordsRefused, text: &str) -> Result<(), AllocError> {
    let shown = why.to_string(alloc)?;
    assert!(rt; shown.as_str() == text);
    Ok(())
}

#[test]
fn refusals_have_a_text(rt: HostRuntime) -> Result<(), AllocError> {
    reads(&rt, rt.alloc(), WordsRefused::Usage, "no command")?;
    reads(&rt, rt.alloc(), WordsRefused::NoMemory, "no memory")
}
