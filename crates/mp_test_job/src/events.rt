//! The texts of refused event files.
use mp_events::{EventsReason, EventsRefused};
use std::alloc::{AllocError, Global};
use std::process::Abort;

fn reads(rt: &impl Abort, alloc: Global, why: EventsRefused, text: &str) -> Result<(), AllocError> {
    let shown = why.to_string(alloc)?;
    assert!(rt; shown.as_str() == text);
    Ok(())
}

#[test]
fn refusals_have_a_text(rt: HostRuntime) -> Result<(), AllocError> {
    let bad_line = EventsRefused::BadLine {
        line: 7,
        why: EventsReason::Fields,
    };
    reads(&rt, rt.alloc(), bad_line, "line 7: fields")?;
    reads(&rt, rt.alloc(), EventsRefused::NoMemory, "out of memory")
}
