//! A crew one of whose workers stops on a thread of its own.
ghost use Rattle.std.specs.Prelude.{◌≡◌, false};
ghost use Rattle.mp_job.specs.Runs.{IsRunOf};

use mp_board::Cause;
use mp_gate::OpenGate;
use mp_job::Job;
use mp_model::Naming;
use mp_outside::MemSink;
use mp_samples::{StarvedBids, starved_job};
use mp_threads::{Crew, run_workers};
use std::alloc::{AllocError, Global};
use std::marker::Brand;
use std::process::Abort;
use std::sync::Wait;
use std::thread::Threads;

/// Runs the workers of a job whose only group finds no memory. That stops them all.
fn stops<J: Naming + Send + Sync, R: Threads + Wait + Sync + Abort>(
    rt: &R,
    alloc: Global,
    job: &Job<StarvedBids>,
) -> Result<(), AllocError>
    requires job { IsRunOf job.now J.job }
    requires pace { J.job.paced ≡ false }
{
    let crew = Crew::<StarvedBids, J, &R>::open(rt, alloc, job, 2)?;
    let mut sink = MemSink::new(alloc);
    match run_workers(rt, alloc, crew, &OpenGate, &mut sink) {
        Ok(_) => assert!(rt; false, "finished"),
        Err(cause) => assert!(rt; cause == Cause::Memory),
    }
    Ok(())
}

// Worker 1 stops. If it told nobody, the others would wait for its group, and the run wouldn't end.
#[test]
fn a_worker_without_memory_stops_all(rt: HostRuntime) -> Result<(), AllocError> {
    let job = starved_job(rt.alloc())?;
    assert!(rt; job.first_owner(0, 1) == 1);
    stops::<Brand, HostRuntime>(&rt, rt.alloc(), &job)
}
