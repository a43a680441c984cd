//! When the control records of a run go out.
ghost use Rattle.std.specs.Prelude.{◌≡◌, true, false};
ghost use Rattle.mp_job.specs.Runs.{IsRunOf};

use crate::refused::Refused;
use mp_board::Cause;
use mp_control::{RuleList, read_settings};
use mp_drive::Plain;
use mp_events::read_events;
use mp_job::Job;
use mp_model::Naming;
use mp_names::{Kind, Name, Shape};
use mp_outside::MemSink;
use mp_q_simple::Q1;
use mp_worker::Turn;
use std::alloc::Global;
use std::marker::Brand;

const SHAPE: Shape = Shape {
    workers: 2,
    bins: 1,
    stages: 1,
};

/// One bid, and a bin that goes to worker 1 and comes back.
fn job_of(alloc: Global, moves: &[u8]) -> Result<Job<Q1>, Refused> {
    let events = read_events(alloc, b"B|5|1|1|100\n")?;
    let settings = read_settings(alloc, moves, &SHAPE, &RuleList::new())?;
    let job = Job::new(alloc, Q1::given(), events, settings.controls, SHAPE)?;
    Ok(job)
}

/// What worker 0 answers where it is to send a control record three times.
fn sent<J: Naming>(alloc: Global, mut plain: Plain<'_, Q1, J>) -> Result<Vec<Turn>, Cause> {
    let step = (0, Kind::SendControl);
    plain.drive_list(alloc, &[step, step, step], &mut MemSink::new(alloc))
}

fn sent_paced<J: Naming>(alloc: Global, job: &Job<Q1>) -> Result<Vec<Turn>, Cause>
    requires job { IsRunOf job.now J.job }
    requires pace { J.job.paced ≡ true }
{
    let plain = Plain::<Q1, J>::open_paced(alloc, job, 64)?;
    sent(alloc, plain)
}

fn sent_at_once<J: Naming>(alloc: Global, job: &Job<Q1>) -> Result<Vec<Turn>, Cause>
    requires job { IsRunOf job.now J.job }
    requires pace { J.job.paced ≡ false }
{
    let plain = Plain::<Q1, J>::open(alloc, job, 64)?;
    sent(alloc, plain)
}

fn told(index: u32, to: u32) -> Turn {
    Turn::Did(Name::Ctrl { index, to }, 1)
}

// The second move waits until all know that the bin has arrived, where the run is paced.
#[test]
fn paced_sends(rt: HostRuntime) -> Result<(), Refused> {
    let job = job_of(rt.alloc(), b"M|10|0|0|1\nM|20|0|0|0\n")?;
    let paced = sent_paced::<Brand>(rt.alloc(), &job)?;
    assert!(rt; paced.as_slice() == [told(0, 0), told(0, 1), Turn::NotNow].as_slice());
    let at_once = sent_at_once::<Brand>(rt.alloc(), &job)?;
    assert!(rt; at_once.as_slice() == [told(0, 0), told(0, 1), told(1, 0)].as_slice());
    Ok(())
}

// Where the later move stands first, the sooner one goes out first all the same.
#[test]
fn paced_moves_go_out_by_time(rt: HostRuntime) -> Result<(), Refused> {
    let job = job_of(rt.alloc(), b"M|20|0|0|0\nM|10|0|0|1\n")?;
    let paced = sent_paced::<Brand>(rt.alloc(), &job)?;
    assert!(rt; paced.as_slice() == [told(1, 0), told(1, 1), Turn::NotNow].as_slice());
    Ok(())
}
