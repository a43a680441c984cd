//! How fast the bins of a plan go.
ghost use Rattle.std.specs.Prelude.{◌≡◌, ◌≤◌, ◌<◌};
ghost use Rattle.mp_names.specs.Limits.{greatest_time};
ghost use Rattle.mp_plans.specs.Plans.{FitsPace, time_by};

use mp_names::Time;

/// How much later a bin goes than the first one.
#[derive(Clone, Copy)]
pub enum Pace {
    /// At the same time.
    AtOnce,
    /// This much later than the bin before it.
    Fluid(Time),
    /// So many bins at one time, and each batch this much later than the one before it.
    Batched(Time, u32),
}

impl Pace {
    /// The time at which a bin goes, where the first bin goes at `time`.
    pub fn time_of(self, time: Time, bin: u32) -> Time
        requires size { FitsPace self }
        requires last { time_by self time bin ≤ greatest_time }
        ensures { result ≡ time_by self time bin }
    {
        match self {
            Pace::AtOnce => time,
            Pace::Fluid(gap) => time + u64::from(bin) * gap,
            Pace::Batched(gap, size) => time + u64::from(bin / size) * gap,
        }
    }
}
