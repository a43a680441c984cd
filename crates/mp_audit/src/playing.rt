//! What plays the machine.
ghost use Rattle.std.specs.Prelude.{◌≡◌, ℕ, Ok, true, false, ◌↔◌, IsTrue};
ghost use Rattle.mp_names.specs.Outlines.{Outline};
ghost use Rattle.mp_machine.specs.Worlds.{World};
ghost use Rattle.mp_machine.specs.Runs.{IsFinished, step_of_machine};
ghost use Rattle.mp_journal_laws.specs.Merges.{IsMade};

use mp_names::Kept;
use std::alloc::AllocError;

/// What plays the machine. It stands for a world; what it keeps of it needn't tell all of it, as the order of names in a log.
pub trait Play {
    /// The job.
    ghost outline: { Self → Outline };

    /// How many messages a mailbox takes.
    ghost depth: { Self → ℕ };

    /// It may stand for this world.
    ghost shows: { Self → World → Type 0 };

    /// Makes a worker's step where its condition is true, and it gives its version if it is an exchange: whether it did. Else
    /// nothing changes.
    fn make(&mut self, worker: u32, step: Kept) -> Result<bool, AllocError>
        ensures outline { outline self.new ≡ outline self.old }
        ensures depth { depth self.new ≡ depth self.old }
        ensures made { result ≡ Ok true → (world : World) → shows self.old world
            → IsMade (outline self.old) (depth self.old) world worker step
            × shows self.new (step_of_machine (outline self.old) (depth self.old) world worker step.kind) }
        ensures refused { result ≡ Ok false → (world : World) → shows self.old world
            → (IsMade (outline self.old) (depth self.old) world worker step → ⊥) × shows self.new world };

    /// Whether the worker's log is what it posted.
    fn is_posted(&self, worker: u32) -> bool
        ensures { (world : World) → shows self.now world
            → let w = world.worker worker in IsTrue result ↔ (w.log ≡ w.posted) };

    /// The board's version.
    fn version(&self) -> u64
        ensures { (world : World) → shows self.now world → result ≡ world.version };

    /// Whether all is over.
    fn is_finished(&self) -> bool
        ensures { (world : World) → shows self.now world → (IsTrue result ↔ IsFinished (outline self.now) world) };
}
