//! What a message and a post are.
ghost use Rattle.std.specs.Prelude.{◌≡◌, ℕ, ◌<◌, true, List, OnOk, OnErr, IfErr, IfSome, IfNone};
ghost use Rattle.mp_mailbox.specs.Standing.{IsFresh, Denotes, AddsLast, AddsPushed, AddsPopped, PopsNew, KeepsEdge, KeepsEnds, KeepsOthers, KeepsOthersWaiting, KeepsWaiting, TakesFirst};

/// A message has names, and goes along one edge, from one worker to another. Which job it belongs to is
/// a matter of its type (this project's profile).
pub trait Named {
    /// What a name is. No value of it is made.
    type Name;

    // What the message is called, mostly by one name.
    ghost names: { Self → List Self.Name };

    // The worker that sends it.
    ghost from: { Self → ℕ };

    // The worker that receives it.
    ghost to: { Self → ℕ };
}

/// The answer of a push into a full queue.
#[derive(Drop)]
pub struct Full<M> {
    /// The message, which was not pushed.
    pub message: M,
}

/// Queues between workers, one for each ordered pair of them (this project's profile).
///
/// A post doesn't store its past. In contracts it stands, on each edge, for the names that were pushed
/// with `Ok` and the names that were popped, as a relation: it may stand for several such lists where
/// it sees one end alone.
pub trait Post<M: Named> {
    // The number of workers.
    ghost workers: { Self → ℕ };

    // How many messages each queue takes; 0 where the post doesn't tell.
    ghost depth: { Self → ℕ } = { λ _. 0 };

    // This worker's ends are here: the ends at which it pushes and those at which it pops.
    ghost serves: { Self → ℕ → Type 0 };

    // From a worker to a worker, these names were pushed with `Ok`, and these were popped.
    ghost denotes: { Self → ℕ → ℕ → List M.Name → List M.Name → Type 0 };

    // From a worker to a worker, these messages wait, the oldest first, each with its names; none where
    // the post doesn't tell.
    ghost waits: { Self → ℕ → ℕ → List (List M.Name) → Type 0 } = { λ _ _ _ _. ⊥ };

    // What `Ok` tells of the queue from a worker to a worker, at the push's step.
    ghost had_room: { Self → ℕ → ℕ → Type 0 };

    // What `Full` tells of it.
    ghost was_full: { Self → ℕ → ℕ → Type 0 };

    // What `None` tells of it, at the pop's step.
    ghost was_empty: { Self → ℕ → ℕ → Type 0 };

    /// Pushes a message behind all that wait on its edge, or hands it back where the queue was full.
    /// Takes no memory.
    fn push(&mut self, from: u32, to: u32, message: M) -> Result<(), Full<M>>
        requires workers { (from < workers self.old) × (to < workers self.old) }
        requires serves { serves self.old from }
        requires edge { (M.from message ≡ from) × (M.to message ≡ to) }
        requires fresh { IsFresh (denotes self.old) from to (M.names message) }

        ensures room { OnOk result (had_room self.old from to) }
        ensures ok { OnOk result (AddsPushed (denotes self.old) (denotes self.new) from to (M.names message)) }
        ensures last { OnOk result (AddsLast (waits self.old) (waits self.new) from to (M.names message)) }

        ensures full { OnErr result (was_full self.old from to) }
        ensures back { IfErr result (λ f. f.message ≡ message) }
        ensures unchanged { OnErr result (KeepsEdge (denotes self.old) (denotes self.new) from to) }
        ensures waiting { OnErr result (KeepsWaiting (waits self.old) (waits self.new) from to) }

        ensures others { KeepsOthers (denotes self.old) (denotes self.new) from to }
        ensures others_wait { KeepsOthersWaiting (waits self.old) (waits self.new) from to }
        ensures keeps { KeepsEnds workers depth serves self.old self.new };

    /// Whether no message waits on the edge: where `true`, none waited, and a pop would have answered `None`. `false`
    /// promises nothing. Takes no memory, and nothing changes.
    fn is_empty(&mut self, from: u32, to: u32) -> bool
        requires workers { (from < workers self.old) × (to < workers self.old) }
        requires serves { serves self.old to }

        ensures empty { result ≡ true → was_empty self.old from to }
        ensures same { self.new ≡ self.old };

    /// Pops the message that was pushed first of those that wait on the edge, or answers `None` where
    /// none waited. Takes no memory.
    fn pop(&mut self, from: u32, to: u32) -> Option<M>
        requires workers { (from < workers self.old) × (to < workers self.old) }
        requires serves { serves self.old to }
        requires denotes { Denotes (denotes self.old) from to }

        ensures edge { IfSome result (λ m. (M.from m ≡ from) × (M.to m ≡ to)) }
        ensures some { IfSome result (λ m. AddsPopped (denotes self.old) (denotes self.new) from to (M.names m)) }
        ensures once { IfSome result (λ m. PopsNew (denotes self.old) from to (M.names m)) }
        ensures first { IfSome result (λ m. TakesFirst (waits self.old) (waits self.new) from to (M.names m)) }

        ensures empty { IfNone result (was_empty self.old from to) }
        ensures none { IfNone result (KeepsEdge (denotes self.old) (denotes self.new) from to) }
        ensures waiting { IfNone result (KeepsWaiting (waits self.old) (waits self.new) from to) }

        ensures others { KeepsOthers (denotes self.old) (denotes self.new) from to }
        ensures others_wait { KeepsOthersWaiting (waits self.old) (waits self.new) from to }
        ensures keeps { KeepsEnds workers depth serves self.old self.new };
}
