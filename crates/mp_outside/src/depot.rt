// Files by their names: what a depot means, and what each call does to that.
ghost use Rattle.std.specs.Prelude.{◌≡◌, ◌≤◌, ◌<◌, ℕ, Bool, true, false, List, [], Option, None, length, take, drop, IfOk, IfSome, OnErr, OnOk};
ghost use Rattle.mp_outside.specs.Depot.{OnlyReads, OnlyWrites};
ghost use Rattle.mp_outside.specs.Fault.{HasCause};
ghost use Rattle.mp_outside.specs.Files.{Files, file_at, IsThere, with_file, with_more};

use crate::Fault;

/// Files by their names. Contracts see the files, where the depot tells them, and two counts of
/// faults. `Failed` comes only where the call's own count rose in it or stands at its last value,
/// 2^64 - 1; any other answer counts no fault. A call that is refused, for that or for an allocation
/// failure, leaves the files as they were.
pub trait Depot {
    /// The files that are there. None where the depot doesn't tell, as a folder of the system.
    ghost files: { Self → Option Files };

    /// How often a `find` or a `read` has failed.
    ghost read_faults: { Self → ℕ };

    /// How often a `begin` or an `append` has failed.
    ghost write_faults: { Self → ℕ };

    /// What else is known of the depot, none of which a call changes: for one that is a sink too, the
    /// bytes written to it.
    ghost frame: { Self → Option (List ℕ) } = { λ _. None };

    /// A `find` of this name gave this answer, and took the depot from the first state to the last.
    ghost found: { Self → List ℕ → Bool → Self → Type 0 };

    /// Whether the name is there.
    fn find(&mut self, name: &str) -> Result<bool, Fault>
        ensures there { IfOk result (λ there. there ≡ true → IsThere (files self.old) name.now) }
        ensures absent { IfOk result (λ there. there ≡ false → file_at (files self.old) name.now ≡ None) }
        ensures found { IfOk result (λ there. found self.old name.now there self.new) }

        ensures reads_only { OnlyReads files read_faults write_faults self.old self.new }
        ensures frame { frame self.new ≡ frame self.old }
        ensures cause { HasCause (read_faults self.old) (read_faults self.new) result };

    /// Reads from byte `at` on into the front of `into`, and answers how many bytes it read. 0 says
    /// that `into` is empty or that the name has no byte at `at`. What the rest of `into` holds then
    /// is left open, and at `Err` all of it. Where the depot tells its files, the name has to be there.
    fn read(&mut self, name: &str, at: u64, into: &mut [u8]) -> Result<usize, Fault>
        requires { IsThere (files self.old) name.now }
        ensures within { IfOk result (λ n. n ≤ length into.old) }
        ensures next { IfOk result (λ n. IfSome (file_at (files self.old) name.now)
            (λ bytes. take n into.new ≡ take n (drop at bytes))) }
        ensures end { IfOk result (λ n. n ≡ 0 → 0 < length into.old →
            IfSome (file_at (files self.old) name.now) (λ bytes. length bytes ≤ at)) }

        ensures reads_only { OnlyReads files read_faults write_faults self.old self.new }
        ensures frame { frame self.new ≡ frame self.old }
        ensures cause { HasCause (read_faults self.old) (read_faults self.new) result };

    /// Makes the name there with no bytes, whether it was there or not.
    fn begin(&mut self, name: &str) -> Result<(), Fault>
        ensures begun { OnOk result (files self.new ≡ with_file (files self.old) name.now []) }
        ensures unchanged { OnErr result (files self.new ≡ files self.old) }

        ensures writes_only { OnlyWrites read_faults write_faults self.old self.new }
        ensures frame { frame self.new ≡ frame self.old }
        ensures cause { HasCause (write_faults self.old) (write_faults self.new) result };

    /// Puts a part of the piece, from its front, behind the name's bytes, and answers its length: at
    /// least one byte of a piece that isn't empty. Where the depot tells its files, the name has to be
    /// there.
    fn append(&mut self, name: &str, piece: &[u8]) -> Result<usize, Fault>
        requires { IsThere (files self.old) name.now }
        ensures within { IfOk result (λ n. n ≤ length piece.now) }
        ensures some { IfOk result (λ n. 0 < length piece.now → 0 < n) }
        ensures appended { IfOk result (λ n.
            files self.new ≡ with_more (files self.old) name.now (take n piece.now)) }
        ensures unchanged { OnErr result (files self.new ≡ files self.old) }

        ensures writes_only { OnlyWrites read_faults write_faults self.old self.new }
        ensures frame { frame self.new ≡ frame self.old }
        ensures cause { HasCause (write_faults self.old) (write_faults self.new) result };
}
