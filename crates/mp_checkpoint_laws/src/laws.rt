//! The laws of checkpoint files, each the contract of a function that does nothing.
ghost use Rattle.std.specs.Prelude.{◌<◌, ◌^◌, ℕ, List, All};
ghost use Rattle.mp_checkpoint_laws.specs.Files.{format_of};
ghost use Rattle.mp_checkpoint_laws.specs.Laws.{CutFilesAreRefused, FilesTellCheckpoints};

use mp_saved::Saved;

/// No file of a checkpoint that lacks a part at its end is the file of a checkpoint of that query, with those values of its
/// rules.
pub fn cut_files_are_refused<Q: Saved>()
    ensures { (number : ℕ) (vs : List ℕ) → number < 2 ^ 64 → All (λ n. n < 2 ^ 64) vs → CutFilesAreRefused (format_of number vs (Q.facts vs) Q.text_of) }
{}

/// A file is that of one checkpoint alone.
pub fn files_tell_checkpoints<Q: Saved>()
    ensures { (number : ℕ) (vs : List ℕ) → number < 2 ^ 64 → All (λ n. n < 2 ^ 64) vs → FilesTellCheckpoints (format_of number vs (Q.facts vs) Q.text_of) }
{}
