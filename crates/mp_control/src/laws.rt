//! What holds of configurations, as the contract of a function that does nothing.
ghost use Rattle.mp_control.specs.VersionOne.{VersionOneIsAsBefore};

/// A file whose first line that isn't blank doesn't begin with the field `V` says control records alone, with no first owners and
/// the given values; or it is refused for the first of its lines that is no good control line.
pub fn version_one_is_as_before()
    ensures { VersionOneIsAsBefore }
{}
