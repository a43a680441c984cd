// The methods of a depot and a sink, by which a fake is told which call fails.

/// A method of `Depot` or `Sink`.
#[derive(Clone, Copy)]
pub enum Op {
    Find,
    Read,
    Begin,
    Append,
    Write,
}
