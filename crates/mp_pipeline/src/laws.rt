//! What holds of pipelines, each law the contract of a function that does nothing.
ghost use Rattle.mp_pipeline.specs.Groups.{TotalsAreSums};
ghost use Rattle.mp_pipeline.specs.Pipes.{NumbersSayThePipe, OutputsAreRows};
ghost use Rattle.mp_pipeline.specs.Records.{EventsHaveFields};

/// The numbers of a pipeline say it again: the table of its numbers is the table of its own lines.
pub fn numbers_say_the_pipe()
    ensures { NumbersSayThePipe }
{}

/// Each output of each stage is a row of two numbers: the key of its group, and a value.
pub fn outputs_are_rows()
    ensures { OutputsAreRows }
{}

/// Counts are numbers of records, and sums are sums of values: where one would pass 2^64 - 1, it is that number.
pub fn totals_are_sums()
    ensures { TotalsAreSums }
{}

/// An event of a kind has the fields of the kind: 2, 6 or 4.
pub fn events_have_fields()
    ensures { EventsHaveFields }
{}
