//! The rows in order, and their lines.
ghost use Rattle.std.specs.Prelude.{◌≡◌, IfOk, OnOk};
ghost use Rattle.std.specs.List.{flat_map};
ghost use Rattle.mp_model.specs.Answers.{in_order, line_of, one_thread_answer, with_row};
ghost use Rattle.mp_model.specs.Legal.{EventsAreLegal};

use crate::pieces::Pieces;
use crate::stages::answer_rows;
use mp_model::{Event, Output, Place, Query, Value};
use std::alloc::{AllocError, Global};
use std::collections::BTreeMap;

/// Rows by their places, in order.
pub type Rows = BTreeMap<Place, Value>;

/// The answer of a query to events, the lines of one time as one piece. `AllocError`: no memory.
pub fn answer_pieces<Q: Query>(
    alloc: Global,
    query: &Q,
    events: &[Event],
) -> Result<Vec<Vec<u8>>, AllocError>
    requires { EventsAreLegal events.now }
    ensures { IfOk result (λ v. flat_map (λ p. p.items) v.items
        ≡ one_thread_answer (Q.facts (Q.values query.now)) events.now) }
{
    let rows = in_order(alloc, answer_rows(alloc, query, events)?)?;
    let mut pieces = Pieces::new(alloc);
    for (place, value) in rows {
        pieces.push_line(&place, &value)?;
    }
    pieces.finish()
}

/// The rows, each at its place. `AllocError`: no memory.
pub fn in_order(alloc: Global, outputs: Vec<Output>) -> Result<Rows, AllocError>
    ensures { IfOk result (λ m. m.entries ≡ in_order outputs.items) }
{
    let mut rows = BTreeMap::new(alloc);
    for output in outputs {
        put_row(&mut rows, output)?;
    }
    Ok(rows)
}

/// Puts a row at its place.
fn put_row(rows: &mut Rows, output: Output) -> Result<(), AllocError>
    ensures { OnOk result (rows.new.entries ≡ with_row rows.old.entries output) }
{
    let Output { time, tag, value } = output;
    rows.insert(Place { time, tag }, value)?;
    Ok(())
}
