//! Of rows: those of two times, received or held in another order than that of the answer.
ghost use Rattle.std.specs.Prelude.{◌≡◌, IfOk};
ghost use Rattle.mp_samples.specs.Jobs.{row_at, three_bids};

use crate::seen::seen_with;
use mp_model::{Naming, Output, Tag, Time, Value};
use mp_output::{OutRefused, Rows, Unsent, Wrote, answer_rows_are_rows};
use mp_outside::{MemSink, Op};
use mp_samples::{AnsweringBids, fields_of};
use mp_stamps::{Loc, Seen};
use std::alloc::{AllocError, Global};
use std::marker::Brand;
use std::process::Abort;

// The job's three rows come, the last of them first.
fn receive_three<J: Naming>(
    alloc: Global,
    rows: &mut Rows<AnsweringBids, J>,
) -> Result<(), AllocError>
    requires { J.job ≡ three_bids }
{
    rows.make_room(3)?;
    rows.receive(8, Tag(2, 0), fields_of(alloc, 2)?)?;
    rows.receive(5, Tag(7, 0), fields_of(alloc, 7)?)?;
    rows.receive(5, Tag(3, 0), fields_of(alloc, 3)?)
}

fn three_rows<J: Naming>(alloc: Global) -> Result<Rows<AnsweringBids, J>, AllocError>
    requires { J.job ≡ three_bids }
{
    let mut rows = Rows::new(alloc);
    receive_three(alloc, &mut rows)?;
    Ok(rows)
}

fn writes<J: Naming>(
    rt: &impl Abort,
    rows: &mut Rows<AnsweringBids, J>,
    sink: &mut MemSink,
    seen: &Seen,
    wrote: Wrote,
) {
    assert!(rt; rows.write_due(seen, sink) == Ok(wrote));
}

fn bytes_are(rt: &impl Abort, sink: &MemSink, bytes: &[u8]) {
    assert!(rt; sink.bytes() == bytes);
}

fn first_time_is_written<J: Naming>(
    rt: &impl Abort,
    rows: &mut Rows<AnsweringBids, J>,
    sink: &mut MemSink,
    at_eight: &Seen,
) {
    writes(rt, rows, sink, at_eight, Wrote::Time(5));
    bytes_are(rt, sink, b"5|3\n5|7\n".as_slice());
    writes(rt, rows, sink, at_eight, Wrote::Nothing);
    assert!(rt; !rows.is_empty());
}

fn second_time_is_written<J: Naming>(
    rt: &impl Abort,
    rows: &mut Rows<AnsweringBids, J>,
    sink: &mut MemSink,
    done: &Seen,
) {
    writes(rt, rows, sink, done, Wrote::Time(8));
    writes(rt, rows, sink, done, Wrote::Nothing);
    bytes_are(rt, sink, b"5|3\n5|7\n8|2\n".as_slice());
    assert!(rt; rows.is_empty());
}

fn rows_are_written<J: Naming>(
    rt: &impl Abort,
    alloc: Global,
    rows: &mut Rows<AnsweringBids, J>,
    sink: &mut MemSink,
) -> Result<(), AllocError> {
    let at_five = seen_with(alloc, &[(Loc::OutMail, 5)])?;
    writes(rt, rows, sink, &at_five, Wrote::Nothing);
    let at_eight = seen_with(alloc, &[(Loc::OutMail, 8)])?;
    first_time_is_written(rt, rows, sink, &at_eight);
    let done = seen_with(alloc, &[])?;
    second_time_is_written(rt, rows, sink, &done);
    Ok(())
}

fn times_are_written<J: Naming>(rt: &impl Abort, alloc: Global) -> Result<(), AllocError>
    requires { J.job ≡ three_bids }
{
    let mut rows = three_rows::<J>(alloc)?;
    let mut sink = MemSink::new(alloc);
    rows_are_written(rt, alloc, &mut rows, &mut sink)
}

#[test]
fn each_time_is_written_once_passed(rt: HostRuntime) -> Result<(), AllocError> {
    times_are_written::<Brand>(&rt, rt.alloc())
}

fn is_refused(rt: &impl Abort, refused: Result<Wrote, OutRefused>) {
    assert!(rt; refused == Err(OutRefused::WriteFault));
}

// A try to write that fails, and then one that does not.
fn write_twice<J: Naming>(
    rt: &impl Abort,
    rows: &mut Rows<AnsweringBids, J>,
    sink: &mut MemSink,
    seen: &Seen,
) {
    is_refused(rt, rows.write_due(seen, sink));
    assert!(rt; sink.bytes().is_empty());
    writes(rt, rows, sink, seen, Wrote::Time(5));
    bytes_are(rt, sink, b"5|3\n5|7\n".as_slice());
}

fn failing_sink(alloc: Global) -> Result<MemSink, AllocError> {
    let mut sink = MemSink::new(alloc);
    sink.fail(Op::Write, 1)?;
    Ok(sink)
}

fn fault_leaves_rows<J: Naming>(rt: &impl Abort, alloc: Global) -> Result<(), AllocError>
    requires { J.job ≡ three_bids }
{
    let mut rows = three_rows::<J>(alloc)?;
    let mut sink = failing_sink(alloc)?;
    let seen = seen_with(alloc, &[])?;
    write_twice(rt, &mut rows, &mut sink, &seen);
    Ok(())
}

#[test]
fn a_fault_leaves_the_rows(rt: HostRuntime) -> Result<(), AllocError> {
    fault_leaves_rows::<Brand>(&rt, rt.alloc())
}

// The output of this key's group at a time.
fn row_at(alloc: Global, time: Time, key: u64) -> Result<Output, AllocError>
    ensures { IfOk result (λ row. row ≡ row_at time key) }
{
    Ok(Output {
        time,
        tag: Tag(key, 0),
        value: Value::Row(fields_of(alloc, key)?),
    })
}

// The key of the row that is given up.
fn key_sent<J: Naming>(unsent: &mut Unsent<AnsweringBids, J>) -> Option<u64> {
    let row = unsent.pop_first()?;
    Some(row.tag.0)
}

// Gives a row up, and takes it back.
fn send_in_vain<J: Naming>(unsent: &mut Unsent<AnsweringBids, J>) -> Result<(), AllocError> {
    match unsent.pop_first() {
        Some(row) => unsent.hold(row),
        None => Ok(()),
    }
}

fn hold_two<J: Naming>(
    alloc: Global,
    unsent: &mut Unsent<AnsweringBids, J>,
) -> Result<(), AllocError>
    requires { J.job ≡ three_bids }
{
    unsent.make_room(2)?;
    unsent.hold(row_at(alloc, 8, 2)?)?;
    unsent.hold(row_at(alloc, 5, 7)?)
}

fn key_sent_is<J: Naming>(
    rt: &impl Abort,
    unsent: &mut Unsent<AnsweringBids, J>,
    key: Option<u64>,
) {
    assert!(rt; key_sent(unsent) == key);
}

fn rows_go_in_order<J: Naming>(rt: &impl Abort, alloc: Global) -> Result<(), AllocError>
    requires { J.job ≡ three_bids }
{
    let mut unsent = Unsent::<AnsweringBids, J>::new(alloc);
    hold_two(alloc, &mut unsent)?;
    send_in_vain(&mut unsent)?;
    key_sent_is(rt, &mut unsent, Some(7));
    key_sent_is(rt, &mut unsent, Some(2));
    key_sent_is(rt, &mut unsent, None);
    Ok(())
}

#[test]
fn a_row_that_is_held_again_goes_in_front(rt: HostRuntime) -> Result<(), AllocError> {
    answer_rows_are_rows::<AnsweringBids>();
    rows_go_in_order::<Brand>(&rt, rt.alloc())
}
