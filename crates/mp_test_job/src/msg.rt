//! A message goes from its sender to its receiver, and still holds what it held.
ghost use Rattle.std.specs.Prelude.{◌≡◌, ◌<◌};
ghost use Rattle.mp_mailbox.specs.Names.{Distinct};
ghost use Rattle.mp_outline.specs.JobOutline.{outline_of};
ghost use Rattle.mp_msg.specs.Bundles.{receiver_of, sender_of};
ghost use Rattle.mp_samples.specs.Bids.{answering_in};
ghost use Rattle.mp_samples.specs.Jobs.{one_move};

use mp_mailbox::{PlainPost, Post};
use mp_model::{Naming, Value};
use mp_msg::{
    Body, BoxedState, Bundle, Msg, contents_are_messages, messages_are_owed,
    messages_go_where_they_are_owed, names_tell_contents,
};
use mp_samples::{AnsweringBids, record_of_bid, state_of_bin, to_worker_two};
use std::alloc::{AllocError, Global};
use std::marker::Brand;
use std::process::Abort;

// What worker `to` takes of a message that worker `from` sent it.
fn carried<J: Naming>(
    rt: &impl Abort,
    alloc: Global,
    from: u32,
    to: u32,
    message: Msg<AnsweringBids, J>,
) -> Result<Option<Body<u64>>, AllocError>
    requires from { from < 3 }
    requires to { to < 3 }
    requires once { Distinct message }
    requires sender { sender_of (outline_of (answering_in J.job) J.job) message ≡ from }
    requires receiver { receiver_of (outline_of (answering_in J.job) J.job) message ≡ to }
{
    let mut post = PlainPost::<Msg<AnsweringBids, J>>::new(alloc, 3, 1)?;
    let names = message.names();
    assert!(rt; post.push(from, to, message).is_ok());
    let Some(taken) = post.pop(from, to) else {
        return Ok(None);
    };
    assert!(rt; taken.names() == names);
    Ok(Some(taken.into_body()))
}

// The record's bin is 1 of 4, so worker 1 owns it at 5.
fn record_is_sent<J: Naming>(rt: &impl Abort, alloc: Global) -> Result<bool, AllocError>
    requires { J.job ≡ one_move }
{
    let mut recs = Vec::new(alloc);
    recs.push(record_of_bid())?;
    let message = Msg::<AnsweringBids, J>::records(Bundle::new(0, recs));
    Ok(is_bid(carried(rt, alloc, 0, 1, message)?))
}

fn is_bid(body: Option<Body<u64>>) -> bool {
    match body {
        Some(Body::Recs(bundle)) => match bundle.into_recs().pop() {
            Some(rec) => matches!(&rec.value, Value::Bid { price: 100, .. }),
            None => false,
        },
        _ => false,
    }
}

// Worker 0 sends the control record to worker 2.
fn control_is_sent<J: Naming>(rt: &impl Abort, alloc: Global) -> Result<bool, AllocError>
    requires { J.job ≡ one_move }
{
    let message = Msg::<AnsweringBids, J>::control(0, 2, to_worker_two());
    Ok(is_control(carried(rt, alloc, 0, 2, message)?))
}

fn is_control(body: Option<Body<u64>>) -> bool {
    match body {
        Some(Body::Ctrl { control, .. }) => {
            (control.time, control.stage, control.bin, control.worker) == (10, 0, 1, 2)
        }
        _ => false,
    }
}

// Worker 1 owns the bin, until it goes to worker 2.
fn packet_is_sent<J: Naming>(rt: &impl Abort, alloc: Global) -> Result<bool, AllocError>
    requires { J.job ≡ one_move }
{
    let boxed = BoxedState::new(alloc)?.with(state_of_bin(alloc)?);
    let message = Msg::<AnsweringBids, J>::packet(0, 1, 10, boxed);
    Ok(is_state(carried(rt, alloc, 1, 2, message)?))
}

fn is_state(body: Option<Body<u64>>) -> bool {
    match body {
        Some(Body::Packet { state, .. }) => {
            let state = state.into_state();
            state.cells.get(&7) == Some(&1) && state.wakes.has(15, 7)
        }
        _ => false,
    }
}

fn all_are_sent<J: Naming>(rt: &impl Abort, alloc: Global) -> Result<(), AllocError>
    requires { J.job ≡ one_move }
{
    assert!(rt; record_is_sent::<J>(rt, alloc)?);
    assert!(rt; control_is_sent::<J>(rt, alloc)?);
    assert!(rt; packet_is_sent::<J>(rt, alloc)?);
    Ok(())
}

#[test]
fn messages_hold_what_they_held(rt: HostRuntime) -> Result<(), AllocError> {
    all_are_sent::<Brand>(&rt, rt.alloc())
}

#[test]
fn laws_hold_of_a_query(_rt: HostRuntime) -> Result<(), AllocError> {
    messages_are_owed::<AnsweringBids>();
    names_tell_contents::<AnsweringBids>();
    contents_are_messages::<AnsweringBids>();
    messages_go_where_they_are_owed::<AnsweringBids, Brand>();
    Ok(())
}
