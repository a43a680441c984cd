//! How the posts of all workers are made.
ghost use Rattle.std.specs.Prelude.{◌≡◌, ◌<◌, ◌^◌, [], length, replicate, IfOk};
ghost use Rattle.mp_ruled.specs.Posts.{AreNewPosts, AreLinked, StandForNone};
ghost use Rattle.mp_ruled.specs.Dealing.{lists_of, DealsRow, FitWorkers, HaveEnds};

use crate::ends::ends_between;
use crate::own::OwnQueue;
use crate::post::RuledPost;
use crate::receiver::ReceiverEnd;
use crate::sender::SenderEnd;
use mp_mailbox::Named;
use std::alloc::{AllocError, Global};
use std::collections::VecDeque;

/// A queue for each ordered pair of workers, as a post for each worker, by number. Each queue holds
/// `depth` messages. No later call takes memory. `AllocError`: no memory.
pub fn ruled_posts<M: Named + Drop, R: Copy + Drop>(
    rt: R,
    alloc: Global,
    workers: u32,
    depth: u32,
) -> Result<Vec<RuledPost<M, R>>, AllocError>
    requires depth { 0 < depth }
    ensures many { IfOk result (λ posts. length posts.items ≡ workers) }
    ensures new { IfOk result (λ posts. AreNewPosts workers depth posts.items) }
    ensures linked { IfOk result (λ posts. AreLinked posts.items) }
    ensures stand { IfOk result (λ posts. StandForNone M.names posts.items) }
{
    let mut columns = no_columns(alloc, workers)?;
    let mut rows = Vec::with_capacity(alloc, workers as usize)?;
    for from in 0..workers {
        let row = deal_row(alloc, from, workers, depth, &mut columns)?;
        rows.push_reserved(row);
    }
    gather(rt, alloc, depth, rows, columns)
}

// A list for each worker, with no ends.
fn no_columns<M: Named + Drop>(
    alloc: Global,
    workers: u32,
) -> Result<Vec<Vec<ReceiverEnd<M>>>, AllocError>
    ensures { IfOk result (λ columns. lists_of columns.items ≡ replicate workers []) }
{
    let mut columns = Vec::with_capacity(alloc, workers as usize)?;
    for _ in 0..workers {
        columns.push_reserved(Vec::with_capacity(alloc, workers as usize)?);
    }
    Ok(columns)
}

// Queues from one worker to each: the ends that push, while those that pop go into their columns.
fn deal_row<M: Named + Drop>(
    alloc: Global,
    from: u32,
    workers: u32,
    depth: u32,
    columns: &mut Vec<Vec<ReceiverEnd<M>>>,
) -> Result<Vec<SenderEnd<M>>, AllocError>
    requires depth { 0 < depth }
    requires columns { length columns.old.items ≡ workers }
    ensures many { IfOk result (λ row. length row.items ≡ workers) }
    ensures dealt { IfOk result (λ row. DealsRow from depth row.items (lists_of columns.old.items) (lists_of columns.new.items)) }
{
    let mut row = Vec::with_capacity(alloc, workers as usize)?;
    for to in 0..workers {
        let (sender, receiver) = ends_between(alloc, from, to, depth)?;
        columns[to as usize].push(receiver)?;
        row.push_reserved(sender);
    }
    Ok(row)
}

// The post of each worker, with its row and its column.
fn gather<M: Named + Drop, R: Copy + Drop>(
    rt: R,
    alloc: Global,
    depth: u32,
    rows: Vec<Vec<SenderEnd<M>>>,
    columns: Vec<Vec<ReceiverEnd<M>>>,
) -> Result<Vec<RuledPost<M, R>>, AllocError>
    requires many { (length rows.items ≡ length columns.items) × (length rows.items < 2 ^ 32) }
    requires fit { FitWorkers (lists_of rows.items) (lists_of columns.items) }
    ensures many { IfOk result (λ posts. length posts.items ≡ length rows.items) }
    ensures ends { IfOk result (λ posts. HaveEnds depth (lists_of rows.items) (lists_of columns.items) posts.items) }
{
    let workers = rows.len() as u32;
    let mut posts = Vec::with_capacity(alloc, rows.len())?;
    let mut rows = VecDeque::from_vec(rows);
    let mut columns = VecDeque::from_vec(columns);
    for worker in 0..workers {
        let Some(senders) = rows.pop_front() else {
            unreachable!()
        };
        let Some(receivers) = columns.pop_front() else {
            unreachable!()
        };
        let own = OwnQueue::new(alloc, depth)?;
        posts.push_reserved(RuledPost::new(rt, worker, senders, receivers, own));
    }
    Ok(posts)
}
