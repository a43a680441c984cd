//! Numbers that go from worker 0 to worker 1, over any post.
ghost use Rattle.std.specs.Prelude.{◌≡◌, ◌+◌, ◌<◌, ◌∷◌, [], ℕ, List, IfOk, OnErr};
ghost use Rattle.mp_thread_examples.specs.Numbers.{numbers_below};

use mp_mailbox::{Full, Named, Post};
use std::alloc::AllocError;
use std::sync::Wait;
use std::thread;

/// A number, which goes from worker 0 to worker 1 and is its own name.
#[derive(Drop)]
pub struct Number {
    /// The number that is sent.
    pub value: u64,
}

impl Named for Number {
    ghost use Rattle.std.specs.Prelude.{◌∷◌, []};

    type Name = u64;

    ghost names = { λ m. m.value ∷ [] };

    ghost from = { λ m. 0 };

    ghost to = { λ m. 1 };
}

/// Pushes a number. `Err` with the number: there was no room for it. The post stands for what was sent before.
pub fn send<P: Post<Number>>(post: &mut P, number: u64) -> Result<(), u64>
    requires serves { P.serves post.old 0 × (1 < P.workers post.old) }
    requires denotes { (popped : List ℕ) × P.denotes post.old 0 1 (numbers_below number) popped }

    ensures sent { IfOk result (λ _. (popped : List ℕ) → P.denotes post.old 0 1 (numbers_below number) popped → P.denotes post.new 0 1 (numbers_below (number + 1)) popped) }
    ensures unchanged { OnErr result ((popped : List ℕ) → P.denotes post.old 0 1 (numbers_below number) popped → P.denotes post.new 0 1 (numbers_below number) popped) }
    ensures room { IfOk result (λ _. P.had_room post.old 0 1) }
    ensures full { OnErr result (P.was_full post.old 0 1) }
    ensures serves { P.serves post.new 0 × (P.workers post.new ≡ P.workers post.old) }
{
    match post.push(0, 1, Number { value: number }) {
        Ok(()) => Ok(()),
        Err(Full { message }) => Err(message.value),
    }
}

/// Pops a number. The post stands for what was received before. `AllocError`: no memory.
pub fn receive<P: Post<Number>>(post: &mut P, got: &mut Vec<u64>) -> Result<bool, AllocError>
    requires serves { P.serves post.old 1 × (1 < P.workers post.old) }
    requires denotes { (pushed : List ℕ) × P.denotes post.old 0 1 pushed got.old.items }

    ensures denotes { (pushed : List ℕ) → P.denotes post.old 0 1 pushed got.old.items → P.denotes post.new 0 1 pushed got.new.items }
    ensures serves { P.serves post.new 1 × (P.workers post.new ≡ P.workers post.old) }
{
    got.reserve(1)?;
    match post.pop(0, 1) {
        Some(number) => {
            got.push(number.value)?;
            Ok(true)
        }
        None => Ok(false),
    }
}

/// Pushes the numbers below `count` in order, and tries again while the queue is full.
pub fn send_all<P: Post<Number>, R: Wait>(rt: &R, mut post: P, count: u64) -> P
    requires serves { P.serves post 0 × (1 < P.workers post) }
    requires denotes { (popped : List ℕ) × P.denotes post 0 1 [] popped }
    ensures denotes { (popped : List ℕ) → P.denotes post 0 1 [] popped → P.denotes result 0 1 (numbers_below count) popped }
{
    let mut next = 0;
    for _ in rt.forever() {
        if next >= count {
            return post;
        }
        match send(&mut post, next) {
            Ok(()) => next += 1,
            Err(_) => thread::yield_now(),
        }
    }
    unreachable!()
}

/// Pops until there are `count` numbers more, or memory runs out.
pub fn receive_all<P: Post<Number>, R: Wait>(
    rt: &R,
    mut post: P,
    mut got: Vec<u64>,
    count: usize,
) -> (P, Vec<u64>)
    requires serves { P.serves post 1 × (1 < P.workers post) }
    requires denotes { (pushed : List ℕ) × P.denotes post 0 1 pushed got.items }
    ensures denotes { (pushed : List ℕ) → P.denotes post 0 1 pushed got.items → P.denotes result.0 0 1 pushed result.1.items }
{
    for _ in rt.forever() {
        if got.len() >= count {
            return (post, got);
        }
        match receive(&mut post, &mut got) {
            Ok(true) => {}
            Ok(false) => thread::yield_now(),
            Err(_) => return (post, got),
        }
    }
    unreachable!()
}
