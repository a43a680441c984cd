//! A piece of the counts of a location.
ghost use Rattle.std.specs.Prelude.{◌≡◌, ◌<◌, ◌≤◌, ◌+◌, ◌-◌, ◌^◌, ℕ, pos, ◌+ℤ◌, true, false, IfOk, IfSome, FitsSigned, length, replicate, slice_set, []};
ghost use Rattle.std.specs.Int.{w128};
ghost use Rattle.std.specs.Vec.{vec_capacity};
ghost use Rattle.mp_stamps.specs.Rows.{IsFirstOpen, IsPieceOf, IsSpan, IsSpanBut, IsZeroAt, count_there, counts_held, is_outstanding};

use crate::span::{Span, no_span, span_with};
use std::alloc::{AllocError, Global};
use std::marker::Model;
use std::mem;

/// How many counts a piece has.
pub(crate) const PIECE: usize = 1024;

/// So many counts. A piece has room for them from the first, and takes it up when one of them changes; it may be given back
/// when all of them are 0, and its buffer then be that of another one. Contracts see the counts, and whether the piece is kept.
#[derive(Drop)]
pub struct Piece {
    // None, as long as no count was other than 0, and where the piece was given back.
    counts: Vec<i128>,
    kept: bool,
    // Where those other than 0 stand.
    span: Span,
}

impl Model for Piece {
    ghost use Rattle.std.specs.Vec.{vec_capacity};
    ghost use Rattle.mp_stamps.specs.Rows.{IsPiece, PieceState, counts_held};

    ghost Value = { PieceState };

    ghost view = { λ p. record { kept = p.kept; counts = counts_held p.counts.items } };

    ghost invariant = { λ p. IsPiece p.kept p.counts.items (vec_capacity p.counts) p.span.first p.span.end };
}

impl Piece {
    /// Counts that are all 0. `AllocError`: no memory.
    pub(crate) fn zeros(alloc: Global) -> Result<Piece, AllocError>
        ensures { IfOk result (λ piece. piece ≡ record { kept = true; counts = replicate 1024 (pos 0) }) }
    {
        Ok(Piece {
            counts: Vec::with_capacity(alloc, PIECE)?,
            kept: true,
            span: no_span(PIECE),
        })
    }

    /// The count at an index.
    pub(crate) fn at(&self, index: usize) -> i128
        requires { index < 1024 }
        ensures { result ≡ count_there self.now.counts index }
    {
        if index < self.counts.len() {
            self.counts[index]
        } else {
            0
        }
    }

    /// The index of the first count other than 0, or the number of counts.
    pub(crate) fn first(&self) -> usize
        ensures { IsFirstOpen self.now.counts result }
    {
        self.span.first
    }

    /// Adds to the count at an index of a piece that is kept, and gives whether it is other than 0 now. The sum fits an
    /// `i128`. Takes no memory.
    pub(crate) fn add(&mut self, index: usize, by: i64) -> bool
        requires index { index < 1024 }
        requires kept { self.old.kept ≡ true }
        requires fits { FitsSigned w128 (count_there self.old.counts index +ℤ by) }
        ensures counts { self.new.counts ≡ slice_set self.old.counts index (count_there self.old.counts index +ℤ by) }
        ensures kept { self.new.kept ≡ true }
        ensures open { result ≡ is_outstanding (count_there self.new.counts index) }
    {
        fill_if_empty(&mut self.counts);
        let sum = sum_of(self.counts[index], by);
        self.counts[index] = sum;
        let is_open = is_open(sum);
        self.span = span_after(&self.counts, self.span, index, is_open);
        is_open
    }

    /// Gives back a piece whose counts are all 0. Where it took up its room, gives the buffer, emptied, with room for the
    /// counts of a piece; else its memory is free.
    pub(crate) fn give_back(&mut self) -> Option<Vec<i128>>
        requires { (k : ℕ) → IsZeroAt self.old.counts k }
        ensures given_back { self.new ≡ record { kept = false; counts = self.old.counts } }
        ensures emptied { IfSome result (λ buffer. buffer.items ≡ []) }
        ensures room { IfSome result (λ buffer. 1024 ≤ vec_capacity buffer) }
    {
        let alloc = *self.counts.allocator();
        let held = mem::replace(&mut self.counts, Vec::new(alloc));
        self.kept = false;
        emptied(held)
    }

    /// Whether a piece that is kept hasn't taken up its room.
    pub(crate) fn is_unfilled(&self) -> bool
        ensures kept { result ≡ true → self.now.kept ≡ true }
        ensures zeros { result ≡ true → self.now.counts ≡ replicate 1024 (pos 0) }
    {
        self.kept && self.counts.is_empty()
    }

    /// Takes an empty buffer with room for the counts of a piece in place of one's own, which is freed, where the piece
    /// hasn't taken up its room; else the buffer is freed.
    pub(crate) fn take_over(&mut self, buffer: Vec<i128>)
        requires empty { buffer.items ≡ [] }
        requires room { 1024 ≤ vec_capacity buffer }
        ensures { self.new ≡ self.old }
    {
        if self.is_unfilled() {
            self.counts = buffer;
        }
    }
}

// The buffer of what a piece held, emptied, where that is its counts.
fn emptied(held: Vec<i128>) -> Option<Vec<i128>>
    requires { IsPieceOf held.items }
    ensures empty { IfSome result (λ buffer. buffer.items ≡ []) }
    ensures room { IfSome result (λ buffer. 1024 ≤ vec_capacity buffer) }
{
    if held.is_empty() {
        return None;
    }
    let mut buffer = held;
    buffer.clear();
    Some(buffer)
}

// The sum of a count and what is added to it, which fits.
fn sum_of(count: i128, by: i64) -> i128
    requires { FitsSigned w128 (count +ℤ by) }
    ensures { result ≡ count +ℤ by }
{
    count + i128::from(by)
}

// Whether a count is other than 0.
fn is_open(count: i128) -> bool
    ensures { result ≡ is_outstanding count }
{
    count != 0
}

// Fills a piece with zeros, if it holds no counts.
fn fill_if_empty(counts: &mut Vec<i128>)
    requires piece { IsPieceOf counts.old.items }
    requires room { 1024 ≤ vec_capacity counts.old }
    ensures filled { counts.new.items ≡ counts_held counts.old.items }
    ensures room { 1024 ≤ vec_capacity counts.new }
{
    if counts.is_empty() {
        fill(counts);
    }
}

// Fills a piece that holds no counts with zeros.
fn fill(counts: &mut Vec<i128>)
    requires empty { counts.old.items ≡ [] }
    requires room { 1024 ≤ vec_capacity counts.old }
    ensures filled { counts.new.items ≡ replicate 1024 (pos 0) }
    ensures room { 1024 ≤ vec_capacity counts.new }
{
    for _ in 0..PIECE {
        counts.push_reserved(0);
    }
}

// Where counts other than 0 stand after the one at an index changed.
fn span_after(counts: &[i128], span: Span, index: usize, is_open: bool) -> Span
    requires index { index < length counts.now }
    requires open { is_open ≡ is_outstanding (count_there counts.now index) }
    requires before { IsSpanBut counts.now span.first span.end index }
    ensures { IsSpan counts.now result.first result.end }
{
    if is_open {
        return span_with(span, index);
    }
    if index != span.first {
        return span;
    }
    next_span(counts, index + 1, span.end)
}

// Where counts other than 0 stand, from the one index on, before which there is none, to the other, from which on there
// is none.
fn next_span(counts: &[i128], from: usize, end: usize) -> Span
    requires within { end ≤ length counts.now }
    requires quiet { (k : ℕ) → k < from → IsZeroAt counts.now k }
    requires rest { (k : ℕ) → end ≤ k → IsZeroAt counts.now k }
    ensures { IsSpan counts.now result.first result.end }
{
    for index in from..end {
        if counts[index] != 0 {
            return Span { first: index, end };
        }
    }
    no_span(counts.len())
}
