//! The counts of one location.
ghost use Rattle.std.specs.Prelude.{◌≡◌, ◌<◌, ◌≤◌, ◌+◌, ◌*◌, ◌/◌, ◌^◌, ℕ, pos, ◌+ℤ◌, max, [], true, false, IfOk, FitsSigned, length, replicate, slice_set};
ghost use Rattle.std.specs.Int.{w128};
ghost use Rattle.std.specs.Vec.{vec_capacity};
ghost use Rattle.mp_stamps.specs.Rows.{AreFresh, AreWhole, GivesBack, IsFirstOpen, IsSpan, IsSpanBut, IsZeroAt, IsZeroPiece, count_there, is_outstanding, joined, pieces_of};

use crate::piece::{PIECE, Piece};
use crate::span::{Span, no_span, span_with};
use std::alloc::{AllocError, Global};
use std::marker::Model;

/// The counts of one location, by the indices of the times, in pieces. Contracts see the list of them, and how many pieces
/// were given back.
#[derive(Drop)]
pub struct Row {
    pieces: Vec<Piece>,
    // How many of them were given back.
    given: usize,
    // Where counts other than 0 stand.
    span: Span,
    // The index that changed last.
    near: usize,
    // The next buffer that is handed on is taken by a piece at or behind this one.
    taker: usize,
}

impl Model for Row {
    ghost use Rattle.mp_stamps.specs.Rows.{IsRow, RowState, joined};

    ghost Value = { RowState };

    ghost view = { λ r. record { given = r.given; counts = joined r.pieces.items } };

    ghost invariant = { λ r. IsRow r.pieces.items r.given r.span.first r.span.end };
}

impl Row {
    /// Counts of so many times that are all 0, in whole pieces. `AllocError`: no memory.
    pub(crate) fn zeros(alloc: Global, times: usize) -> Result<Row, AllocError>
        requires { times < 2 ^ 62 }
        ensures { IfOk result (λ row. row ≡ record { given = 0; counts = replicate (1024 * pieces_of times) (pos 0) }) }
    {
        let pieces = zero_pieces(alloc, times / PIECE + 1)?;
        let span = no_span(PIECE * pieces.len());
        Ok(Row {
            pieces,
            given: 0,
            span,
            near: 0,
            taker: 0,
        })
    }

    /// The index that changed last, or the first.
    pub(crate) fn near(&self) -> usize {
        self.near
    }

    /// How many pieces were given back.
    pub(crate) fn given(&self) -> usize
        ensures { result ≡ self.now.given }
    {
        self.given
    }

    /// The count at an index.
    pub(crate) fn at(&self, index: usize) -> i128
        requires { index < length self.now.counts }
        ensures { result ≡ count_there self.now.counts index }
    {
        self.pieces[index / PIECE].at(index % PIECE)
    }

    /// The index of the first count other than 0, or the number of counts.
    pub(crate) fn first(&self) -> usize
        ensures { IsFirstOpen self.now.counts result }
    {
        self.span.first
    }

    /// Adds to the count at an index, whose piece wasn't given back, and gives whether another one is now the first other
    /// than 0. The sum fits an `i128`. Takes no memory.
    pub(crate) fn add(&mut self, index: usize, by: i64) -> bool
        requires index { index < length self.old.counts }
        requires kept { self.old.given ≤ index / 1024 }
        requires fits { FitsSigned w128 (count_there self.old.counts index +ℤ by) }
        ensures given { self.new.given ≡ self.old.given }
        ensures counts { self.new.counts ≡ slice_set self.old.counts index (count_there self.old.counts index +ℤ by) }
        ensures still { result ≡ false →
            (first : ℕ) × IsFirstOpen self.old.counts first × IsFirstOpen self.new.counts first }
        ensures moved { result ≡ true →
            (first : ℕ) → IsFirstOpen self.old.counts first → ¬ IsFirstOpen self.new.counts first }
    {
        let before = self.span;
        let is_open = self.pieces[index / PIECE].add(index % PIECE, by);
        self.span = span_after(&self.pieces, before, index, is_open);
        self.near = index;
        self.span.first != before.first
    }

    /// Gives back the first so many pieces, in which all counts are 0, and hands their buffers on to later ones. Takes no
    /// memory.
    pub(crate) fn give_back(&mut self, count: usize)
        requires count { 1024 * count ≤ length self.old.counts }
        requires zero { (k : ℕ) → k < 1024 * count → IsZeroAt self.old.counts k }
        ensures { self.new ≡ record { given = max self.old.given count; counts = self.old.counts } }
    {
        if count > self.given {
            self.taker = self.taker.max(count);
            give_back_between(&mut self.pieces, self.given, count, &mut self.taker);
            self.given = count;
        }
    }
}

// So many pieces of counts that are all 0. `AllocError`: no memory.
fn zero_pieces(alloc: Global, count: usize) -> Result<Vec<Piece>, AllocError>
    ensures { IfOk result (λ pieces. AreFresh count pieces.items) }
{
    let mut pieces = Vec::with_capacity(alloc, count)?;
    for _ in 0..count {
        pieces.push(Piece::zeros(alloc)?)?;
    }
    Ok(pieces)
}

// Gives back the pieces between two places, in which all counts are 0, and hands their buffers on.
fn give_back_between(pieces: &mut Vec<Piece>, from: usize, to: usize, taker: &mut usize)
    requires order { from ≤ to }
    requires inside { to ≤ length pieces.old.items }
    requires zero { (b : ℕ) → b < to → IsZeroPiece pieces.old.items b }
    ensures { GivesBack from to pieces.old.items pieces.new.items }
{
    for place in from..to {
        if let Some(buffer) = pieces[place].give_back() {
            let next = next_unfilled(pieces, *taker);
            hand_on(pieces, next, buffer);
            *taker = next + 1;
        }
    }
}

// The first piece from one on that is kept and hasn't taken up its room, or the number of pieces.
fn next_unfilled(pieces: &[Piece], from: usize) -> usize
    ensures { result ≤ length pieces.now }
{
    for place in from..pieces.len() {
        if pieces[place].is_unfilled() {
            return place;
        }
    }
    pieces.len()
}

// Hands a buffer on to a piece that hasn't taken up its room; where there is none at the place it is freed.
fn hand_on(pieces: &mut Vec<Piece>, place: usize, buffer: Vec<i128>)
    requires empty { buffer.items ≡ [] }
    requires room { 1024 ≤ vec_capacity buffer }
    ensures { pieces.new.items ≡ pieces.old.items }
{
    if let Some(piece) = pieces.get_mut(place) {
        piece.take_over(buffer);
    }
}

// Where counts other than 0 stand after the one at an index changed.
fn span_after(pieces: &[Piece], span: Span, index: usize, is_open: bool) -> Span
    requires whole { AreWhole pieces.now }
    requires few { 1024 * length pieces.now ≤ 2 ^ 63 }
    requires index { index < 1024 * length pieces.now }
    requires open { is_open ≡ is_outstanding (count_there (joined pieces.now) index) }
    requires before { IsSpanBut (joined pieces.now) span.first span.end index }
    ensures { IsSpan (joined pieces.now) result.first result.end }
{
    if is_open {
        return span_with(span, index);
    }
    if index != span.first {
        return span;
    }
    next_span(pieces, index / PIECE, span.end)
}

// Where counts other than 0 stand, from the piece at a place on, before which there is none, to an index from which on
// there is none.
fn next_span(pieces: &[Piece], place: usize, end: usize) -> Span
    requires whole { AreWhole pieces.now }
    requires few { 1024 * length pieces.now ≤ 2 ^ 63 }
    requires inside { place < length pieces.now }
    requires within { end ≤ 1024 * length pieces.now }
    requires quiet { (b : ℕ) → b < place → IsZeroPiece pieces.now b }
    requires rest { (k : ℕ) → end ≤ k → IsZeroAt (joined pieces.now) k }
    ensures { IsSpan (joined pieces.now) result.first result.end }
{
    let first = pieces[place].first();
    if first < PIECE {
        return Span {
            first: PIECE * place + first,
            end,
        };
    }
    span_from(pieces, place + 1, end)
}

// The same, where there may be no more pieces.
fn span_from(pieces: &[Piece], from: usize, end: usize) -> Span
    requires whole { AreWhole pieces.now }
    requires few { 1024 * length pieces.now ≤ 2 ^ 63 }
    requires within { end ≤ 1024 * length pieces.now }
    requires quiet { (b : ℕ) → b < from → b < length pieces.now → IsZeroPiece pieces.now b }
    requires rest { (k : ℕ) → end ≤ k → IsZeroAt (joined pieces.now) k }
    ensures { IsSpan (joined pieces.now) result.first result.end }
{
    for place in from..end.div_ceil(PIECE) {
        let first = pieces[place].first();
        if first < PIECE {
            return Span {
                first: PIECE * place + first,
                end,
            };
        }
    }
    no_span(PIECE * pieces.len())
}
