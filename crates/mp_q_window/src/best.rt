//! The best bid of a window.
ghost use Rattle.std.specs.Prelude.{◌≡◌, ◌↔◌, ◌++◌, IfOk, IsTrue, None, OnOk, Some, true};
ghost use Rattle.mp_saved.specs.Numbers.{numbers_in, numbers_text};
ghost use Rattle.mp_q_window.specs.Best.{after_group, after_value, at_start, better_of, is_legal, numbers_of, offer_of, offer_said, row_of};

use mp_model::{Fields, Group, Value};
use mp_names::limits::{MAX_ID, MAX_PRICE};
use mp_saved::{put_numbers, read_numbers};
use std::alloc::{AllocError, Global};
use std::marker::Model;

/// What a bid offers. Its numbers have the limits of a bid, of this project's profile. It is public only as a part of
/// q7's `Cell`.
#[derive(Clone, Copy)]
pub struct Offer {
    /// Its id, at most 2^48.
    pub auction: u64,
    /// Its id, at most 2^48.
    pub bidder: u64,
    /// At most 10^12.
    pub price: u64,
}

/// The offer of the greatest price of a window so far, the first where prices are equal. Contracts see it, or none. It
/// is public only as the `Cell` of q7.
#[derive(Drop)]
pub struct Best {
    best: Option<Offer>,
}

impl Model for Best {
    ghost use Rattle.std.specs.Prelude.{Option};
    ghost use Rattle.mp_q_window.specs.declared.best.Offer.{Offer};

    ghost Value = { Option Offer };

    ghost view = { λ b. b.best };
}

impl Best {
    /// No offer.
    pub fn new() -> Best
        ensures { result ≡ None }
    {
        Best { best: None }
    }

    /// Whether there is no offer.
    pub fn is_new(&self) -> bool
        ensures { IsTrue result ↔ (self.now ≡ None) }
    {
        self.best.is_none()
    }

    /// The same offer, or none.
    pub fn copy(&self) -> Best
        ensures { result ≡ self.now }
    {
        Best { best: self.best }
    }

    /// Whether there is an offer whose numbers are within the limits of a bid, so that it may be saved.
    pub(crate) fn is_legal(&self) -> bool
        ensures { result ≡ is_legal self.now }
    {
        match self.best {
            Some(offer) => {
                offer.auction <= MAX_ID && offer.bidder <= MAX_ID && offer.price <= MAX_PRICE
            }
            None => false,
        }
    }

    /// Appends the text of the offer. `AllocError`: no memory, and a part of it may be appended.
    pub(crate) fn write(&self, out: &mut Vec<u8>) -> Result<(), AllocError>
        ensures { OnOk result (out.new.items ≡ out.old.items ++ numbers_text (numbers_of self.now)) }
    {
        match self.best {
            Some(offer) => put_numbers(out, &[offer.auction, offer.bidder, offer.price]),
            None => Ok(()),
        }
    }

    /// The offer that a text says, or none. `AllocError`: no memory.
    pub(crate) fn read(alloc: Global, text: &[u8]) -> Result<Best, AllocError>
        ensures { IfOk result (λ best. best ≡ offer_said (numbers_in text.now)) }
    {
        let Some(numbers) = read_numbers(alloc, text)? else {
            return Ok(Best::new());
        };
        let best = offer_of(numbers.as_slice());
        Ok(Best { best })
    }

    /// The row of the best offer, where this group ends a window. `AllocError`: no memory.
    pub fn row(&self, alloc: Global, group: &Group) -> Result<Option<Value>, AllocError>
        ensures { IfOk result (λ row. row ≡ row_of self.now group.now) }
    {
        match self.best {
            Some(offer) if group.is_woken() => {
                let fields = Fields::three(alloc, offer.auction, offer.bidder, offer.price)?;
                Ok(Some(Value::Row(fields)))
            }
            _ => Ok(None),
        }
    }

    /// Takes a group: the end of a window drops the best offer, and then each bid is taken in order.
    pub fn apply(&mut self, group: &Group)
        ensures { self.new ≡ after_group self.old group.now }
    {
        self.best = self.at_start(group);
        for rec in group.recs() {
            self.apply_one(&rec.value);
        }
    }

    /// What is kept before the records of a group.
    fn at_start(&self, group: &Group) -> Option<Offer>
        ensures { result ≡ at_start self.now group.now }
    {
        if group.is_woken() { None } else { self.best }
    }

    /// Takes what a record holds: a bid is the best where its price is greater.
    fn apply_one(&mut self, value: &Value)
        ensures { self.new ≡ after_value self.old value.now }
    {
        if let Value::Bid {
            auction,
            bidder,
            price,
        } = value
        {
            let offer = Offer {
                auction: *auction,
                bidder: *bidder,
                price: *price,
            };
            self.best = Some(self.better_of(offer));
        }
    }

    /// The best offer, or this one where there is none or its price is greater.
    fn better_of(&self, offer: Offer) -> Offer
        ensures { Some result ≡ better_of self.now offer }
    {
        match self.best {
            Some(best) if best.price >= offer.price => best,
            _ => offer,
        }
    }
}

/// The offer that three numbers say.
fn offer_of(numbers: &[u64]) -> Option<Offer>
    ensures { result ≡ offer_of numbers.now }
{
    if numbers.len() == 3 {
        Some(Offer {
            auction: numbers[0],
            bidder: numbers[1],
            price: numbers[2],
        })
    } else {
        None
    }
}
