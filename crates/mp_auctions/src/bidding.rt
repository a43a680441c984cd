//! What is kept of an auction until it closes.
ghost use Rattle.std.specs.Prelude.{◌≡◌, ◌↔◌, ◌++◌, IsTrue, OnOk};
ghost use Rattle.mp_saved.specs.Numbers.{numbers_text};
ghost use Rattle.mp_auctions.specs.Bidding.{after_records, after_value, best_said, bid_numbers, bids_are_legal, bids_said, has_none, is_closed, lot_is_legal, lot_said, no_bids, sold_in};

use mp_model::{Group, Rec, Time, Value};
use mp_names::limits::{MAX_ID, MAX_PRICE, MAX_TIME};
use mp_saved::put_numbers;
use std::alloc::AllocError;

/// What the first auction record of an id says. Its numbers have the limits of an auction event, of this project's
/// profile. It is public only as a part of the `Cell` of a query on closed auctions.
#[derive(Clone, Copy)]
pub struct Lot {
    /// The seller's id, at most 2^48.
    pub seller: u64,
    /// The auction's category, at most 2^48.
    pub category: u64,
    /// The least price at which it is sold.
    pub reserve: u64,
    /// The time at which the auction closes.
    pub expires: Time,
}

/// What is kept of an auction: its lot, and the best price of the bids that count. It is public only as a part of the
/// `Cell` of a query on closed auctions.
#[derive(Clone, Copy)]
pub struct Bidding {
    lot: Option<Lot>,
    best: Option<u64>,
}

impl Bidding {
    /// No lot, and no bid.
    pub fn new() -> Bidding
        ensures { result ≡ no_bids }
    {
        Bidding {
            lot: None,
            best: None,
        }
    }

    /// Whether there are no lot and no bid.
    pub fn is_new(&self) -> bool
        ensures { IsTrue result ↔ (self.now ≡ no_bids) }
    {
        self.lot.is_none() && self.best.is_none()
    }

    /// Whether there are no lot and no bid, in the words of what may be saved.
    pub(crate) fn has_none(&self) -> bool
        ensures { result ≡ has_none self.now.lot self.now.best }
    {
        matches!((self.lot, self.best), (None, None))
    }

    /// Whether the lot or the best price may be saved: one is there, and both are within their limits.
    pub(crate) fn is_legal(&self) -> bool
        ensures { result ≡ bids_are_legal self.now.lot self.now.best }
    {
        match (self.lot, self.best) {
            (None, None) => false,
            (None, Some(best)) => best <= MAX_PRICE,
            (Some(lot), None) => lot.is_legal(),
            (Some(lot), Some(best)) => lot.is_legal() && best <= MAX_PRICE,
        }
    }

    /// Appends the text: the numbers of the lot and of the best price. `AllocError`: no memory, and a part of it may be
    /// appended.
    pub(crate) fn write(&self, out: &mut Vec<u8>) -> Result<(), AllocError>
        ensures { OnOk result (out.new.items ≡ out.old.items ++ numbers_text (bid_numbers self.now.lot self.now.best)) }
    {
        match (self.lot, self.best) {
            (None, None) => put_numbers(out, &[0, 0]),
            (None, Some(best)) => put_numbers(out, &[0, 1, best]),
            (Some(lot), None) => {
                let Lot {
                    seller,
                    category,
                    reserve,
                    expires,
                } = lot;
                put_numbers(out, &[1, seller, category, reserve, expires, 0])
            }
            (Some(lot), Some(best)) => {
                let Lot {
                    seller,
                    category,
                    reserve,
                    expires,
                } = lot;
                put_numbers(out, &[1, seller, category, reserve, expires, 1, best])
            }
        }
    }

    /// The lot and the best price that such numbers say.
    pub(crate) fn said(numbers: &[u64]) -> Bidding
        ensures { result ≡ bids_said numbers.now }
    {
        Bidding {
            lot: lot_said(numbers),
            best: best_said(numbers),
        }
    }

    /// The lot and its price, where this group closes the auction and the best price is at least the reserve.
    pub fn sold_in(&self, group: &Group) -> Option<(Lot, u64)>
        ensures { result ≡ sold_in self.now group.now }
    {
        match (self.lot, self.best) {
            (Some(lot), Some(best))
                if group.is_woken() && lot.expires == group.time() && best >= lot.reserve => {
                Some((lot, best))
            }
            _ => None,
        }
    }

    /// Takes the records of a group, in order.
    pub fn apply(&mut self, group: &Group)
        ensures { self.new ≡ after_records group.now.time self.old group.now.recs }
    {
        for rec in group.recs() {
            self.apply_one(group.time(), &rec.value);
        }
    }

    /// Takes what a record holds: the first auction becomes the lot, and a bid counts until the auction closes.
    fn apply_one(&mut self, time: Time, value: &Value)
        ensures { self.new ≡ after_value time self.old value.now }
    {
        match value {
            Value::Auction {
                seller,
                category,
                reserve,
                expires,
                ..
            } => {
                if self.lot.is_none() {
                    self.lot = Some(Lot {
                        seller: *seller,
                        category: *category,
                        reserve: *reserve,
                        expires: *expires,
                    });
                }
            }
            Value::Bid { price, .. } => {
                if !self.is_closed(time) {
                    self.best = Some(self.best.unwrap_or(0).max(*price));
                }
            }
            _ => {}
        }
    }

    /// Whether a lot is kept that has closed at this time.
    fn is_closed(&self, time: Time) -> bool
        ensures { result ≡ is_closed time self.now.lot }
    {
        match self.lot {
            Some(lot) => time >= lot.expires,
            None => false,
        }
    }
}

impl Lot {
    /// Whether its numbers are within the limits of an auction event.
    fn is_legal(&self) -> bool
        ensures { result ≡ lot_is_legal self.now }
    {
        self.seller <= MAX_ID
            && self.category <= MAX_ID
            && self.reserve <= MAX_PRICE
            && self.expires <= MAX_TIME
    }
}

/// The lot that the numbers of a bidding say.
fn lot_said(numbers: &[u64]) -> Option<Lot>
    ensures { result ≡ lot_said numbers.now }
{
    if numbers.len() > 5 {
        Some(Lot {
            seller: numbers[1],
            category: numbers[2],
            reserve: numbers[3],
            expires: numbers[4],
        })
    } else {
        None
    }
}

/// The best price that the numbers of a bidding say.
fn best_said(numbers: &[u64]) -> Option<u64>
    ensures { result ≡ best_said numbers.now }
{
    if numbers.len() == 3 {
        Some(numbers[2])
    } else if numbers.len() == 7 {
        Some(numbers[6])
    } else {
        None
    }
}
