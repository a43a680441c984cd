//! A query on closed auctions: stage 0 sells each lot when its auction closes, stage 1 says the average price of the
//! sales.
ghost use Rattle.std.specs.Prelude.{◌≡◌, IfOk};
ghost use Rattle.mp_model.specs.Rules.{given_values};
ghost use Rattle.mp_auctions.specs.Closed.{key_of, posts_of, row_of, sale_by};

use crate::{Bidding, Sales};
use mp_model::{Fields, Group, PostList, Query, Rec, RuleList, Time, Value};
use mp_saved::{Saved, ValueList, read_numbers};
use std::alloc::{AllocError, Global};

/// The query that makes `S` of the sales.
#[derive(Drop)]
pub struct Closed<S> {
    sales: S,
}

/// The cell of such a query: in stage 0 the bidding of an auction, in stage 1 what is kept of the sales to a category or
/// to a seller. The other part stays as it was at first. It is public only as the query's `Cell`.
#[derive(Drop)]
pub struct AuctionCell<K> {
    bidding: Bidding,
    sales: K,
}

impl<S: Sales + Sync> Closed<S>
where
    S::Kept: Send + Sync,
{
    /// The query whose rules have their given values.
    pub fn given() -> Closed<S>
        ensures { ⟦<Closed<S> as Query>⟧.values result ≡ given_values (⟦<Closed<S> as Query>⟧.rules result) }
    {
        Closed { sales: S::given() }
    }
}

impl<S: Sales + Sync> Query for Closed<S>
where
    S::Kept: Send + Sync,
{
    ghost use Rattle.mp_auctions.specs.Closed.{closed_by, text_of};
    ghost use Rattle.mp_auctions.specs.Laws.{begins_fresh, has_stages, posts_are_later, later_stages_post_nothing, most_is_enough, fresh_stays_fresh};
    ghost use Rattle.mp_auctions.specs.Laws.Texts.{texts_tell_cells};

    type Cell = AuctionCell<S::Kept>;

    ghost values = { λ q. S.values q.sales };

    ghost rules = { λ q. S.rules q.sales };

    ghost facts = { λ vs. closed_by S.party (S.sales vs) };

    ghost text_of = { λ j cell. text_of S.numbers j cell };

    fn stages(&self) -> u32 {
        2
    }

    fn rules(&self) -> RuleList {
        self.sales.rules()
    }

    fn with(self, given: &[u64]) -> Closed<S> {
        let Closed { sales } = self;
        Closed {
            sales: sales.with(given),
        }
    }

    fn key(&self, stage: u32, _time: Time, value: &Value) -> Option<u64> {
        key(stage, value)
    }

    fn posts(&self, stage: u32, rec: &Rec) -> PostList {
        posts(stage, rec)
    }

    fn fresh(&self, alloc: Global, _stage: u32) -> AuctionCell<S::Kept> {
        AuctionCell {
            bidding: Bidding::new(),
            sales: self.sales.none(alloc),
        }
    }

    fn is_fresh(&self, _stage: u32, cell: &AuctionCell<S::Kept>) -> bool {
        cell.bidding.is_new() && self.sales.is_none(&cell.sales)
    }

    fn most(&self, _stage: u32, _cell: &AuctionCell<S::Kept>, _group: &Group) -> u64 {
        1
    }

    fn step(
        &self,
        alloc: Global,
        stage: u32,
        cell: &mut AuctionCell<S::Kept>,
        group: &Group,
    ) -> Result<Vec<Value>, AllocError> {
        if stage == 0 {
            let outputs = sale::<S>(&cell.bidding, group).into_iter().collect(alloc)?;
            cell.bidding.apply(group);
            Ok(outputs)
        } else {
            let sales = self.sales.after(alloc, &cell.sales, group.recs())?;
            let outputs = row(group, self.sales.average(&sales))
                .into_iter()
                .collect(alloc)?;
            cell.sales = sales;
            Ok(outputs)
        }
    }

    fn copy_cell(
        &self,
        alloc: Global,
        _stage: u32,
        cell: &AuctionCell<S::Kept>,
    ) -> Result<AuctionCell<S::Kept>, AllocError> {
        Ok(AuctionCell {
            bidding: cell.bidding,
            sales: self.sales.copy(alloc, &cell.sales)?,
        })
    }

    ghost has_stages = { λ vs. has_stages S.party (S.sales vs) };

    ghost posts_are_later = { λ vs. posts_are_later S.party (S.sales vs) };

    ghost later_stages_post_nothing = { λ vs. later_stages_post_nothing S.party (S.sales vs) };

    ghost most_is_enough = { λ vs. most_is_enough S.party (S.sales vs) };

    ghost fresh_stays_fresh = { λ vs. fresh_stays_fresh S.party (S.sales vs) (S.none_stay vs) };

    ghost begins_fresh = { λ vs. begins_fresh S.party (S.sales vs) };

    ghost texts_tell_cells = { λ vs. texts_tell_cells S.party S.numbers (S.sales vs) (S.numbers_tell vs) };

    ghost sums_fit = { S.sums_fit };
}

impl<S: Sales + Sync> Saved for Closed<S>
where
    S::Kept: Send + Sync,
{
    ghost use Rattle.mp_auctions.specs.Laws.Leaving.{leaves_what_may_be_saved};
    ghost use Rattle.mp_auctions.specs.Laws.Texts.{texts_are_plain};

    const NUMBER: u32 = S::NUMBER;

    ghost NUMBER = { S.NUMBER };

    fn values(&self) -> ValueList {
        self.sales.values()
    }

    fn is_allowed(&self, stage: u32, _key: u64, _until: Time, cell: &AuctionCell<S::Kept>) -> bool {
        if stage == 0 {
            self.sales.is_none(&cell.sales) && cell.bidding.is_legal()
        } else {
            stage == 1 && cell.bidding.has_none() && self.sales.is_allowed(&cell.sales)
        }
    }

    fn write_cell(
        &self,
        stage: u32,
        cell: &AuctionCell<S::Kept>,
        out: &mut Vec<u8>,
    ) -> Result<(), AllocError> {
        if stage == 0 {
            cell.bidding.write(out)
        } else {
            self.sales.write(&cell.sales, out)
        }
    }

    fn read_cell(
        &self,
        alloc: Global,
        stage: u32,
        text: &[u8],
    ) -> Result<Option<AuctionCell<S::Kept>>, AllocError> {
        let Some(numbers) = read_numbers(alloc, text)? else {
            return Ok(None);
        };
        if stage == 0 {
            let bidding = Bidding::said(numbers.as_slice());
            let sales = self.sales.none(alloc);
            return Ok(Some(AuctionCell { bidding, sales }));
        }
        let Some(sales) = self.sales.said(numbers) else {
            return Ok(None);
        };
        let bidding = Bidding::new();
        Ok(Some(AuctionCell { bidding, sales }))
    }

    ghost texts_are_plain = { λ vs. texts_are_plain S.party S.numbers (S.sales vs) (S.numbers_tell vs) };

    ghost leaves_what_may_be_saved = { λ vs. leaves_what_may_be_saved S.party S.parties_are_ids (S.sales vs) (S.kept_may_be_saved vs) S.NUMBER S.is_late };
}

/// The key of a value: in stage 0 the id of an auction and the auction of a bid, in stage 1 what a sale is of. Other
/// values make no record.
fn key(stage: u32, value: &Value) -> Option<u64>
    ensures { result ≡ key_of stage value.now }
{
    match value {
        Value::Auction { id, .. } if stage == 0 => Some(*id),
        Value::Bid { auction, .. } if stage == 0 => Some(*auction),
        Value::Sale { of, .. } if stage != 0 => Some(*of),
        _ => None,
    }
}

/// The time at which the auction of a record closes.
fn posts(stage: u32, rec: &Rec) -> PostList
    ensures { result ≡ posts_of stage rec.now }
{
    let mut posts = PostList::new();
    if let Value::Auction { expires, .. } = &rec.value {
        if stage == 0 {
            posts.push(*expires);
        }
    }
    posts
}

/// The sale of a lot, where this group closes the auction.
fn sale<S: Sales>(bidding: &Bidding, group: &Group) -> Option<Value>
    ensures { result ≡ sale_by S.party bidding.now group.now }
{
    match bidding.sold_in(group) {
        Some((lot, price)) => Some(Value::Sale {
            of: S::party(&lot),
            price,
        }),
        None => None,
    }
}

/// The row of a group that has records: its key, and this average.
fn row(group: &Group, average: u64) -> Option<Value>
    ensures { result ≡ row_of group.now average }
{
    if group.recs().is_empty() {
        return None;
    }
    Some(Value::Row(Fields::two(group.key(), average)))
}
