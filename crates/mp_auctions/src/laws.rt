//! What holds of the sales of closed auctions, each law the contract of a function that does nothing.
ghost use Rattle.mp_auctions.specs.SaleLaws.{AuctionsSellOnce, SalesAreFew, SalesHaveKeys};

use crate::Sales;

/// Each sale has a key in stage 1, the category or the seller that it is to.
pub fn sales_have_keys<S: Sales>()
    ensures { SalesHaveKeys S.party S.sales }
{}

/// An auction is sold once at most, whatever events a job has and whatever state it goes on from. So there are no more
/// sales than events, and wakes of that state.
pub fn auctions_sell_once<S: Sales>()
    ensures once { AuctionsSellOnce S.party S.sales }
    ensures few { SalesAreFew S.party S.sales }
{}
