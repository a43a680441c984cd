//! What q3 keeps of a seller.
ghost use Rattle.std.specs.Prelude.{◌≡◌, ◌↔◌, ◌+◌, ◌++◌, None, Some, [], IsTrue, IfOk, OnOk, OnErr, length, map};
ghost use Rattle.mp_text.specs.Fields.{fields_of};
ghost use Rattle.mp_q_join.specs.Joining.{after_records, auction_of, auctions_of, fresh_cell, home_said, ids_are_legal, person_is_legal, person_said, row_of, rows_along, text_of, waiting_read};

use crate::{Home, names};
use mp_model::{Rec, Value};
use mp_names::limits::{MAX_EVENTS, MAX_ID};
use mp_saved::{Words, put_more, read_numbers};
use std::alloc::{AllocError, Global};
use std::marker::Model;

/// The person, if it came, and the ids of the auctions that wait for it, in order. It is public only as the `Cell` of
/// q3.
#[derive(Drop)]
pub struct Joining {
    home: Option<Home>,
    waiting: Vec<u64>,
}

impl Model for Joining {
    ghost use Rattle.mp_q_join.specs.Joining.{PersonCell};

    ghost Value = { PersonCell };

    ghost view = { λ j. record { home = j.home; waiting = j.waiting.items } };
}

impl Joining {
    /// No person, and no auction.
    pub fn new(alloc: Global) -> Joining
        ensures { result ≡ fresh_cell }
    {
        Joining {
            home: None,
            waiting: Vec::new(alloc),
        }
    }

    /// Whether there is no person, and no auction waits.
    pub fn is_new(&self) -> bool
        ensures { IsTrue result ↔ (self.now ≡ fresh_cell) }
    {
        self.home.is_none() && self.waiting.is_empty()
    }

    /// The same person, and the same auctions. `AllocError`: no memory.
    pub fn copy(&self, alloc: Global) -> Result<Joining, AllocError>
        ensures { IfOk result (λ copy. copy ≡ self.now) }
    {
        let mut waiting = Vec::new(alloc);
        waiting.extend_from_slice(self.waiting.as_slice())?;
        Ok(Joining {
            home: self.home.clone()?,
            waiting,
        })
    }

    /// Whether there is a person with legal names, or auctions wait whose ids are within their limits, so that it may be
    /// saved.
    pub(crate) fn is_legal(&self) -> bool
        ensures { result ≡ person_is_legal self.now.home self.now.waiting }
    {
        let waiting = self.waiting.as_slice();
        match &self.home {
            Some(home) => waiting.len() == 0 && home.is_legal(),
            None => waiting.len() > 0 && waiting.len() <= MAX_EVENTS && ids_are_legal(waiting),
        }
    }

    /// Appends the text. `AllocError`: no memory, and a part of it may be appended.
    pub(crate) fn write(&self, out: &mut Vec<u8>) -> Result<(), AllocError>
        ensures { OnOk result (out.new.items ≡ out.old.items ++ text_of 0 self.now) }
    {
        match &self.home {
            Some(home) => home.write(out),
            None => {
                out.push(b'0')?;
                put_more(out, self.waiting.as_slice())?;
                Ok(())
            }
        }
    }

    /// The cell that a text says, if it says one. `AllocError`: no memory.
    pub(crate) fn read(alloc: Global, text: &[u8]) -> Result<Option<Joining>, AllocError>
        ensures { IfOk result (λ cell. cell ≡ person_said (fields_of text.now)) }
    {
        let mut words = Words::over(text);
        let Some(flag) = words.word() else {
            return Ok(None);
        };
        if names::is_yes(flag) {
            Joining::with_home(alloc, &mut words)
        } else {
            Joining::with_waiting(alloc, &words)
        }
    }

    /// The cell of the person that words say, if they say one.
    fn with_home(alloc: Global, words: &mut Words) -> Result<Option<Joining>, AllocError>
        ensures { IfOk result (λ cell. cell ≡ home_said words.old) }
    {
        let Some(home) = Home::read(alloc, words)? else {
            return Ok(None);
        };
        let waiting = Vec::new(alloc);
        Ok(Some(Joining {
            home: Some(home),
            waiting,
        }))
    }

    /// The cell in which the ids wait that words say, if they say some.
    fn with_waiting(alloc: Global, words: &Words) -> Result<Option<Joining>, AllocError>
        ensures { IfOk result (λ cell. cell ≡ waiting_read words.now) }
    {
        let Some(text) = words.rest() else {
            return Ok(None);
        };
        let Some(waiting) = read_numbers(alloc, text)? else {
            return Ok(None);
        };
        Ok(Some(Joining {
            home: None,
            waiting,
        }))
    }

    /// How many rows these records have at most: as many as there are of them, and auctions wait.
    pub fn most_rows(&self, recs: &[Rec]) -> u64
        ensures { result ≡ length recs.now + length self.now.waiting }
    {
        recs.len() as u64 + self.waiting.len() as u64
    }

    #[tactic(auto, using(crate::proofs::Joins::cell_stays, crate::proofs::Joins::cell_rows, crate::proofs::Joins::cell_joins, crate::proofs::Joins::cell_joins_rows, crate::proofs::Joins::cell_waits, crate::proofs::Joins::cell_waits_rows))]
    /// Takes these records, in order, and gives their rows. `AllocError`: no memory, and all stays as it was.
    pub fn apply(&mut self, alloc: Global, recs: &[Rec]) -> Result<Vec<Value>, AllocError>
        ensures cell { OnOk result (self.new ≡ after_records self.old recs.now) }
        ensures rows { IfOk result (λ v. v.items ≡ rows_along self.old recs.now) }
        ensures unchanged { OnErr result (self.new ≡ self.old) }
    {
        let auctions = auctions_of(alloc, recs)?;
        match &self.home {
            Some(home) => rows_of(alloc, home, &[], auctions.as_slice()),
            None => match Home::first(recs)? {
                Some(home) => self.join(alloc, home, auctions.as_slice()),
                None => self.wait(alloc, auctions.as_slice()),
            },
        }
    }

    /// Keeps a person. The auctions that waited have a row each, and then these.
    fn join(
        &mut self,
        alloc: Global,
        home: Home,
        auctions: &[u64],
    ) -> Result<Vec<Value>, AllocError>
        ensures cell { OnOk result (self.new ≡ record { home = Some home; waiting = [] }) }
        ensures rows { IfOk result (λ v. v.items ≡ map (row_of home) (self.old.waiting ++ auctions.now)) }
        ensures unchanged { OnErr result (self.new ≡ self.old) }
    {
        let rows = rows_of(alloc, &home, self.waiting.as_slice(), auctions)?;
        self.home = Some(home);
        self.waiting = Vec::new(alloc);
        Ok(rows)
    }

    /// Lets these auctions wait. They have no rows yet.
    fn wait(&mut self, alloc: Global, auctions: &[u64]) -> Result<Vec<Value>, AllocError>
        ensures cell { OnOk result
            (self.new ≡ record { home = self.old.home; waiting = self.old.waiting ++ auctions.now }) }
        ensures rows { IfOk result (λ v. v.items ≡ []) }
        ensures unchanged { OnErr result (self.new ≡ self.old) }
    {
        self.waiting.extend_from_slice(auctions)?;
        Ok(Vec::new(alloc))
    }
}

/// The rows of auctions that waited for a person, and of others after them.
fn rows_of(
    alloc: Global,
    home: &Home,
    waiting: &[u64],
    auctions: &[u64],
) -> Result<Vec<Value>, AllocError>
    ensures { IfOk result (λ v. v.items ≡ map (row_of home.now) (waiting.now ++ auctions.now)) }
{
    let mut rows = Vec::new(alloc);
    home.push_rows(waiting, &mut rows)?;
    home.push_rows(auctions, &mut rows)?;
    Ok(rows)
}

/// The ids of the auctions among these records, in order.
fn auctions_of(alloc: Global, recs: &[Rec]) -> Result<Vec<u64>, AllocError>
    ensures { IfOk result (λ v. v.items ≡ auctions_of recs.now) }
{
    let mut auctions = Vec::new(alloc);
    for rec in recs {
        if let Some(id) = auction_of(&rec.value) {
            auctions.push(id)?;
        }
    }
    Ok(auctions)
}

/// The id of an auction.
fn auction_of(value: &Value) -> Option<u64>
    ensures { result ≡ auction_of value.now }
{
    match value {
        Value::Auction { id, .. } => Some(*id),
        _ => None,
    }
}

/// Whether each id is within its limit.
fn ids_are_legal(ids: &[u64]) -> bool
    ensures { result ≡ ids_are_legal ids.now }
{
    ids.iter().all(|id| *id <= MAX_ID)
}
