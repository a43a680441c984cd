//! The messages that wait.
ghost use Rattle.std.specs.Prelude.{◌≡◌, ◌++◌, ◌∷◌, [], IfOk, OnOk, get_or, length, map, replicate, slice_get, slice_set};
ghost use Rattle.mp_machine.specs.Steps.{rest_of};
ghost use Rattle.mp_standing.specs.Boxes.{box_of, with_box};

use crate::message::Message;
use std::alloc::{AllocError, Global};
use std::collections::VecDeque;
use std::marker::Model;

/// From each worker to each the messages that wait, the oldest first. Contracts see them as lists, by sender and receiver.
#[derive(Drop)]
pub struct Mail {
    boxes: Vec<Vec<VecDeque<Message>>>,
}

impl Model for Mail {
    ghost use Rattle.std.specs.Prelude.{List, map};
    ghost use Rattle.mp_standing.specs.declared.message.Message.{Message};

    ghost Value = { List (List (List Message)) };

    ghost view = { λ m. map (λ row. map (λ b. b.items) row.items) m.boxes.items };
}

impl Mail {
    /// Mail between so many workers, none of it waiting. `AllocError`: no memory.
    pub fn open(alloc: Global, workers: u32) -> Result<Mail, AllocError>
        ensures { IfOk result (λ mail. mail ≡ replicate workers (replicate workers [])) }
    {
        let mut boxes = Vec::new(alloc);
        for _ in 0..workers {
            boxes.push(empty_row(alloc, workers)?)?;
        }
        Ok(Mail { boxes })
    }

    /// How many messages wait from a worker to another.
    pub fn count(&self, from: u32, to: u32) -> usize
        ensures { result ≡ length (box_of self.now from to) }
    {
        match self.boxes.get(from as usize) {
            Some(row) => count_in(row, to as usize),
            None => 0,
        }
    }

    /// The oldest of them, if there is one.
    pub fn first(&self, from: u32, to: u32) -> Option<Message>
        ensures { result ≡ slice_get (box_of self.now from to) 0 }
    {
        match self.boxes.get(from as usize) {
            Some(row) => first_in(row, to as usize),
            None => None,
        }
    }

    /// A message comes behind those that wait from a worker to another; nothing, where there are no such workers.
    /// `AllocError`: no memory.
    pub fn push(&mut self, from: u32, to: u32, message: Message) -> Result<(), AllocError>
        ensures { OnOk result (self.new ≡ with_box self.old from to (box_of self.old from to ++ message ∷ [])) }
    {
        if from as usize >= self.boxes.len() {
            return Ok(());
        }
        push_in(&mut self.boxes[from as usize], to as usize, message)?;
        Ok(())
    }

    /// The oldest message from a worker to another goes, if there is one.
    pub fn pop(&mut self, from: u32, to: u32)
        ensures { self.new ≡ with_box self.old from to (rest_of (box_of self.old from to)) }
    {
        if (from as usize) < self.boxes.len() {
            pop_in(&mut self.boxes[from as usize], to as usize);
        }
    }
}

// From one worker to each of so many: no messages.
fn empty_row(alloc: Global, workers: u32) -> Result<Vec<VecDeque<Message>>, AllocError>
    ensures { IfOk result (λ row. map (λ b. b.items) row.items ≡ replicate workers []) }
{
    let mut row = Vec::new(alloc);
    for _ in 0..workers {
        row.push(VecDeque::new(alloc))?;
    }
    Ok(row)
}

fn count_in(row: &Vec<VecDeque<Message>>, to: usize) -> usize
    ensures { result ≡ length (get_or (map (λ b. b.items) row.now.items) to []) }
{
    match row.get(to) {
        Some(waiting) => waiting.len(),
        None => 0,
    }
}

fn first_in(row: &Vec<VecDeque<Message>>, to: usize) -> Option<Message>
    ensures { result ≡ slice_get (get_or (map (λ b. b.items) row.now.items) to []) 0 }
{
    match row.get(to) {
        Some(waiting) => waiting.front().copied(),
        None => None,
    }
}

fn push_in(row: &mut Vec<VecDeque<Message>>, to: usize, message: Message) -> Result<(), AllocError>
    ensures { let old = map (λ b. b.items) row.old.items in
        OnOk result (map (λ b. b.items) row.new.items ≡ slice_set old to (get_or old to [] ++ message ∷ [])) }
{
    if to >= row.len() {
        return Ok(());
    }
    row[to].push_back(message)?;
    Ok(())
}

fn pop_in(row: &mut Vec<VecDeque<Message>>, to: usize)
    ensures { let old = map (λ b. b.items) row.old.items in
        map (λ b. b.items) row.new.items ≡ slice_set old to (rest_of (get_or old to [])) }
{
    if to < row.len() {
        let _ = row[to].pop_front();
    }
}
