//! The cells and wakes of a checkpoint, one by one in the order of their lines.
ghost use Rattle.std.specs.Prelude.{◌≡◌, ◌∷◌, [], MatchOption};
ghost use Rattle.mp_checkpoint_laws.specs.Files.{is_in_front, lines_of};
ghost use Rattle.mp_checkpoint.specs.Items.{line_said};

use mp_opening::{KeyCell, KeyWake};
use std::marker::Model;

/// What one line of a checkpoint's file says.
#[derive(Drop)]
pub enum Item<'a, C> {
    Cell(&'a KeyCell<C>),
    Wake(KeyWake),
}

/// The cells and wakes of a checkpoint, by stage and then by key, a key's cell in front of its wakes. Contracts see the
/// lines that are left.
#[derive(Drop)]
pub struct Items<'a, C> {
    cells: &'a [KeyCell<C>],
    wakes: &'a [KeyWake],
}

impl<'a, C> Model for Items<'a, C> {
    ghost use Rattle.std.specs.Prelude.{List};
    ghost use Rattle.mp_checkpoint_laws.specs.Files.{SavedLine, lines_of};

    ghost Value = { List (SavedLine C) };

    ghost view = { λ i. lines_of i.cells.now i.wakes.now };
}

impl<'a, C> Items<'a, C> {
    /// Those of these cells and wakes, which ascend.
    pub fn of(cells: &'a [KeyCell<C>], wakes: &'a [KeyWake]) -> Items<'a, C>
        ensures { result ≡ lines_of cells.now wakes.now }
    {
        Items { cells, wakes }
    }

    /// The next one, if one is left.
    pub fn item(&mut self) -> Option<Item<'a, C>>
        ensures { MatchOption result (self.old ≡ []) (λ item. self.old ≡ line_said item ∷ self.new) }
    {
        let Some((cell, cells)) = self.cells.split_first() else {
            let (wake, wakes) = self.wakes.split_first()?;
            self.wakes = wakes;
            return Some(Item::Wake(*wake));
        };
        if let Some((wake, wakes)) = self.wakes.split_first() {
            if is_in_front(cell, wake) {
                self.wakes = wakes;
                return Some(Item::Wake(*wake));
            }
        }
        self.cells = cells;
        Some(Item::Cell(cell))
    }
}

// Whether a wake stands in front of a cell.
fn is_in_front<C>(cell: &KeyCell<C>, wake: &KeyWake) -> bool
    ensures { result ≡ is_in_front cell.now wake.now }
{
    wake.stage < cell.stage || wake.stage == cell.stage && wake.key < cell.key
}
