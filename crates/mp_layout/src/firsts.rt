//! The first owners of bins.
ghost use Rattle.std.specs.Prelude.{◌≡◌, ◌<◌, ◌*◌, ◌+◌, [], All, IfOk};
ghost use Rattle.mp_layout.specs.FirstTable.{AreOwnersBy};
ghost use Rattle.mp_layout.specs.Layouts.{FirstFits, IsShape, first_owner};

use mp_names::{First, Shape};
use std::alloc::{AllocError, Global};
use std::marker::Model;

/// Who owns each bin of each stage before any control record is noted. Contracts see a `Layout`.
pub struct FirstOwners {
    shape: Shape,
    firsts: Vec<First>,
    // By stage and bin.
    owners: Vec<u32>,
}

// By hand, so that crates above call it and don't write out the drop of each field.
impl Drop for FirstOwners {
    fn drop(self) {
        let FirstOwners {
            shape: _,
            firsts: _,
            owners: _,
        } = self;
    }
}

impl Model for FirstOwners {
    ghost use Rattle.std.specs.Prelude.{All};
    ghost use Rattle.mp_layout.specs.FirstTable.{AreOwnersBy};
    ghost use Rattle.mp_layout.specs.Layouts.{FirstFits, IsShape, Layout};

    ghost Value = { Layout };

    ghost view = { λ o. record { shape = o.shape; firsts = o.firsts.items } };

    ghost invariant = { λ o.
        IsShape o.shape
        × All (FirstFits o.shape) o.firsts.items
        × AreOwnersBy o.shape o.firsts.items o.owners.items };
}

impl FirstOwners {
    /// Those of a job of this shape: these, and for each other bin the worker of its number modulo the number of workers (this
    /// project's profile). `AllocError`: no memory.
    pub fn new(alloc: Global, shape: Shape, firsts: &[First]) -> Result<FirstOwners, AllocError>
        requires shape { IsShape shape }
        requires firsts { All (FirstFits shape) firsts.now }
        ensures { IfOk result (λ o. o ≡ record { shape = shape; firsts = firsts.now }) }
    {
        let mut own = Vec::with_capacity(alloc, firsts.len())?;
        own.extend_from_slice(firsts)?;
        let owners = owners_by(alloc, shape, firsts)?;
        Ok(FirstOwners {
            shape,
            firsts: own,
            owners,
        })
    }

    /// How many workers, bins and stages the job has.
    pub fn shape(&self) -> Shape
        ensures { result ≡ self.now.shape }
    {
        self.shape
    }

    /// Those that aren't the usual ones.
    pub fn firsts(&self) -> &[First]
        ensures { result.now ≡ self.now.firsts }
    {
        self.firsts.as_slice()
    }

    /// The first owner of a bin of a stage.
    pub fn of(&self, stage: u32, bin: u32) -> u32
        ensures owner { result ≡ first_owner self.now stage bin }
        ensures worker { result < self.now.shape.workers }
    {
        let shape = self.shape;
        if stage < shape.stages && bin < shape.bins {
            return self.owners[bin_index(shape, stage, bin)];
        }
        bin % shape.workers
    }
}

// The first owners of all bins of all stages, where these aren't the usual ones. The one that stands first in the list counts,
// so it is put down last. `AllocError`: no memory.
fn owners_by(alloc: Global, shape: Shape, firsts: &[First]) -> Result<Vec<u32>, AllocError>
    requires shape { IsShape shape }
    requires firsts { All (FirstFits shape) firsts.now }
    ensures { IfOk result (λ owners. AreOwnersBy shape firsts.now owners.items) }
{
    let mut owners = usual_owners(alloc, shape)?;
    for put in 0..firsts.len() {
        let first = &firsts[firsts.len() - 1 - put];
        owners[bin_index(shape, first.stage, first.bin)] = first.worker;
    }
    Ok(owners)
}

// Each bin of each stage has its usual owner. `AllocError`: no memory.
fn usual_owners(alloc: Global, shape: Shape) -> Result<Vec<u32>, AllocError>
    requires { IsShape shape }
    ensures { IfOk result (λ owners. AreOwnersBy shape [] owners.items) }
{
    let mut owners = Vec::new(alloc);
    for place in 0..bin_index(shape, shape.stages, 0) {
        let bin = place % shape.bins as usize;
        owners.push(bin as u32 % shape.workers)?;
    }
    Ok(owners)
}

/// The place of a bin of a stage among the bins of all stages.
pub fn bin_index(shape: Shape, stage: u32, bin: u32) -> usize
    ensures { result ≡ stage * shape.bins + bin }
{
    stage as usize * shape.bins as usize + bin as usize
}
