//! What a query is: its table as functions, and the laws that it keeps.
ghost use Rattle.std.specs.Prelude.{◌≡◌, ◌≤◌, ℕ, List, true, IsTrue, ◌↔◌, IfOk, OnOk, OnErr};
ghost use Rattle.mp_model.specs.Rules.{RuleFacts, are_within, given_values, numbers_with};
ghost use Rattle.mp_names.specs.Limits.{last_time};
ghost use Rattle.mp_model.specs.Facts.{QueryFacts};
ghost use Rattle.mp_model.specs.QueryLaws.{BeginsFresh, HasStages, PostsAreLater, LaterStagesPostNothing, MostIsEnough, FreshStaysFresh, SumsFit, TextsTellCells};

use crate::{Group, PostList, Rec, RuleList, Time, Value};
use std::alloc::{AllocError, Global};

/// A query: which key each value has in each stage, when a record wakes its key, and what a group makes of the cell of its
/// key. The subjects of the queries are NEXMark's, their tables this project's profile.
pub trait Query: Drop + Sync {
    /// What a stage keeps of a key.
    type Cell: Drop + Send + Sync;

    /// The numbers that tell the query apart from others of its type: the values of its rules, or what stands for them.
    ghost values: { Self → List ℕ };

    /// Its rules.
    ghost rules: { Self → List RuleFacts };

    /// The table of the query with these numbers.
    ghost facts: { List ℕ → QueryFacts Self.Cell };

    /// A cell as its text, by which it is saved.
    ghost text_of: { ℕ → Self.Cell → List ℕ };

    /// How many stages there are, 1 to 4. Stages are numbered from 0.
    fn stages(&self) -> u32
        ensures { result ≡ (facts (values self.now)).stages };

    /// The constants that a configuration may set.
    fn rules(&self) -> RuleList
        ensures rules { result ≡ rules self.now }
        ensures given { are_within (rules self.now) (given_values (rules self.now)) ≡ true };

    /// The query with these values of its rules, one for each and in their order.
    fn with(self, given: &[u64]) -> Self
        requires { are_within (rules self) given.now ≡ true }
        ensures values { values result ≡ numbers_with (rules self) (values self) given.now }
        ensures rules { rules result ≡ rules self }
        ensures stages { (facts (values result)).stages ≡ (facts (values self)).stages };

    /// The key of a value at a time, if it makes a record of this stage. The time is at most 2^47 + 43,200.
    fn key(&self, stage: u32, time: Time, value: &Value) -> Option<u64>
        requires { time ≤ last_time }
        ensures { result ≡ (facts (values self.now)).key stage time value.now };

    /// The times at which a record wakes its key. Its time is at most 2^47 + 43,200.
    fn posts(&self, stage: u32, rec: &Rec) -> PostList
        requires { rec.now.time ≤ last_time }
        ensures { result ≡ (facts (values self.now)).posts stage rec.now };

    /// The cell of a key that has had no group.
    fn fresh(&self, alloc: Global, stage: u32) -> Self::Cell
        ensures { result ≡ (facts (values self.now)).fresh stage };

    /// Whether a cell is such as one that has had no group.
    fn is_fresh(&self, stage: u32, cell: &Self::Cell) -> bool
        ensures { IsTrue result ↔ (cell.now ≡ (facts (values self.now)).fresh stage) };

    /// No fewer than the outputs that a group will give. The sums and counts of the cell with the group fit their types.
    fn most(&self, stage: u32, cell: &Self::Cell, group: &Group) -> u64
        requires { (facts (values self.now)).fits stage cell.now group.now ≡ true }
        ensures { result ≡ (facts (values self.now)).most stage cell.now group.now };

    /// Applies a group to the cell of its key: the outputs, in order. The sums and counts of the cell with the group fit
    /// their types. An allocation failure leaves the cell as it was.
    fn step(
        &self,
        alloc: Global,
        stage: u32,
        cell: &mut Self::Cell,
        group: &Group,
    ) -> Result<Vec<Value>, AllocError>
        requires { (facts (values self.now)).fits stage cell.old group.now ≡ true }
        ensures cell { OnOk result (cell.new ≡ (facts (values self.now)).step stage cell.old group.now) }
        ensures outputs { IfOk result (λ v. v.items ≡ (facts (values self.now)).gives stage cell.old group.now) }
        ensures unchanged { OnErr result (cell.new ≡ cell.old) };

    /// An equal cell. `AllocError`: no memory.
    fn copy_cell(
        &self,
        alloc: Global,
        stage: u32,
        cell: &Self::Cell,
    ) -> Result<Self::Cell, AllocError>
        ensures { IfOk result (λ copy. copy ≡ cell.now) };

    ghost has_stages: { (vs : List ℕ) → HasStages (facts vs) };

    ghost posts_are_later: { (vs : List ℕ) → PostsAreLater (facts vs) };

    ghost later_stages_post_nothing: { (vs : List ℕ) → LaterStagesPostNothing (facts vs) };

    ghost most_is_enough: { (vs : List ℕ) → MostIsEnough (facts vs) };

    ghost fresh_stays_fresh: { (vs : List ℕ) → FreshStaysFresh (facts vs) };

    ghost begins_fresh: { (vs : List ℕ) → BeginsFresh (facts vs) };

    ghost texts_tell_cells: { (vs : List ℕ) → TextsTellCells text_of (facts vs) };

    ghost sums_fit: { SumsFit facts };
}
