//! The dataflow that a command asks for: its query, its shape and the rules of the query.
ghost use Rattle.std.specs.Prelude.{◌≡◌};
ghost use Rattle.mp_command.specs.Config.{flow_to_show, shape_of};
ghost use Rattle.mp_command.specs.Queries.{IsSound, query_named, rules_of, stages_of};
ghost use Rattle.mp_model.specs.Rules.{given_values};

use mp_job::Shape;
use mp_model::{Query, RuleList};
use mp_pipe_file::Pipe;
use mp_q_auction::{Q4, Q6};
use mp_q_join::{Q3, Q8};
use mp_q_simple::{Q1, Q2};
use mp_q_window::{Q5, Q7};
use mp_words::{DemoOptions, QueryName};

/// The query of a dataflow.
#[derive(Drop)]
pub enum FlowQuery {
    /// That of a name.
    Named(QueryName),
    /// A pipeline, as its file says it.
    Piped(Pipe),
}

/// A dataflow that is asked for.
#[derive(Drop)]
pub struct Flow {
    /// Its query.
    pub query: FlowQuery,
    /// How many workers run it.
    pub workers: u32,
    /// Into how many bins the keys of a stage are cut.
    pub bins: u32,
}

impl Flow {
    /// That of `demo`.
    pub fn of_demo(options: &DemoOptions) -> Flow
        ensures { result ≡ flow_to_show options.now }
    {
        Flow {
            query: FlowQuery::Named(options.query),
            workers: options.workers,
            bins: options.bins,
        }
    }

    /// The shape of its jobs. A pipeline has one to four stages, with windows in the first alone.
    pub fn shape(&self) -> Shape
        requires { IsSound self.now.query }
        ensures { result ≡ shape_of self.now }
    {
        Shape {
            workers: self.workers,
            bins: self.bins,
            stages: self.query.plan().stages,
        }
    }

    /// The rules of its query. A pipeline is as above.
    pub fn rules(&self) -> RuleList
        requires { IsSound self.now.query }
        ensures { result ≡ rules_of self.now.query }
    {
        self.query.plan().rules
    }
}

/// What is known of a query before a configuration is read.
#[derive(Drop)]
struct QueryPlan {
    stages: u32,
    rules: RuleList,
}

impl FlowQuery {
    // Its plan.
    fn plan(&self) -> QueryPlan
        requires { IsSound self.now }
        ensures stages { result.stages ≡ stages_of self.now }
        ensures rules { result.rules ≡ rules_of self.now }
    {
        match self {
            FlowQuery::Named(name) => plan_of(*name),
            FlowQuery::Piped(pipe) => plan_for(pipe),
        }
    }
}

/// The plan of the query of this name.
fn plan_of(name: QueryName) -> QueryPlan
    ensures stages { let query = query_named name in result.stages ≡ (query.facts (given_values query.rules)).stages }
    ensures rules { result.rules ≡ (query_named name).rules }
{
    match name {
        QueryName::Q1 => plan_for(&Q1::given()),
        QueryName::Q2 => plan_for(&Q2::given()),
        QueryName::Q3 => plan_for(&Q3::given()),
        QueryName::Q4 => plan_for(&Q4::given()),
        QueryName::Q5 => plan_for(&Q5::given()),
        QueryName::Q6 => plan_for(&Q6::given()),
        QueryName::Q7 => plan_for(&Q7::given()),
        QueryName::Q8 => plan_for(&Q8::given()),
    }
}

/// The plan of a query.
fn plan_for<Q: Query>(query: &Q) -> QueryPlan
    ensures stages { result.stages ≡ (Q.facts (Q.values query.now)).stages }
    ensures rules { result.rules ≡ Q.rules query.now }
{
    QueryPlan {
        stages: query.stages(),
        rules: query.rules(),
    }
}
