//! What commands ask for.

/// A query that can be run, by its name in NEXMark.
#[derive(Clone, Copy)]
pub enum QueryName {
    /// `q1`
    Q1,
    /// `q2`
    Q2,
    /// `q3`
    Q3,
    /// `q4`
    Q4,
    /// `q5`
    Q5,
    /// `q6`
    Q6,
    /// `q7`
    Q7,
    /// `q8`
    Q8,
}

/// The query of a dataflow that runs on files.
#[derive(Clone, Copy)]
pub enum QueryOption<'a> {
    /// The query of a name.
    Named(QueryName),
    /// `pipe`: the pipeline that the file of this name says.
    Piped(&'a str),
}

/// What the words ask for.
#[derive(Clone, Copy)]
pub enum Command<'a> {
    /// `run` or `replay`: to run a dataflow and write its answer.
    Run(RunOptions<'a>),
    /// `check`: to read an event file and a configuration.
    Check(CheckOptions<'a>),
    /// `make`: to write events that are made from a seed.
    Make(MakeOptions<'a>),
    /// `demo`: to run a dataflow on events that are made from a seed, and sum up its answer.
    Demo(DemoOptions),
    /// `audit`: to find out whether a journal is that of a run that writes an answer.
    Audit(AuditOptions<'a>),
}

/// How the workers of a run take turns.
#[derive(Clone, Copy)]
pub enum Schedule {
    /// On threads, as these go: what `run` asks for.
    Threads,
    /// On one thread, by the schedule of this seed, from 0 to [`MAX_SEED`](mp_names::limits::MAX_SEED): what `replay` asks for.
    Seeded(u64),
}

/// Which part of the events a run takes.
#[derive(Clone, Copy)]
pub enum Span<'a> {
    /// All events.
    Whole,
    /// The events before a time, and what they leave is saved.
    Until {
        /// The time, from 1 to [`MAX_TIME`](mp_names::limits::MAX_TIME).
        time: u64,
        /// The name that it is saved to, which is none of the others.
        save: &'a str,
    },
    /// The events from the time of the checkpoint of this name on.
    From(&'a str),
}

/// What `run` and `replay` are to do. Names are as the words say them, the empty name among them.
#[derive(Clone, Copy)]
pub struct RunOptions<'a> {
    /// The query of the dataflow.
    pub query: QueryOption<'a>,
    /// The name of the event file.
    pub events: &'a str,
    /// The name of the configuration.
    pub config: &'a str,
    /// The name that the answer is written to, which is none of those that are read.
    pub out: &'a str,
    /// The name that the report is written to, if one is asked for: neither that of the answer nor one that is read.
    pub report: Option<&'a str>,
    /// The name that the journal is written to, if one is asked for: neither of the others that are written nor one that is read.
    pub journal: Option<&'a str>,
    /// How many workers run the dataflow, from 1 to [`MAX_WORKERS`](mp_names::limits::MAX_WORKERS).
    pub workers: u32,
    /// How many bins a keyed state is cut into: a power of two from 1 to [`MAX_BINS`](mp_names::limits::MAX_BINS).
    pub bins: u32,
    /// How many messages a mailbox holds at most, from 1 to [`MAX_DEPTH`](mp_names::limits::MAX_DEPTH).
    pub depth: u32,
    /// How the workers take turns.
    pub schedule: Schedule,
    /// Whether control records of a time wait until the moves of the time before are passed.
    pub paced: bool,
    /// Which part of the events is taken: all of them where a journal is asked for, or where the query is a pipeline.
    pub span: Span<'a>,
}

/// What `check` is to read.
#[derive(Clone, Copy)]
pub struct CheckOptions<'a> {
    /// The query that the configuration is read for.
    pub query: QueryOption<'a>,
    /// The name of the event file.
    pub events: &'a str,
    /// The name of the configuration.
    pub config: &'a str,
    /// For how many workers it is read, from 1 to [`MAX_WORKERS`](mp_names::limits::MAX_WORKERS).
    pub workers: u32,
    /// For how many bins it is read: a power of two from 1 to [`MAX_BINS`](mp_names::limits::MAX_BINS).
    pub bins: u32,
}

/// What `make` is to write.
#[derive(Clone, Copy)]
pub struct MakeOptions<'a> {
    /// How many events, from 0 to [`MAX_EVENTS`](mp_names::limits::MAX_EVENTS).
    pub count: u32,
    /// The seed that they are made from, from 0 to [`MAX_SEED`](mp_names::limits::MAX_SEED).
    pub seed: u64,
    /// The name that they are written to.
    pub out: &'a str,
}

/// What `demo` is to run.
#[derive(Clone, Copy)]
pub struct DemoOptions {
    /// The query of the dataflow.
    pub query: QueryName,
    /// How many events, from 0 to [`MAX_EVENTS`](mp_names::limits::MAX_EVENTS).
    pub count: u32,
    /// The seed that they are made from, from 0 to [`MAX_SEED`](mp_names::limits::MAX_SEED).
    pub seed: u64,
    /// How many workers run the dataflow, from 1 to [`MAX_WORKERS`](mp_names::limits::MAX_WORKERS).
    pub workers: u32,
    /// How many bins a keyed state is cut into: a power of two from 1 to [`MAX_BINS`](mp_names::limits::MAX_BINS).
    pub bins: u32,
    /// How many messages a mailbox holds at most, from 1 to [`MAX_DEPTH`](mp_names::limits::MAX_DEPTH).
    pub depth: u32,
}

/// What `audit` is to read, and the machine that it asks for.
#[derive(Clone, Copy)]
pub struct AuditOptions<'a> {
    /// The query of the dataflow.
    pub query: QueryOption<'a>,
    /// The name of the event file.
    pub events: &'a str,
    /// The name of the configuration.
    pub config: &'a str,
    /// The name of the answer, which is none of the others.
    pub out: &'a str,
    /// The name of the journal, which is none of the others.
    pub journal: &'a str,
    /// How many workers the dataflow has, from 1 to [`MAX_WORKERS`](mp_names::limits::MAX_WORKERS).
    pub workers: u32,
    /// How many bins a keyed state is cut into: a power of two from 1 to [`MAX_BINS`](mp_names::limits::MAX_BINS).
    pub bins: u32,
    /// How many messages a mailbox holds at most, from 1 to [`MAX_DEPTH`](mp_names::limits::MAX_DEPTH).
    pub depth: u32,
    /// Whether control records of a time wait until the moves of the time before are passed.
    pub paced: bool,
}
