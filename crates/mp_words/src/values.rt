//! The values of the options, checked one by one. Each is taken by a `match` or a `let .. else`: for a `?` the proof writes
//! out two calls more, which costs it twice the time.
ghost use Rattle.std.specs.Prelude.{◌≡◌, ◌≤◌, ◌++◌, IfSome, codes, option_map, option_and_then};
ghost use Rattle.std.specs.Option.{option_to_list};
ghost use Rattle.clap.specs.Words.{first_of, found_of, rows_of};
ghost use Rattle.mp_words.specs.Limits.{AreWithinLimits, IsBinCount, IsPositiveUpTo, IsWithinLimits, SeedIsWithinLimit, SpanIsWithinLimit};
ghost use Rattle.mp_names.specs.Limits.{greatest_seed, greatest_time, most_bins, most_events};
ghost use Rattle.mp_words.specs.Reading.{SizeIsWithinLimits, inputs_read, size_read};
ghost use Rattle.mp_words.specs.Values.{audit_of, check_of, count_of, demo_of, inputs_of, make_of, number_up_to, options_in, size_of};
ghost use Rattle.mp_words.specs.Values.{are_apart, checkpoint_names, is_among, is_set, names_are_apart, options_of, pipe_names, positive_up_to, power_up_to};
ghost use Rattle.mp_words.specs.Values.{query_asked, query_in, query_of, read_names, replay_of, save_names, seed_of, span_asked, span_in, span_is_allowed};
ghost use Rattle.mp_words.specs.Words.{Audit, Check, Demo, Make, Run, asked_in};

use crate::options::{
    AuditOptions, CheckOptions, Command, DemoOptions, MakeOptions, QueryName, QueryOption,
    RunOptions, Schedule, Span,
};
use clap::ArgMatches;
use mp_names::limits::{MAX_BINS, MAX_DEPTH, MAX_EVENTS, MAX_SEED, MAX_TIME, MAX_WORKERS};
use mp_text::number;

// What a run reads, but for a checkpoint.
#[derive(Clone, Copy)]
struct Inputs<'a> {
    query: QueryOption<'a>,
    events: &'a str,
    config: &'a str,
}

// How great it is.
#[derive(Clone, Copy)]
struct Size {
    workers: u32,
    bins: u32,
    depth: u32,
}

/// What the options of `run` or `replay` ask for, with this schedule, or `None` where a value isn't allowed.
pub fn run_command<'a>(matches: &ArgMatches<'a>, schedule: Schedule) -> Option<Command<'a>>
    requires { SeedIsWithinLimit schedule }
    ensures asked { option_map asked_in result ≡ option_map Run (options_of schedule (rows_of (found_of matches.now))) }
    ensures within { IfSome result IsWithinLimits }
{
    match run_options(matches, schedule) {
        Some(options) => Some(Command::Run(options)),
        None => None,
    }
}

/// The options that they ask for.
fn run_options<'a>(matches: &ArgMatches<'a>, schedule: Schedule) -> Option<RunOptions<'a>>
    requires { SeedIsWithinLimit schedule }
    ensures asked { option_map options_in result ≡ options_of schedule (rows_of (found_of matches.now)) }
    ensures within { IfSome result AreWithinLimits }
{
    let Some(inputs) = inputs_in(matches) else {
        return None;
    };
    let Some(out) = text(matches, "out") else {
        return None;
    };
    let Some(size) = size_in(matches) else {
        return None;
    };
    let Some(span) = span_option(matches) else {
        return None;
    };
    let options = RunOptions {
        query: inputs.query,
        events: inputs.events,
        config: inputs.config,
        out,
        report: text(matches, "report"),
        journal: text(matches, "journal"),
        workers: size.workers,
        bins: size.bins,
        depth: size.depth,
        schedule,
        paced: flag_in(matches, "paced"),
        span,
    };
    if names_are_apart(&options) && span_is_allowed(&options) {
        Some(options)
    } else {
        None
    }
}

/// What a run is asked to read.
fn inputs_in<'a>(matches: &ArgMatches<'a>) -> Option<Inputs<'a>>
    ensures { option_map inputs_read result ≡ inputs_of (rows_of (found_of matches.now)) }
{
    let Some(query) = query_option(matches) else {
        return None;
    };
    let Some(events) = text(matches, "events") else {
        return None;
    };
    match text(matches, "config") {
        Some(config) => Some(Inputs {
            query,
            events,
            config,
        }),
        None => None,
    }
}

/// How great it is asked to be.
fn size_in(matches: &ArgMatches) -> Option<Size>
    ensures size { option_map size_read result ≡ size_of (rows_of (found_of matches.now)) }
    ensures within { IfSome result SizeIsWithinLimits }
{
    let Some(workers) = positive_in(matches, "workers", MAX_WORKERS) else {
        return None;
    };
    let Some(bins) = bins_in(matches) else {
        return None;
    };
    match positive_in(matches, "depth", MAX_DEPTH) {
        Some(depth) => Some(Size {
            workers,
            bins,
            depth,
        }),
        None => None,
    }
}

/// Whether what is written has names of its own.
fn names_are_apart(options: &RunOptions) -> bool
    ensures { result ≡ names_are_apart (options_in options.now) }
{
    !is_report_or_later(options, options.out) && report_is_apart(options)
}

/// Whether the names of the report, of what is saved and of the journal are apart from each other and from those that are read.
fn report_is_apart(options: &RunOptions) -> bool
    ensures { let o = options_in options.now in
        result ≡ are_apart (option_to_list o.report ++ (save_names o.span ++ option_to_list o.journal)) (read_names o) }
{
    match options.report {
        Some(report) => !is_save_or_later(options, report) && save_is_apart(options),
        None => save_is_apart(options),
    }
}

/// Whether those of what is saved and of the journal are.
fn save_is_apart(options: &RunOptions) -> bool
    ensures { let o = options_in options.now in result ≡ are_apart (save_names o.span ++ option_to_list o.journal) (read_names o) }
{
    match options.span {
        Span::Until { save, .. } => !is_journal_or_read(options, save) && journal_is_apart(options),
        Span::Whole | Span::From(_) => journal_is_apart(options),
    }
}

/// Whether that of the journal is apart from those that are read.
fn journal_is_apart(options: &RunOptions) -> bool
    ensures { let o = options_in options.now in result ≡ are_apart (option_to_list o.journal) (read_names o) }
{
    match options.journal {
        Some(journal) => !is_read(options, journal),
        None => true,
    }
}

/// Whether the name is that of the report, of what is saved, of the journal or of a file that is read.
fn is_report_or_later(options: &RunOptions, name: &str) -> bool
    ensures { let o = options_in options.now in
        result ≡ is_among name.now ((option_to_list o.report ++ (save_names o.span ++ option_to_list o.journal)) ++ read_names o) }
{
    match options.report {
        Some(report) => name == report || is_save_or_later(options, name),
        None => is_save_or_later(options, name),
    }
}

/// Whether the name is that of what is saved, of the journal or of a file that is read.
fn is_save_or_later(options: &RunOptions, name: &str) -> bool
    ensures { let o = options_in options.now in
        result ≡ is_among name.now ((save_names o.span ++ option_to_list o.journal) ++ read_names o) }
{
    match options.span {
        Span::Until { save, .. } => name == save || is_journal_or_read(options, name),
        Span::Whole | Span::From(_) => is_journal_or_read(options, name),
    }
}

/// Whether the name is that of the journal or of a file that is read.
fn is_journal_or_read(options: &RunOptions, name: &str) -> bool
    ensures { let o = options_in options.now in result ≡ is_among name.now (option_to_list o.journal ++ read_names o) }
{
    match options.journal {
        Some(journal) => name == journal || is_read(options, name),
        None => is_read(options, name),
    }
}

/// Whether a file of this name is read.
fn is_read(options: &RunOptions, name: &str) -> bool
    ensures { result ≡ is_among name.now (read_names (options_in options.now)) }
{
    name == options.events
        || name == options.config
        || is_pipe(options.query, name)
        || is_checkpoint(options.span, name)
}

/// Whether it is that of a pipeline.
fn is_pipe(query: QueryOption, name: &str) -> bool
    ensures { result ≡ is_among name.now (pipe_names (query_in query.entry)) }
{
    match query {
        QueryOption::Named(_) => false,
        QueryOption::Piped(pipe) => name == pipe,
    }
}

/// Whether it is that of a checkpoint.
fn is_checkpoint(span: Span, name: &str) -> bool
    ensures { result ≡ is_among name.now (checkpoint_names (span_in span.entry)) }
{
    match span {
        Span::From(checkpoint) => name == checkpoint,
        Span::Whole | Span::Until { .. } => false,
    }
}

/// Whether all events are taken, or a part of them for a named query and without a journal.
fn span_is_allowed(options: &RunOptions) -> bool
    ensures { result ≡ span_is_allowed (options_in options.now) }
{
    match (options.span, options.query) {
        (Span::Whole, _) => true,
        (_, QueryOption::Named(_)) => options.journal.is_none(),
        (_, QueryOption::Piped(_)) => false,
    }
}

/// What the options of `replay` ask for, or `None` where a value isn't allowed.
pub fn replay_command<'a>(matches: &ArgMatches<'a>) -> Option<Command<'a>>
    ensures asked { option_map asked_in result ≡ option_map Run (replay_of (rows_of (found_of matches.now))) }
    ensures within { IfSome result IsWithinLimits }
{
    match seed_in(matches) {
        Some(seed) => run_command(matches, Schedule::Seeded(seed)),
        None => None,
    }
}

/// What the options of `audit` ask for, or `None` where a value isn't allowed: what `run` would with them, and a journal.
pub fn audit_command<'a>(matches: &ArgMatches<'a>) -> Option<Command<'a>>
    ensures asked { option_map asked_in result ≡ option_map Audit (audit_of (rows_of (found_of matches.now))) }
    ensures within { IfSome result IsWithinLimits }
{
    let Some(run) = run_options(matches, Schedule::Threads) else {
        return None;
    };
    match run.journal {
        Some(journal) => Some(Command::Audit(AuditOptions {
            query: run.query,
            events: run.events,
            config: run.config,
            out: run.out,
            journal,
            workers: run.workers,
            bins: run.bins,
            depth: run.depth,
            paced: run.paced,
        })),
        None => None,
    }
}

/// What the options of `check` ask for, or `None` where a value isn't allowed.
pub fn check_command<'a>(matches: &ArgMatches<'a>) -> Option<Command<'a>>
    ensures asked { option_map asked_in result ≡ option_map Check (check_of (rows_of (found_of matches.now))) }
    ensures within { IfSome result IsWithinLimits }
{
    let Some(query) = query_option(matches) else {
        return None;
    };
    let Some(events) = text(matches, "events") else {
        return None;
    };
    let Some(config) = text(matches, "config") else {
        return None;
    };
    let Some(workers) = positive_in(matches, "workers", MAX_WORKERS) else {
        return None;
    };
    match bins_in(matches) {
        Some(bins) => Some(Command::Check(CheckOptions {
            query,
            events,
            config,
            workers,
            bins,
        })),
        None => None,
    }
}

/// What the options of `make` ask for, or `None` where a value isn't allowed.
pub fn make_command<'a>(matches: &ArgMatches<'a>) -> Option<Command<'a>>
    ensures asked { option_map asked_in result ≡ option_map Make (make_of (rows_of (found_of matches.now))) }
    ensures within { IfSome result IsWithinLimits }
{
    let Some(count) = count_in(matches) else {
        return None;
    };
    let Some(seed) = seed_in(matches) else {
        return None;
    };
    match text(matches, "out") {
        Some(out) => Some(Command::Make(MakeOptions { count, seed, out })),
        None => None,
    }
}

/// What the options of `demo` ask for, or `None` where a value isn't allowed.
pub fn demo_command<'a>(matches: &ArgMatches<'a>) -> Option<Command<'a>>
    ensures asked { option_map asked_in result ≡ option_map Demo (demo_of (rows_of (found_of matches.now))) }
    ensures within { IfSome result IsWithinLimits }
{
    let Some(query) = query_name(matches) else {
        return None;
    };
    let Some(count) = count_in(matches) else {
        return None;
    };
    let Some(seed) = seed_in(matches) else {
        return None;
    };
    let Some(workers) = positive_in(matches, "workers", MAX_WORKERS) else {
        return None;
    };
    let Some(bins) = bins_in(matches) else {
        return None;
    };
    match positive_in(matches, "depth", MAX_DEPTH) {
        Some(depth) => Some(Command::Demo(DemoOptions {
            query,
            count,
            seed,
            workers,
            bins,
            depth,
        })),
        None => None,
    }
}

/// The value of an option, as text, or `None` where it has none.
fn text<'a>(matches: &ArgMatches<'a>, name: &str) -> Option<&'a str>
    ensures { option_map (λ s. s.now) result ≡ first_of name.now (rows_of (found_of matches.now)) }
{
    matches.get_str(name)
}

/// Whether a flag is there.
fn flag_in(matches: &ArgMatches, name: &str) -> bool
    ensures { result ≡ is_set name.now (rows_of (found_of matches.now)) }
{
    match text(matches, name) {
        Some(value) => value == "true",
        None => false,
    }
}

/// The value of `--query` where that is the name of a query.
fn query_name(matches: &ArgMatches) -> Option<QueryName>
    ensures { result ≡ option_and_then query_of (first_of (codes "query") (rows_of (found_of matches.now))) }
{
    match text(matches, "query") {
        Some(name) => query_named(name),
        None => None,
    }
}

/// The values of `--query` and `--pipe`, which is there exactly where the first is `pipe`.
fn query_option<'a>(matches: &ArgMatches<'a>) -> Option<QueryOption<'a>>
    ensures { let rows = rows_of (found_of matches.now) in
        option_map query_in result ≡ query_asked (first_of (codes "query") rows) (first_of (codes "pipe") rows) }
{
    let Some(word) = text(matches, "query") else {
        return None;
    };
    match text(matches, "pipe") {
        Some(file) if word == "pipe" => Some(QueryOption::Piped(file)),
        Some(_) => None,
        None => match query_named(word) {
            Some(name) => Some(QueryOption::Named(name)),
            None => None,
        },
    }
}

/// The values of `--until` and `--save`, or that of `--from`, or none of them.
fn span_option<'a>(matches: &ArgMatches<'a>) -> Option<Span<'a>>
    ensures value { let rows = rows_of (found_of matches.now) in
        option_map span_in result ≡ span_asked (first_of (codes "until") rows) (first_of (codes "save") rows) (first_of (codes "from") rows) }
    ensures within { IfSome result SpanIsWithinLimit }
{
    let save = text(matches, "save");
    span_named(text(matches, "until"), save, text(matches, "from"))
}

/// The value of an option that is a number from 1 to `most`.
fn positive_in(matches: &ArgMatches, name: &str, most: u32) -> Option<u32>
    ensures value { result ≡ option_and_then (positive_up_to most) (first_of name.now (rows_of (found_of matches.now))) }
    ensures within { IfSome result (IsPositiveUpTo most) }
{
    match text(matches, name) {
        Some(number) => positive_number(number, most),
        None => None,
    }
}

/// The value of `--bins`.
fn bins_in(matches: &ArgMatches) -> Option<u32>
    ensures value { result ≡ option_and_then (power_up_to most_bins) (first_of (codes "bins") (rows_of (found_of matches.now))) }
    ensures within { IfSome result IsBinCount }
{
    match text(matches, "bins") {
        Some(bins) => bins_named(bins),
        None => None,
    }
}

/// The value of `--count`.
fn count_in(matches: &ArgMatches) -> Option<u32>
    ensures value { result ≡ option_and_then count_of (first_of (codes "count") (rows_of (found_of matches.now))) }
    ensures within { IfSome result (λ count. count ≤ most_events) }
{
    match text(matches, "count") {
        Some(count) => count_named(count),
        None => None,
    }
}

/// The value of `--seed`, which is 0 where it isn't there.
fn seed_in(matches: &ArgMatches) -> Option<u64>
    ensures value { result ≡ seed_of (first_of (codes "seed") (rows_of (found_of matches.now))) }
    ensures within { IfSome result (λ seed. seed ≤ greatest_seed) }
{
    seed_named(text(matches, "seed"))
}

/// The query of this name.
fn query_named(name: &str) -> Option<QueryName>
    ensures { result ≡ query_of name.now }
{
    match name {
        "q1" => Some(QueryName::Q1),
        "q2" => Some(QueryName::Q2),
        "q3" => Some(QueryName::Q3),
        "q4" => Some(QueryName::Q4),
        "q5" => Some(QueryName::Q5),
        "q6" => Some(QueryName::Q6),
        "q7" => Some(QueryName::Q7),
        "q8" => Some(QueryName::Q8),
        _ => None,
    }
}

/// The part of the events that these texts say: a time goes with a name that is saved to, and the name of a checkpoint alone.
fn span_named<'a>(
    until: Option<&str>,
    save: Option<&'a str>,
    from: Option<&'a str>,
) -> Option<Span<'a>>
    ensures value { option_map span_in result ≡ span_asked (option_map (λ s. s.now) until.entry) (option_map (λ s. s.now) save.entry) (option_map (λ s. s.now) from.entry) }
    ensures within { IfSome result SpanIsWithinLimit }
{
    match (until, save, from) {
        (None, None, None) => Some(Span::Whole),
        (Some(until), Some(save), None) => match time_named(until) {
            Some(time) => Some(Span::Until { time, save }),
            None => None,
        },
        (None, None, Some(name)) => Some(Span::From(name)),
        _ => None,
    }
}

/// The number from 0 to `most` that a text says.
#[tactic(auto, using(crate::proofs::Numbers::within))]
fn number_within(text: &str, most: u64) -> Option<u64>
    ensures value { result ≡ number_up_to most text.now }
    ensures within { IfSome result (λ number. number ≤ most) }
{
    number(text.as_bytes(), most).ok()
}

/// The number from 1 to `most` that a text says.
fn positive_number(text: &str, most: u32) -> Option<u32>
    ensures value { result ≡ positive_up_to most text.now }
    ensures within { IfSome result (IsPositiveUpTo most) }
{
    match number_within(text, u64::from(most)) {
        Some(number) if number > 0 => Some(number as u32),
        _ => None,
    }
}

/// The time from 1 on that a text says.
fn time_named(text: &str) -> Option<u64>
    ensures value { result ≡ positive_up_to greatest_time text.now }
    ensures within { IfSome result (IsPositiveUpTo greatest_time) }
{
    match number_within(text, MAX_TIME) {
        Some(time) if time > 0 => Some(time),
        _ => None,
    }
}

/// The power of two up to the greatest count of bins that a text says.
fn bins_named(text: &str) -> Option<u32>
    ensures value { result ≡ power_up_to most_bins text.now }
    ensures within { IfSome result IsBinCount }
{
    match positive_number(text, MAX_BINS) {
        Some(bins) if bins.is_power_of_two() => Some(bins),
        _ => None,
    }
}

/// The count of events that a text says.
fn count_named(text: &str) -> Option<u32>
    ensures value { result ≡ count_of text.now }
    ensures within { IfSome result (λ count. count ≤ most_events) }
{
    match number_within(text, MAX_EVENTS as u64) {
        Some(count) => Some(count as u32),
        None => None,
    }
}

/// The seed that a text says, and 0 where there is no text.
fn seed_named(text: Option<&str>) -> Option<u64>
    ensures value { result ≡ seed_of (option_map (λ s. s.now) text.entry) }
    ensures within { IfSome result (λ seed. seed ≤ greatest_seed) }
{
    match text {
        Some(text) => number_within(text, MAX_SEED),
        None => Some(0),
    }
}
