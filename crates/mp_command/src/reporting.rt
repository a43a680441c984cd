//! The report's way into its file, and the journal's.
ghost use Rattle.std.specs.Prelude.{◌≡◌, ◌<◌, ◌≤◌, ◌^◌, ℕ, Err, IfErr, OnErr, OnOk, Some, [], length, map, option_map, take};
ghost use Rattle.std.specs.Option.{ForSome};
ghost use Rattle.mp_model.specs.Tables.{table_of};
ghost use Rattle.mp_output.specs.declared.refused.OutRefused.TheVariants.{WriteFault};
ghost use Rattle.mp_outside.specs.Fault.{Rose};
ghost use Rattle.mp_outside.specs.Sink.{OnlyAppends, grown};
ghost use Rattle.mp_report.specs.Journal.{journal_text};
ghost use Rattle.mp_report.specs.Report.{IsReport};
ghost use Rattle.mp_tally.specs.Tallies.{AreTalliesOf};
ghost use Rattle.mp_command_files.specs.Outcome.{StopsAnswer};
ghost use Rattle.mp_command_files.specs.Refused.{EndsAs, outcome_of};
ghost use Rattle.mp_command.specs.Writing.{Journal, Report, WritesAll, WritesSome, target_in};

use mp_buffered::{Buffered, room};
use mp_command_files::Refusal;
use mp_job::Job;
use mp_journal::Kept;
use mp_model::Query;
use mp_output::OutRefused;
use mp_outside::{Depot, DepotSink, Sink};
use mp_report::{write_journal, write_report};
use mp_tally::Tally;
use std::alloc::Global;

/// Makes the file of a job's report hold it, where one is asked for. The tallies are the job's, by the workers' numbers. `WriteFault`:
/// the file couldn't be begun or appended to; `NoMemory`: no memory.
pub fn report_to<'a, D: Depot, Q: Query>(
    alloc: Global,
    depot: &mut D,
    asked: Option<&'a str>,
    job: &Job<Q>,
    tallies: &[Tally],
) -> Result<(), Refusal<'a>>
    requires tallies { AreTalliesOf (table_of Q.facts job.now) job.now tallies.now }
    ensures whole { let targets = target_in Report (option_map (λ name. name.now) asked.entry) in OnOk result
        (WritesAll (λ _. IsReport (table_of Q.facts job.now) job.now) targets (D.files depot.old) (D.files depot.new)) }
    ensures part { let targets = target_in Report (option_map (λ name. name.now) asked.entry) in OnErr result
        (WritesSome (λ _. IsReport (table_of Q.facts job.now) job.now) targets (D.files depot.old) (D.files depot.new)) }
    ensures refused { IfErr result (λ r. StopsAnswer (outcome_of r)) }

    ensures failed { IfErr result (λ r. EndsAs r 7
        → Rose (D.write_faults depot.old) (D.write_faults depot.new)) }
    ensures faults_grow { D.write_faults depot.old ≤ D.write_faults depot.new }
{
    match asked {
        Some(name) => report_at(alloc, depot, name, job, tallies),
        None => Ok(()),
    }
}

/// Makes the file of this name hold the report.
fn report_at<'a, D: Depot, Q: Query>(
    alloc: Global,
    depot: &mut D,
    name: &'a str,
    job: &Job<Q>,
    tallies: &[Tally],
) -> Result<(), Refusal<'a>>
    requires tallies { AreTalliesOf (table_of Q.facts job.now) job.now tallies.now }
    ensures whole { OnOk result (WritesAll (λ _. IsReport (table_of Q.facts job.now) job.now)
        (target_in Report (Some name.now)) (D.files depot.old) (D.files depot.new)) }
    ensures part { OnErr result (WritesSome (λ _. IsReport (table_of Q.facts job.now) job.now)
        (target_in Report (Some name.now)) (D.files depot.old) (D.files depot.new)) }
    ensures refused { IfErr result (λ r. StopsAnswer (outcome_of r)) }

    ensures failed { IfErr result (λ r. EndsAs r 7
        → Rose (D.write_faults depot.old) (D.write_faults depot.new)) }
    ensures faults_grow { D.write_faults depot.old ≤ D.write_faults depot.new }
{
    depot.begin(name)?;
    let mut sink = DepotSink::new(depot, name);
    write_report(alloc, job, tallies, &mut sink)?;
    Ok(())
}

/// Makes the file of a run's journal hold it, where one is asked for: the lines of the steps that these lists have, by the workers'
/// numbers. `WriteFault`: the file couldn't be begun or appended to; `NoMemory`: no memory.
pub fn journal_to<'a, D: Depot>(
    alloc: Global,
    depot: &mut D,
    asked: Option<&'a str>,
    lists: &[Vec<Kept>],
) -> Result<(), Refusal<'a>>
    requires few { length lists.now < 2 ^ 32 }
    ensures whole { let text = journal_text (map (λ v. v.items) lists.now) in
        let targets = target_in Journal (option_map (λ name. name.now) asked.entry) in
        OnOk result (WritesAll (λ _ written. written ≡ text) targets (D.files depot.old) (D.files depot.new)) }
    ensures part { let text = journal_text (map (λ v. v.items) lists.now) in
        let targets = target_in Journal (option_map (λ name. name.now) asked.entry) in
        OnErr result (WritesSome (λ _ written. written ≡ text) targets (D.files depot.old) (D.files depot.new)) }
    ensures refused { IfErr result (λ r. StopsAnswer (outcome_of r)) }

    ensures failed { IfErr result (λ r. EndsAs r 7
        → Rose (D.write_faults depot.old) (D.write_faults depot.new)) }
{
    match asked {
        Some(name) => journal_at(alloc, depot, name, lists),
        None => Ok(()),
    }
}

/// Makes the file of this name hold the journal.
fn journal_at<'a, D: Depot>(
    alloc: Global,
    depot: &mut D,
    name: &'a str,
    lists: &[Vec<Kept>],
) -> Result<(), Refusal<'a>>
    requires few { length lists.now < 2 ^ 32 }
    ensures whole { let text = journal_text (map (λ v. v.items) lists.now) in OnOk result
        (WritesAll (λ _ written. written ≡ text) (target_in Journal (Some name.now)) (D.files depot.old) (D.files depot.new)) }
    ensures part { let text = journal_text (map (λ v. v.items) lists.now) in OnErr result
        (WritesSome (λ _ written. written ≡ text) (target_in Journal (Some name.now)) (D.files depot.old) (D.files depot.new)) }
    ensures refused { IfErr result (λ r. StopsAnswer (outcome_of r)) }

    ensures failed { IfErr result (λ r. EndsAs r 7
        → Rose (D.write_faults depot.old) (D.write_faults depot.new)) }
{
    depot.begin(name)?;
    let mut sink = DepotSink::new(depot, name);
    write_gathered(alloc, lists, &mut sink)?;
    Ok(())
}

/// Writes the lines of the steps of one worker after the other, in long pieces. The refusals are those of one list.
fn write_gathered<S: Sink>(
    alloc: Global,
    lists: &[Vec<Kept>],
    sink: &mut S,
) -> Result<(), OutRefused>
    requires few { length lists.now < 2 ^ 32 }
    requires begun { ForSome (S.written sink.old) (λ bytes. bytes ≡ []) }
    ensures whole { OnOk result
        (S.written sink.new ≡ grown (S.written sink.old) (journal_text (map (λ v. v.items) lists.now))) }
    ensures part { OnErr result ((k : ℕ)
        × (S.written sink.new ≡ grown (S.written sink.old) (take k (journal_text (map (λ v. v.items) lists.now))))) }
    ensures failed { result ≡ Err WriteFault → Rose (S.faults sink.old) (S.faults sink.new) }
    ensures appends_only { OnlyAppends S.frame S.faults sink.old sink.new }
{
    let mut room = room(alloc)?;
    let mut buffered = Buffered::new(sink, &mut room);
    write_lists(alloc, lists, &mut buffered)?;
    buffered.flush()?;
    Ok(())
}

/// Writes the lines of the steps of one worker after the other. The refusals are those of one list.
fn write_lists<S: Sink>(alloc: Global, lists: &[Vec<Kept>], sink: &mut S) -> Result<(), OutRefused>
    requires few { length lists.now < 2 ^ 32 }
    ensures whole { OnOk result
        (S.written sink.new ≡ grown (S.written sink.old) (journal_text (map (λ v. v.items) lists.now))) }
    ensures part { OnErr result ((k : ℕ)
        × (S.written sink.new ≡ grown (S.written sink.old) (take k (journal_text (map (λ v. v.items) lists.now))))) }
    ensures failed { result ≡ Err WriteFault → Rose (S.faults sink.old) (S.faults sink.new) }
    ensures appends_only { OnlyAppends S.frame S.faults sink.old sink.new }
{
    for (worker, steps) in lists.iter().enumerate() {
        write_journal(alloc, worker as u32, steps.as_slice(), sink)?;
    }
    Ok(())
}
