//! Scripts: one is run, over whole nodes or over machines.

ghost use Rattle.std.specs.Prelude.{◌≡◌, ◌≤◌};
ghost use Rattle.dq_base.specs.Faults.{Rose};
ghost use Rattle.dqnode.specs.Program.{RunsSafely};
ghost use Rattle.dqnode.specs.Status.{OutcomeEnds, ScriptEnds, IsScriptCode, status_code, status_for};

use crate::status::Status;
use dq_base::{Sink, Source};
use script_cluster::ClusterJournal;
use script_runner::{Outcome, run_script};
use script_whole_nodes::{CellChoice, EngineChoice, SqliteChoice, WholePlace};
use sql_engine::EngineKind;
use std::alloc::Global;

/// The status for how running a script ended.
pub(crate) fn status_for(outcome: Outcome) -> Status
    ensures { result ≡ status_for outcome }
{
    match outcome {
        Outcome::Done => Status::Done,
        Outcome::Script(_) => Status::Script,
        Outcome::Large => Status::Large,
        Outcome::ReadFault => Status::ReadFault,
        Outcome::WriteFault => Status::WriteFault,
        Outcome::NoMemory => Status::NoMemory,
        Outcome::Internal => Status::Internal,
    }
}

/// Runs a script over whole nodes, with the engine of a choice at each, or over machines.
fn run_at<C: EngineChoice, S: Source, K: Sink>(
    alloc: Global,
    input: &mut S,
    output: &mut K,
    journal: &mut ClusterJournal,
) -> Outcome
    ensures ended { OutcomeEnds C.kind journal.new result (S.left input.old) (S.left input.new) (K.written output.old) (K.written output.new) }
    ensures read_fault { result ≡ Outcome.ReadFault → Rose (S.faults input.old) (S.faults input.new) }
    ensures write_fault { result ≡ Outcome.WriteFault → Rose (K.faults output.old) (K.faults output.new) }
    ensures input_count { S.faults input.old ≤ S.faults input.new }
    ensures output_count { K.faults output.old ≤ K.faults output.new }
{
    run_script(alloc, WholePlace::<C>::new(alloc), input, output, journal)
}

/// Runs a script over whole nodes, with an engine of a kind at each, or over machines.
pub(crate) fn run_over<S: Source, K: Sink>(
    alloc: Global,
    engine: EngineKind,
    input: &mut S,
    output: &mut K,
    journal: &mut ClusterJournal,
) -> Outcome
    ensures ended { OutcomeEnds engine journal.new result (S.left input.old) (S.left input.new) (K.written output.old) (K.written output.new) }
    ensures read_fault { result ≡ Outcome.ReadFault → Rose (S.faults input.old) (S.faults input.new) }
    ensures write_fault { result ≡ Outcome.WriteFault → Rose (K.faults output.old) (K.faults output.new) }
    ensures input_count { S.faults input.old ≤ S.faults input.new }
    ensures output_count { K.faults output.old ≤ K.faults output.new }
{
    match engine {
        EngineKind::Sqlite => run_at::<SqliteChoice, S, K>(alloc, input, output, journal),
        EngineKind::Cells => run_at::<CellChoice, S, K>(alloc, input, output, journal),
    }
}

/// Runs the script that the input gives, with an engine of a kind at each node, and leaves the journal of its run.
pub(crate) fn script<S: Source, K: Sink>(
    alloc: Global,
    engine: EngineKind,
    input: &mut S,
    output: &mut K,
    journal: &mut ClusterJournal,
) -> Status
    ensures ended { ScriptEnds engine journal.new result (S.left input.old) (S.left input.new) (K.written output.old) (K.written output.new) }
    ensures safe { RunsSafely engine journal.new (S.left input.old) (S.left input.new) (K.written output.old) (K.written output.new) }
    ensures read_fault { result ≡ Status.ReadFault → Rose (S.faults input.old) (S.faults input.new) }
    ensures write_fault { result ≡ Status.WriteFault → Rose (K.faults output.old) (K.faults output.new) }
    ensures codes { IsScriptCode (status_code result) }
    ensures input_count { S.faults input.old ≤ S.faults input.new }
    ensures output_count { K.faults output.old ≤ K.faults output.new }
{
    status_for(run_over(alloc, engine, input, output, journal))
}
