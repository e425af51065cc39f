//! Prints what was said.

ghost use Rattle.std.specs.Prelude.{◌≡◌, ◌≤◌, OnOk, OnErr, Err};
ghost use Rattle.std.specs.Io.KnownBytes.{Appends};
ghost use Rattle.dq_base.specs.Faults.{Rose};
ghost use Rattle.dq_base.specs.Sink.{AppendsFront};
ghost use Rattle.script_cluster.specs.Printed.{printed as nodes_text};
ghost use Rattle.script_machines.specs.Printed.{printed as machines_text};
ghost use Rattle.script_runner.specs.Run.{text_of};
ghost use Rattle.script_runner.specs.Scenes.{said_in};

use crate::said::LineSaid;
use dq_base::{Failed, Sink};
use script_cluster::ClusterLine as NodeSaid;
use script_machines::MachineLine as MachineSaid;
use std::alloc::{AllocError, Global};

/// Why something could not be printed.
#[derive(Clone, Copy)]
pub(crate) enum PrintFault {
    /// The sink failed.
    Sink,
    /// There is not enough memory.
    NoMemory,
}

impl From<Failed> for PrintFault {
    ghost use Rattle.std.specs.Prelude.{◌≡◌};
    ghost use Rattle.script_runner.specs.declared.printing.PrintFault.TheVariants.{Sink};

    ghost from_gives = { λ _ e. e ≡ Sink };

    fn from(_failed: Failed) -> PrintFault {
        PrintFault::Sink
    }
}

impl From<AllocError> for PrintFault {
    ghost use Rattle.std.specs.Prelude.{◌≡◌};
    ghost use Rattle.script_runner.specs.declared.printing.PrintFault.TheVariants.{NoMemory};

    ghost from_gives = { λ _ e. e ≡ NoMemory };

    fn from(_error: AllocError) -> PrintFault {
        PrintFault::NoMemory
    }
}

/// Prints a line for each thing that nodes said, in order. After `Err` a front of their text is printed.
fn print_nodes<K: Sink>(alloc: Global, said: &[NodeSaid], sink: &mut K) -> Result<(), PrintFault>
    ensures ok { OnOk result (Appends (K.written sink.old) (K.written sink.new) (nodes_text said.now)) }
    ensures err { OnErr result (AppendsFront (K.written sink.old) (K.written sink.new) (nodes_text said.now)) }
    ensures count { K.faults sink.old ≤ K.faults sink.new }
    ensures cause { result ≡ Err PrintFault.Sink → Rose (K.faults sink.old) (K.faults sink.new) }
{
    for say in said {
        let line = script_cluster::line_for(alloc, say)?;
        sink.write_all(line.as_bytes())?;
    }
    Ok(())
}

/// Prints what state machines say.
fn print_machines<K: Sink>(
    alloc: Global,
    said: &[MachineSaid],
    sink: &mut K,
) -> Result<(), PrintFault>
    ensures ok { OnOk result (Appends (K.written sink.old) (K.written sink.new) (machines_text said.now)) }
    ensures err { OnErr result (AppendsFront (K.written sink.old) (K.written sink.new) (machines_text said.now)) }
    ensures count { K.faults sink.old ≤ K.faults sink.new }
    ensures cause { result ≡ Err PrintFault.Sink → Rose (K.faults sink.old) (K.faults sink.new) }
{
    for say in said {
        let line = script_machines::line_for(alloc, say)?;
        sink.write_all(line.as_bytes())?;
    }
    Ok(())
}

/// Prints what was said by a line of a script. After `Err` a front of its text is printed.
#[tactic(auto, using(crate::proofs::Printed::nodes_printed, crate::proofs::Printed::machines_printed))]
pub(crate) fn print<K: Sink>(alloc: Global, said: &LineSaid, sink: &mut K) -> Result<(), PrintFault>
    ensures ok { OnOk result (Appends (K.written sink.old) (K.written sink.new) (text_of (said_in said.now))) }
    ensures err { OnErr result (AppendsFront (K.written sink.old) (K.written sink.new) (text_of (said_in said.now))) }
    ensures count { K.faults sink.old ≤ K.faults sink.new }
    ensures cause { result ≡ Err PrintFault.Sink → Rose (K.faults sink.old) (K.faults sink.new) }
{
    match said {
        LineSaid::Nodes(said) => print_nodes(alloc, said.as_slice(), sink),
        LineSaid::Machines(said) => print_machines(alloc, said.as_slice(), sink),
    }
}
