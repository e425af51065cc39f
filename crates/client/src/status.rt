//! A client over a dialer, and what is printed of its end.

ghost use Rattle.std.specs.Prelude.{◌≡◌, ◌≤◌};
ghost use Rattle.dq_base.specs.Faults.{Rose};
ghost use Rattle.client.specs.Net.{HaveFailed};
ghost use Rattle.client.specs.Running.{started};
ghost use Rattle.client.specs.Driving.{IsBegun};
ghost use Rattle.client.specs.Status.{HasRun, HasPrinted, IsOf};

use crate::client::ClientCore;
use crate::dialer::Dialer;
use crate::events::ClientEnd;
use crate::printing::text_of;
use crate::run::drive;
use dq_base::Sink;
use std::alloc::Global;

/// How it ended for a client over a dialer.
#[derive(Drop)]
pub enum ClientStatus {
    /// It ended with this end, and what is printed of it was printed.
    Ended(ClientEnd),
    /// The sink failed. A front of what is printed of the end may have been printed.
    WriteFault,
    /// Memory ran out, and nothing was printed.
    NoMemory,
}

/// Prints an end, all at once.
#[tactic(auto, using(crate::proofs::Told::unprinted))]
fn print<K: Sink>(alloc: Global, end: ClientEnd, sink: &mut K) -> ClientStatus
    ensures printed { HasPrinted (K.written sink.old) (K.written sink.new) result }
    ensures end { IsOf end result }
    ensures count { K.faults sink.old ≤ K.faults sink.new }
    ensures cause { result ≡ ClientStatus.WriteFault → Rose (K.faults sink.old) (K.faults sink.new) }
{
    let Ok(text) = text_of(alloc, &end) else {
        return ClientStatus::NoMemory;
    };
    match sink.write_all(text.as_slice()) {
        Ok(()) => ClientStatus::Ended(end),
        Err(_) => ClientStatus::WriteFault,
    }
}

/// Has a client that hasn't begun do over a dialer what it names, until it ends, and prints that.
///
/// Of a number of changed rows `result N` is printed; of rows a line with the names of their columns and a line for each, with a
/// tab between the values; of a refusal `failure CODE TEXT`; and nothing of the other ends. An integer is printed in decimal,
/// NULL as `NULL`, a blob as `x'` with its bytes in hexadecimal and `'`, and a text, as a column's name, as it is but that
/// a backslash, a tab, an LF and a CR are printed as `\\`, `\t`, `\n` and `\r`. All is printed at once, when the client has come
/// to its end. It holds the whole answer, and the text that is printed of it.
#[tactic(auto, using(crate::proofs::Told::unprinted, crate::proofs::Told::told_as))]
pub fn run_client<N: Dialer, K: Sink>(
    alloc: Global,
    core: ClientCore,
    net: &mut N,
    sink: &mut K,
) -> ClientStatus
    requires { IsBegun core }
    ensures run { HasRun (N.net net.old) (started core) (N.net net.new) result }
    ensures faults { HaveFailed (N.net net.old) (N.net net.new) }
    ensures printed { HasPrinted (K.written sink.old) (K.written sink.new) result }
    ensures count { K.faults sink.old ≤ K.faults sink.new }
    ensures cause { result ≡ ClientStatus.WriteFault → Rose (K.faults sink.old) (K.faults sink.new) }
{
    match drive(alloc, core, net) {
        Ok(end) => print(alloc, end, sink),
        Err(_) => ClientStatus::NoMemory,
    }
}
