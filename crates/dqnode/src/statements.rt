//! Statements: the leader of a cluster is found and runs one.

ghost use Rattle.std.specs.Prelude.{◌≡◌, ◌≤◌};
ghost use Rattle.dq_base.specs.Faults.{Rose};
ghost use Rattle.client.specs.Net.{HaveFailed};
ghost use Rattle.arguments.specs.Asking.{CanBeSent};
ghost use Rattle.dqnode.specs.Statements.{client_of, client_status, StatementEnds};
ghost use Rattle.dqnode.specs.Status.{status_code};

use crate::status::Status;
use arguments::Statement;
use client::{ClientCore, ClientEnd, ClientStatus, Dialer, run_client};
use dq_base::Sink;
use std::alloc::Global;

/// The status for how it ended for a client.
fn client_status(status: ClientStatus) -> Status
    ensures { result ≡ client_status status }
{
    match status {
        ClientStatus::Ended(ClientEnd::Result(_)) => Status::Done,
        ClientStatus::Ended(ClientEnd::Rows(_)) => Status::Done,
        ClientStatus::Ended(ClientEnd::Refused { .. }) => Status::Refused,
        ClientStatus::Ended(ClientEnd::NoLeader(_)) => Status::NoLeader,
        ClientStatus::Ended(ClientEnd::Unknown) => Status::Unknown,
        ClientStatus::WriteFault => Status::WriteFault,
        ClientStatus::NoMemory => Status::NoMemory,
    }
}

/// A client that has a statement run, before its first step.
fn client_of(alloc: Global, statement: Statement) -> ClientCore
    requires { CanBeSent statement }
    ensures { result ≡ client_of statement }
{
    let Statement {
        query,
        name,
        sql,
        addresses,
    } = statement;
    ClientCore::new(alloc, addresses.into_vec(), name, sql, query)
}

/// Finds the leader of a cluster, has it run a statement, and prints what came of it.
#[tactic(auto, using(crate::proofs::Asked::is_begun, crate::proofs::Asked::asked_so, crate::proofs::Asked::write_failed))]
pub(crate) fn ask<K: Sink, N: Dialer>(
    alloc: Global,
    statement: Statement,
    output: &mut K,
    dialer: &mut N,
) -> Status
    requires { CanBeSent statement }
    ensures ended { StatementEnds statement (N.net dialer.old) (N.net dialer.new) (K.written output.old) (K.written output.new) (status_code result) }
    ensures faults { HaveFailed (N.net dialer.old) (N.net dialer.new) }
    ensures write_fault { result ≡ Status.WriteFault → Rose (K.faults output.old) (K.faults output.new) }
    ensures count { K.faults output.old ≤ K.faults output.new }
{
    let client = client_of(alloc, statement);
    client_status(run_client(alloc, client, dialer, output))
}
