//! Serving: a node over sockets.

ghost use Rattle.std.specs.Prelude.{◌≡◌, ◌≤◌, ◌⊎◌, ◌+◌, []};
ghost use Rattle.dq_base.specs.Faults.{Rose};
ghost use Rattle.arguments.specs.Serving.{IsServable};
ghost use Rattle.sqlite_engine.specs.Any.{any_kind, any_known};
ghost use Rattle.serve_node.specs.Rules.{GoesWell};
ghost use Rattle.dqnode.specs.Serving.{serve_status, WasServed};
ghost use Rattle.dqnode.specs.Status.{IsServeCode, status_code};

use crate::status::Status;
use arguments::Serve;
use disk_model::Disk;
use serve_node::{Notes, ServeEnd, serve};
use serve_threads::Host;
use session_gateway::Read;
use sql_engine::{CellEngine, EngineKind};
use sqlite_engine::{AnyEngine, SqliteEngine};
use std::alloc::Global;

/// An engine of a kind, which knows no image.
fn engine_of(alloc: Global, kind: EngineKind) -> AnyEngine
    ensures is_new { any_known result ≡ [] }
    ensures kind { any_kind result ≡ kind }
{
    match kind {
        EngineKind::Sqlite => AnyEngine::Sqlite(SqliteEngine::new(alloc)),
        EngineKind::Cells => AnyEngine::Cells(CellEngine::new(alloc)),
    }
}

/// The status for the end of a served node.
fn status_of(end: ServeEnd) -> Status
    ensures { result ≡ serve_status end }
{
    match end {
        ServeEnd::Files => Status::Files,
        ServeEnd::DiskFault => Status::DiskFault,
        ServeEnd::HostFault => Status::HostFault,
        ServeEnd::NoMemory => Status::NoMemory,
        ServeEnd::Internal => Status::Internal,
        ServeEnd::Spent => Status::Spent,
    }
}

/// Serves the node that the arguments name, over the disk.
pub(crate) fn serve_node<D: Disk, H: Host<Read>, W: Notes>(
    alloc: Global,
    words: Serve,
    disk: &mut D,
    host: &mut H,
    notes: &mut W,
) -> Status
    requires { IsServable words }
    ensures served { WasServed D.tells D.states D.faults H.done words host.old disk.old disk.new (record { left = H.left host.old; count = H.taken host.old })
        (record { left = H.left host.new; count = H.taken host.new }) (status_code result) }
    ensures codes { IsServeCode (status_code result) }
    ensures disk_fault { result ≡ Status.DiskFault → Rose (D.faults disk.old) (D.faults disk.new) }
    ensures host_fault { result ≡ Status.HostFault → Rose (H.faults host.old) (H.faults host.new) }
    ensures spent { result ≡ Status.Spent → H.taken host.new ≡ H.taken host.old + words.events }
    ensures count { D.faults disk.old ≤ D.faults disk.new }
    ensures ends_well { GoesWell (D.states disk.old) (D.faults disk.old) (D.faults disk.new) (H.faults host.old) (H.faults host.new) →
        (status_code result ≡ 10) ⊎ (status_code result ≡ 7) ⊎ (status_code result ≡ 15) }
{
    let mut engine = engine_of(alloc, words.engine);
    status_of(serve(alloc, &words, host, disk, &mut engine, notes))
}
