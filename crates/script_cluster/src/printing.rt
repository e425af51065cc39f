//! The line that is printed of what a cluster says.

ghost use Rattle.std.specs.Prelude.{◌≡◌, IfOk, string_bytes};
ghost use Rattle.script_cluster.specs.Kinds.{role_name};
ghost use Rattle.script_cluster.specs.Printed.{standing_text, printed_line};

use crate::cluster_line::ClusterLine;
use raft_core::RaftRole;
use std::alloc::{AllocError, Global};

/// The name of a role.
fn role_name(role: RaftRole) -> &'static str
    ensures { result.now ≡ role_name role }
{
    match role {
        RaftRole::Leader => "leader",
        RaftRole::Candidate => "candidate",
        RaftRole::Follower => "follower",
    }
}

/// How a node stands, after its number, with the LF.
fn standing_text(
    alloc: Global,
    term: u64,
    role: RaftRole,
    applied: u64,
    digest: &[u8; 32],
) -> Result<String, AllocError>
    ensures { IfOk result (λ text. string_bytes text ≡ standing_text term role applied digest.now) }
{
    let role = role_name(role);
    let digits = hex::encode(alloc, digest)?;
    format!(in alloc; " term {term} role {role} applied {applied} files {digits}\n")
}

/// The line that is printed for what was said, with its LF.
pub fn line_for(alloc: Global, said: &ClusterLine) -> Result<String, AllocError>
    ensures { IfOk result (λ line. string_bytes line ≡ printed_line said.now) }
{
    match said {
        ClusterLine::Reply { connection, bytes } => {
            let digits = hex::encode(alloc, bytes.as_slice())?;
            format!(in alloc; "reply {connection} {digits}\n")
        }
        ClusterLine::Closed { connection, reason } => {
            format!(in alloc; "closed {connection} {reason}\n")
        }
        ClusterLine::Message {
            number,
            from,
            to,
            kind,
        } => {
            let kind = kind.name();
            format!(in alloc; "message {number} {from} {to} {kind}\n")
        }
        ClusterLine::Stopped { node } => format!(in alloc; "stopped {node}\n"),
        ClusterLine::Down { node, cause } => {
            let cause = cause.number();
            format!(in alloc; "down {node} {cause}\n")
        }
        ClusterLine::Node {
            node,
            term,
            role,
            applied,
            digest,
        } => {
            let standing = standing_text(alloc, *term, *role, *applied, digest)?;
            format!(in alloc; "node {node}{standing}")
        }
        ClusterLine::NodeDown { node } => format!(in alloc; "node {node} down\n"),
    }
}
