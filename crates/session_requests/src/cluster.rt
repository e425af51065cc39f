//! Requests about the cluster and its servers, except for those that change
//! these.

ghost use Rattle.std.specs.Prelude.{◌≡◌, ◌==◌, ℕ, List, [], map, Some, None, IfOk};
ghost use Rattle.std.specs.List.{list_any};
ghost use Rattle.raft_spec.specs.Node.{Server as RuleServer, among, voters};
ghost use Rattle.database_state.specs.declared.database.Database.{Database};
ghost use Rattle.session_spec.specs.Asking as rules;
ghost use Rattle.session_spec.specs.Limits as limits;
ghost use Rattle.session_spec.specs.Servers.{server_of};
ghost use Rattle.session_table.specs.Named.{kind_named};
ghost use Rattle.session_table.specs.Table.{AreApart, table_of};
ghost use Rattle.session_requests.specs.Meant.{meant};
ghost use Rattle.session_requests.specs.Looking.{is_changing, votes_as};

use crate::view::View;
use crate::wanted::{ClusterEffect, RequestPlan};
use dq_base::Items;
use raft_messages::Server;
use session_table::{Cause, GREATEST_ID, ProposalKind, Session};
use std::alloc::{AllocError, Global};
use wire_msgs::{NodeInfo, Response};
use wire_words::WireText;

pub(crate) fn copied_address(alloc: Global, address: &WireText) -> Result<WireText, AllocError>
    ensures { IfOk result (λ copy. copy ≡ address.now) }
{
    Ok(WireText::new(String::from_str(alloc, address.as_str())?))
}

/// A server as the leader.
fn told_leader(alloc: Global, server: &Server) -> Result<Response, AllocError>
    ensures { IfOk result (λ response. response ≡ rules.told_leader (Some server.now)) }
{
    Ok(Response::Server {
        id: server.id,
        address: copied_address(alloc, &server.address)?,
    })
}

/// That no leader is known.
fn no_leader(alloc: Global) -> Response
    ensures { result ≡ rules.told_leader None }
{
    Response::Server {
        id: 0,
        address: WireText::new(String::new(alloc)),
    }
}

/// Whether a server has an id.
fn has_id(server: &Server, id: u64) -> bool
    ensures { result ≡ (server.now.id == id) }
{
    server.id == id
}

/// The server of an id as the leader, or that none is known.
fn leader_among(alloc: Global, servers: &[Server], id: u64) -> Result<Response, AllocError>
    ensures { IfOk result (λ response. response ≡ rules.told_leader (server_of servers.now id)) }
{
    for server in servers {
        if has_id(server, id) {
            return told_leader(alloc, server);
        }
    }
    Ok(no_leader(alloc))
}

/// The leader that a node knows, or that it knows none.
fn leader_known(
    alloc: Global,
    servers: &[Server],
    leader: Option<u64>,
) -> Result<Response, AllocError>
    ensures { IfOk result (λ response. response ≡ rules.leader_known servers.now leader) }
{
    match leader {
        Some(id) => leader_among(alloc, servers, id),
        None => Ok(no_leader(alloc)),
    }
}

/// What LEADER wants.
pub(crate) fn wanted_by_leader(alloc: Global, view: &View) -> Result<RequestPlan, AllocError>
    ensures { IfOk result (λ wanted. meant [] wanted ≡ rules.Tells (rules.leader_known view.now.servers view.now.leader)) }
{
    let response = leader_known(alloc, view.servers.as_slice(), view.leader)?;
    Ok(RequestPlan::Tells(response))
}

/// What DESCRIBE wants in a format.
pub(crate) fn wanted_by_describe(weight: u64, format: u64) -> RequestPlan
    ensures { meant [] result ≡ rules.asks_describe weight format }
{
    if format == 0 {
        RequestPlan::Tells(Response::Metadata {
            failure_domain: 0,
            weight,
        })
    } else {
        RequestPlan::Never(Cause::BadFormat)
    }
}

/// A server as it is sent, with its role or not.
fn info_of(alloc: Global, roles: bool, server: &Server) -> Result<NodeInfo, AllocError>
    ensures { IfOk result (λ info. info ≡ rules.info_of roles server.now) }
{
    let role = if roles {
        Some(server.role.number())
    } else {
        None
    };
    Ok(NodeInfo {
        id: server.id,
        address: copied_address(alloc, &server.address)?,
        role,
    })
}

fn infos_of(alloc: Global, roles: bool, servers: &[Server]) -> Result<Vec<NodeInfo>, AllocError>
    ensures { IfOk result (λ infos. infos.items ≡ map (rules.info_of roles) servers.now) }
{
    let mut infos = Vec::new(alloc);
    for server in servers {
        infos.push(info_of(alloc, roles, server)?)?;
    }
    Ok(infos)
}

/// What CLUSTER wants in a format.
pub(crate) fn wanted_by_cluster(
    alloc: Global,
    view: &View,
    format: u64,
) -> Result<RequestPlan, AllocError>
    ensures { IfOk result (λ wanted. meant [] wanted ≡ rules.asks_cluster view.now format) }
{
    if format > 1 {
        return Ok(RequestPlan::Never(Cause::BadFormat));
    }
    let infos = infos_of(alloc, format == 1, view.servers.as_slice())?;
    Ok(RequestPlan::Tells(Response::Servers {
        servers: Items::new(infos),
    }))
}

/// Whether a server has an id.
pub(crate) fn is_server(servers: &[Server], id: u64) -> bool
    ensures { result ≡ list_any (λ (server : RuleServer). server.id == id) servers.now }
{
    servers.iter().any(|server| server.id == id)
}

/// Whether an id is that of another node. The configuration may lack it.
fn is_other_node(view: &View, id: u64) -> bool
    ensures { result ≡ rules.is_other_node view.now id }
{
    id != view.id && 0 < id && id <= GREATEST_ID
}

/// What CONNECT wants of a node.
pub(crate) fn wanted_by_connect(view: &View, id: u64) -> RequestPlan
    ensures { meant [] result ≡ rules.asks_connect view.now id }
{
    if view.links && is_other_node(view, id) {
        RequestPlan::Sets(ClusterEffect::JoinsPeer(id))
    } else {
        RequestPlan::Never(Cause::BadNode)
    }
}

/// Whether a server has an id, and votes.
fn votes_as(server: &Server, id: u64) -> bool
    ensures { result ≡ votes_as id server.now }
{
    server.votes() && server.id == id
}

/// Whether a node is a voter.
pub(crate) fn is_voter(servers: &[Server], id: u64) -> bool
    ensures { result ≡ among (voters servers.now) id }
{
    for server in servers {
        if votes_as(server, id) {
            return true;
        }
    }
    false
}

/// Whether a peer is one of these.
pub(crate) fn is_among(peers: &[u64], id: u64) -> bool
    ensures { result ≡ among peers.now id }
{
    peers.iter().any(|peer| *peer == id)
}

/// Whether a node is this one, or its log is known to reach the leader's last index.
fn may_take_over(view: &View, id: u64) -> bool
    ensures { result ≡ rules.may_take_over view.now id }
{
    id == view.id || is_among(view.even.as_slice(), id)
}

/// What TRANSFER wants of a serving leader.
pub(crate) fn wanted_by_transfer(view: &View, id: u64) -> RequestPlan
    ensures { meant [] result ≡ rules.asks_transfer view.now id }
{
    if !is_voter(view.servers.as_slice(), id) {
        RequestPlan::Never(Cause::BadNode)
    } else if may_take_over(view, id) {
        RequestPlan::Sets(ClusterEffect::HandsOver(id))
    } else {
        RequestPlan::Never(Cause::TargetBehind)
    }
}

/// Whether a proposal changes the servers of the cluster.
fn is_change(kind: &ProposalKind) -> bool
    ensures { result ≡ limits.configures (kind_named kind.now) }
{
    match kind {
        ProposalKind::Configuring { .. } => true,
        ProposalKind::Opening { .. }
        | ProposalKind::Writing { .. }
        | ProposalKind::Committing { .. }
        | ProposalKind::Querying { .. } => false,
    }
}

/// Whether a session's change of the cluster is pending.
fn is_changing(session: &Session) -> bool
    ensures { result ≡ is_changing session.now }
{
    match &session.flight {
        Some(flight) => is_change(&flight.kind),
        None => false,
    }
}

/// Whether some session's change of the cluster is pending.
pub(crate) fn change_in_flight(sessions: &[Session]) -> bool
    requires { AreApart sessions.now }
    ensures { (databases : List Database) (weight : ℕ) → result ≡ limits.change_in_flight (table_of databases sessions.now weight) }
{
    for session in sessions {
        if is_changing(session) {
            return true;
        }
    }
    false
}
