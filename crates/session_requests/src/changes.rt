//! ADD, ASSIGN and REMOVE.

ghost use Rattle.std.specs.Prelude.{◌≡◌, ◌≤◌, ◌==◌, ◌&&◌, not, ℕ, List, [], length, nat_le, nat_lt, bytes_eq, IfOk};
ghost use Rattle.raft_spec.specs.Node.{among, voters};
ghost use Rattle.raft_messages.specs.Kinds.{role_number};
ghost use Rattle.database_state.specs.declared.database.Database.{Database};
ghost use Rattle.session_spec.specs.Asking as rules;
ghost use Rattle.session_spec.specs.Asking.{Asked};
ghost use Rattle.session_spec.specs.Servers as rule_servers;
ghost use Rattle.session_table.specs.Table.{AreApart, table_of};
ghost use Rattle.session_requests.specs.Meant.{meant, refused_by};
ghost use Rattle.session_requests.specs.Looking.{StandsAt};

use crate::cluster::{change_in_flight, copied_address, is_among, is_server, is_voter};
use crate::view::View;
use crate::wanted::RequestPlan;
use dq_base::Items;
use raft_messages::{
    MAX_ADDRESS_LENGTH, MAX_SERVERS, MAX_VOTERS, Server, ServerRole, Servers, voter_count,
};
use session_table::{Cause, ChangeReply, GREATEST_ID, Session};
use std::alloc::{AllocError, Global};
use wire_words::WireText;

/// Why ADD, ASSIGN and REMOVE are refused, whatever they want.
pub(crate) fn change_hindrance(view: &View, sessions: &[Session]) -> Option<Cause>
    requires { AreApart sessions.now }
    ensures { (databases : List Database) (weight : ℕ) (asked : Asked) →
        rules.at_leader view.now (rules.if_settled (table_of databases sessions.now weight) asked) ≡ refused_by result asked }
{
    if !view.serving {
        return Some(Cause::NotLeader);
    }
    if change_in_flight(sessions) {
        return Some(Cause::ChangeInFlight);
    }
    None
}

/// Whether a server of this id is in front of another one.
fn is_in_front(id: u64, server: &Server) -> bool
    ensures { result ≡ nat_lt id server.now.id }
{
    id < server.id
}

/// Where a server of this id stands among these, whose ids ascend.
fn place_of(servers: &[Server], id: u64) -> usize
    ensures { StandsAt id servers.now result }
{
    for (place, server) in servers.iter().enumerate() {
        if is_in_front(id, server) {
            return place;
        }
    }
    servers.len()
}

fn copied(alloc: Global, servers: &[Server]) -> Result<Vec<Server>, AllocError>
    ensures { IfOk result (λ copies. copies.items ≡ servers.now) }
{
    let mut copies = Vec::new(alloc);
    for server in servers {
        copies.push(server.copied(alloc)?)?;
    }
    Ok(copies)
}

/// The servers with a new one.
fn with_server(alloc: Global, servers: &[Server], new: Server) -> Result<Servers, AllocError>
    ensures { IfOk result (λ all. all ≡ rule_servers.with_server new servers.now) }
{
    let place = place_of(servers, new.id);
    let mut all = copied(alloc, servers)?;
    all.insert(place, new)?;
    Ok(Items::new(all))
}

/// Whether a server has an address.
fn is_at(server: &Server, address: &WireText) -> bool
    ensures { result ≡ bytes_eq address.now server.now.address }
{
    address.as_str() == server.address.as_str()
}

/// Whether some server has an address.
fn has_address(servers: &[Server], address: &WireText) -> bool
    ensures { result ≡ rule_servers.has_address servers.now address.now }
{
    servers.iter().any(|server| is_at(server, address))
}

/// Whether a server has the id or the address.
fn is_taken(servers: &[Server], id: u64, address: &WireText) -> bool
    ensures { result ≡ rules.is_taken servers.now id address.now }
{
    is_server(servers, id) || has_address(servers, address)
}

/// Whether a node can't join.
fn is_barred_node(servers: &[Server], id: u64, address: &WireText) -> bool
    ensures { result ≡ rules.is_barred_node servers.now id address.now }
{
    id == 0
        || id > GREATEST_ID
        || is_taken(servers, id, address)
        || address.as_str().len() > MAX_ADDRESS_LENGTH
        || servers.len() >= MAX_SERVERS
}

/// What ADD wants of a serving leader.
pub(crate) fn wanted_by_add(
    alloc: Global,
    view: &View,
    id: u64,
    address: &WireText,
) -> Result<RequestPlan, AllocError>
    ensures { IfOk result (λ wanted. meant [] wanted ≡ rules.asks_add view.now.servers id address.now) }
{
    let servers = view.servers.as_slice();
    if is_barred_node(servers, id, address) {
        return Ok(RequestPlan::Never(Cause::BadNode));
    }
    let new = Server {
        id,
        address: copied_address(alloc, address)?,
        role: ServerRole::Spare,
    };
    let joined = with_server(alloc, servers, new)?;
    Ok(RequestPlan::Changes(joined, ChangeReply::done()))
}

/// Whether a server isn't a voter yet, and is to be one.
fn is_promotion(servers: &[Server], id: u64, role: ServerRole) -> bool
    ensures { result ≡ rules.is_promotion servers.now id (role_number role) }
{
    role.votes() && !is_voter(servers, id)
}

fn in_role(alloc: Global, id: u64, role: ServerRole, server: &Server) -> Result<Server, AllocError>
    ensures { IfOk result (λ changed. changed ≡ rule_servers.in_role id (role_number role) server.now) }
{
    let mut changed = server.copied(alloc)?;
    if server.id == id {
        changed.role = role;
    }
    Ok(changed)
}

/// The servers with another role of one.
fn with_role(
    alloc: Global,
    servers: &[Server],
    id: u64,
    role: ServerRole,
) -> Result<Servers, AllocError>
    ensures { IfOk result (λ all. all ≡ rule_servers.with_role id (role_number role) servers.now) }
{
    let mut all = Vec::new(alloc);
    for server in servers {
        all.push(in_role(alloc, id, role, server)?)?;
    }
    Ok(Items::new(all))
}

/// Whether a server is to be a voter more than there may be.
fn is_one_voter_too_many(servers: &[Server], id: u64, role: ServerRole) -> bool
    ensures { result ≡ (rules.is_promotion servers.now id (role_number role) && nat_le 7 (length (voters servers.now))) }
{
    is_promotion(servers, id, role) && voter_count(servers) >= MAX_VOTERS
}

/// Whether a server is to be a voter that isn't caught up.
fn falls_short(view: &View, id: u64, role: ServerRole) -> bool
    ensures { result ≡ (rules.is_promotion view.now.servers id (role_number role) && not (among view.now.near id)) }
{
    is_promotion(view.servers.as_slice(), id, role) && !is_among(view.near.as_slice(), id)
}

/// Whether a server has an id, and is a spare.
fn is_spare_with(server: &Server, id: u64) -> bool
    ensures { result ≡ ((server.now.id == id) && (server.now.role == 2)) }
{
    server.id == id && server.role.number() == ServerRole::Spare.number()
}

/// Whether the server of an id is a spare.
fn is_spare(servers: &[Server], id: u64) -> bool
    ensures { result ≡ rule_servers.is_spare servers.now id }
{
    servers.iter().any(|server| is_spare_with(server, id))
}

/// What ASSIGN wants of a serving leader for a server that is to be a voter and isn't caught up.
fn wanted_to_catch_up(alloc: Global, view: &View, id: u64) -> Result<RequestPlan, AllocError>
    ensures { IfOk result (λ wanted. meant [] wanted ≡ rules.asks_to_catch_up view.now id) }
{
    let servers = view.servers.as_slice();
    if !is_spare(servers, id) {
        return Ok(RequestPlan::Never(Cause::TargetBehind));
    }
    let changed = with_role(alloc, servers, id, ServerRole::Standby)?;
    Ok(RequestPlan::Changes(changed, ChangeReply::short(alloc)?))
}

/// What ASSIGN wants of a serving leader for another server than this one.
fn wanted_by_role(
    alloc: Global,
    view: &View,
    id: u64,
    role: ServerRole,
) -> Result<RequestPlan, AllocError>
    ensures { IfOk result (λ wanted. meant [] wanted ≡ rules.asks_role view.now id (role_number role)) }
{
    let servers = view.servers.as_slice();
    if is_one_voter_too_many(servers, id, role) {
        return Ok(RequestPlan::Never(Cause::TooManyVoters));
    }
    if falls_short(view, id, role) {
        return wanted_to_catch_up(alloc, view, id);
    }
    let changed = with_role(alloc, servers, id, role)?;
    Ok(RequestPlan::Changes(changed, ChangeReply::done()))
}

/// Whether this node has an id.
fn is_this_node(view: &View, id: u64) -> bool
    ensures { result ≡ (id == view.now.id) }
{
    id == view.id
}

/// What ASSIGN wants of a serving leader.
pub(crate) fn wanted_by_assign(
    alloc: Global,
    view: &View,
    id: u64,
    role: u64,
) -> Result<RequestPlan, AllocError>
    ensures { IfOk result (λ wanted. meant [] wanted ≡ rules.asks_assign view.now id role) }
{
    if !is_server(view.servers.as_slice(), id) {
        return Ok(RequestPlan::Never(Cause::BadNode));
    }
    let Some(role) = ServerRole::with_number(role) else {
        return Ok(RequestPlan::Never(Cause::BadRole));
    };
    if is_this_node(view, id) {
        return Ok(RequestPlan::Never(Cause::TransferFirst));
    }
    wanted_by_role(alloc, view, id, role)
}

/// The servers without one.
fn without_server(alloc: Global, servers: &[Server], id: u64) -> Result<Servers, AllocError>
    ensures { IfOk result (λ rest. rest ≡ rule_servers.without_server id servers.now) }
{
    let mut rest = Vec::new(alloc);
    for server in servers {
        if server.id != id {
            rest.push(server.copied(alloc)?)?;
        }
    }
    Ok(Items::new(rest))
}

/// What REMOVE wants of a serving leader.
pub(crate) fn wanted_by_remove(
    alloc: Global,
    view: &View,
    id: u64,
) -> Result<RequestPlan, AllocError>
    ensures { IfOk result (λ wanted. meant [] wanted ≡ rules.asks_remove view.now id) }
{
    let servers = view.servers.as_slice();
    if !is_server(servers, id) {
        return Ok(RequestPlan::Never(Cause::BadNode));
    }
    if is_this_node(view, id) {
        return Ok(RequestPlan::Never(Cause::TransferFirst));
    }
    let rest = without_server(alloc, servers, id)?;
    Ok(RequestPlan::Changes(rest, ChangeReply::done()))
}
