//! Configurations, as bytes: reading and writing the servers of a cluster.
ghost use Rattle.std.specs.Prelude.{◌≡◌, ◌≤◌, ◌++◌, ◌==◌, nat_lt, ℕ, List, [], Ok, IfOk, OnOk, length, take};
ghost use Rattle.std.specs.List.{AllByRecursion};
ghost use Rattle.raft_spec.specs.Node.{Server as ServerValue, voters};
ghost use Rattle.raft_messages.specs.Kinds.{role_number};
ghost use Rattle.raft_messages.specs.Servers.{IsConfiguration, IsServer, HoldsServer, WritesServers, server_bytes, each_bytes, servers_bytes, votes_as, last_from, has_room, joined, server_at, more_servers_at, servers_at, servers_of, GivesServers, FindsServers};

use crate::server::{Server, ServerRole, Servers};
use crate::servers_fault::ServersFault;
use crate::votes::MAX_VOTERS;
use std::alloc::{AllocError, Global};
use wire_words::{WireBytes, WireText, Words, Writer};

/// The most servers of a configuration.
pub const MAX_SERVERS: usize = 9;

/// The most bytes of a server's address.
pub const MAX_ADDRESS_LENGTH: usize = 255;

/// The id of the last server; 0 without one.
fn last_id(servers: &[Server]) -> u64
    ensures { result ≡ last_from 0 servers.now }
{
    let Some((last, _)) = servers.split_last() else {
        return 0;
    };
    last.id
}

/// 1 for a server that votes, else 0.
fn vote_of(server: &Server) -> usize
    ensures vote { result ≡ votes_as (server.now.role == 0) }
    ensures few { result ≤ 1 }
{
    if server.votes() { 1 } else { 0 }
}

/// How many of the servers vote.
pub fn voter_count(servers: &[Server]) -> usize
    ensures { result ≡ length (voters servers.now) }
{
    let mut count = 0;
    for server in servers {
        count += vote_of(server);
    }
    count
}

/// Whether one more server of this role may follow these.
fn has_room(servers: &[Server], role: ServerRole) -> bool
    ensures { result ≡ has_room servers.now (role_number role) }
{
    servers.len() < MAX_SERVERS && (!role.votes() || voter_count(servers) < MAX_VOTERS)
}

/// The server of these items, which begins at `at` and has its role at `role_at`, after these servers. The first fault
/// comes: `Order`, `Role`, `Limit`.
fn joined(
    before: &[Server],
    at: u64,
    role_at: u64,
    id: u64,
    address: WireText,
    role: u64,
) -> Result<Server, ServersFault>
    ensures { GivesServers (λ server. server) (joined before.now at role_at (record { id = id; address = address; role = role })) result }
{
    if id <= last_id(before) {
        return Err(ServersFault::Order(at));
    }
    let Some(role) = ServerRole::with_number(role) else {
        return Err(ServersFault::Role(role_at));
    };
    if !has_room(before, role) || is_long(&address) {
        return Err(ServersFault::Limit(at));
    }
    Ok(Server { id, address, role })
}

fn is_long(address: &WireText) -> bool
    ensures { result ≡ nat_lt 255 (length address.now) }
{
    address.as_str().len() > MAX_ADDRESS_LENGTH
}

/// The next server after these.
#[tactic(auto, unfolding(crate::specs::Servers::server_at))]
fn server(alloc: Global, words: &mut Words<'_>, before: &[Server]) -> Result<Server, ServersFault>
    ensures { FindsServers (λ server. server) (server_at before.now) words.old words.new result }
{
    let at = words.place();
    let id = words.u64()?;
    let address = words.text(alloc)?;
    let role_at = words.place();
    let role = words.u64()?;
    joined(before, at, role_at, id, address, role)
}

/// This many servers. There are at most ten looks at a server, whatever the count, since the tenth is a fault.
fn servers(alloc: Global, words: &mut Words<'_>, count: u64) -> Result<Vec<Server>, ServersFault>
    ensures { FindsServers (λ servers. servers.items) (more_servers_at [] count) words.old words.new result }
{
    let mut servers = Vec::new(alloc);
    for _ in 0..count {
        let server = server(alloc, words, &servers)?;
        servers.push(server)?;
    }
    Ok(servers)
}

#[tactic(auto, unfolding(crate::specs::Servers::servers_at))]
fn counted_servers(alloc: Global, words: &mut Words<'_>) -> Result<Vec<Server>, ServersFault>
    ensures { FindsServers (λ servers. servers.items) servers_at words.old words.new result }
{
    let count = words.u64()?;
    servers(alloc, words, count)
}

fn begun_servers(alloc: Global, bytes: &[u8]) -> Result<(Servers, u64), ServersFault>
    ensures { GivesServers (λ read. read) (servers_of bytes.now) result }
{
    let mut words = Words::new(bytes);
    let servers = counted_servers(alloc, &mut words)?;
    Ok((Servers::new(servers), words.place()))
}

/// Reads the configuration with which the bytes begin, and tells the place after it: a word with the number of servers,
/// and of each its id in a word, its address as a text, and its role in a word. The fault of the first faulty server
/// comes, and of one server the first of these: `Word` at an item that isn't there; `Order` at an id that is 0 or isn't
/// above the one before; `Role` at a role that isn't 0 to 2; `Limit`, with the place of the id, at the tenth server, the
/// eighth voter, or an address of more than 255 bytes. Bytes follow wherever the place isn't their end. `NoMemory` means
/// out of memory.
pub fn read_servers(alloc: Global, bytes: &[u8]) -> Result<(Servers, u64), ServersFault>
    // What is read is what the bytes up to the place encode.
    ensures found { IfOk result (λ read. WritesServers read.0 (take read.1 bytes.now)) }
    // What the bytes begin with is read, unless memory runs out.
    ensures only { (servers : List ServerValue) (spelled rest : List ℕ) → WritesServers servers spelled → bytes.now ≡ spelled ++ rest →
        GivesServers (λ read. read) (Ok (servers, length spelled)) result }
    // Which fault it is.
    ensures exact { GivesServers (λ read. read) (servers_of bytes.now) result }
{
    begun_servers(alloc, bytes)
}

fn put_server(out: &mut Writer, server: &Server) -> Result<(), AllocError>
    requires { IsServer server.now }
    ensures bytes { OnOk result (out.new ≡ out.old ++ server_bytes server.now) }
    ensures holds { OnOk result (HoldsServer server.now) }
{
    let address = server.address.as_str();
    out.word(server.id)?;
    out.text(address)?;
    out.word(server.role.number())
}

fn put_servers(out: &mut Writer, servers: &[Server]) -> Result<(), AllocError>
    requires { AllByRecursion IsServer servers.now }
    ensures bytes { OnOk result (out.new ≡ out.old ++ each_bytes servers.now) }
    ensures holds { OnOk result (AllByRecursion HoldsServer servers.now) }
{
    for server in servers {
        put_server(out, server)?;
    }
    Ok(())
}

fn put_configuration(out: &mut Writer, servers: &[Server]) -> Result<(), AllocError>
    requires { AllByRecursion IsServer servers.now }
    ensures bytes { OnOk result (out.new ≡ out.old ++ servers_bytes servers.now) }
    ensures holds { OnOk result (AllByRecursion HoldsServer servers.now) }
{
    out.word(servers.len() as u64)?;
    put_servers(out, servers)
}

/// Writes a configuration: its ids ascend from at least 1, no address holds a NUL or has more than 255 bytes, and there
/// are at most 9 servers with at most 7 voters.
pub fn write_servers(alloc: Global, servers: &[Server]) -> Result<WireBytes, AllocError>
    requires { IsConfiguration servers.now }
    // What is written encodes the configuration.
    ensures writes { IfOk result (WritesServers servers.now) }
    // Which bytes they are.
    ensures bytes { IfOk result (λ bytes. bytes ≡ servers_bytes servers.now) }
{
    let mut out = Writer::new(alloc);
    put_configuration(&mut out, servers)?;
    Ok(out.finish())
}
