//! The connections of clients.

ghost use Rattle.std.specs.Prelude.{◌≡◌, false, [], map, IfOk, OnOk, OnErr};
ghost use Rattle.std.specs.BTreeMap.{is_at};
ghost use Rattle.std.specs.Map.{lookup};
ghost use Rattle.std.specs.Ordering.{nat_cmp};
ghost use Rattle.script_cluster.specs.World.{without, without_each, open_at};
ghost use Rattle.script_cluster.specs.Seen.{link_of};

use std::alloc::{AllocError, Global};
use std::collections::BTreeMap;
use std::marker::Model;

/// To which node a connection leads, and whether it is open.
#[derive(Clone, Copy)]
pub(crate) struct Endpoint {
    pub(crate) node: u64,
    pub(crate) is_open: bool,
}

impl Endpoint {
    ghost use Rattle.script_cluster.specs.Seen.{open_node};

    /// The node to which it leads, if it is open.
    fn open_node(self) -> Option<u64>
        ensures { result ≡ open_node self }
    {
        if self.is_open { Some(self.node) } else { None }
    }
}

impl Endpoint {
    ghost use Rattle.std.specs.Prelude.{◌==◌, ◌&&◌};

    /// Whether it leads to this node and is open.
    fn is_open_at(self, node: u64) -> bool
        ensures { result ≡ ((self.node == node) && self.is_open) }
    {
        self.node == node && self.is_open
    }
}

/// All connections that were ever made, by their numbers.
#[derive(Drop)]
pub(crate) struct Connections {
    alloc: Global,
    links: BTreeMap<u64, Endpoint>,
}

impl Model for Connections {
    ghost use Rattle.std.specs.Prelude.{List, map};
    ghost use Rattle.script_cluster.specs.World.{Link};
    ghost use Rattle.script_cluster.specs.Seen.{link_of};

    ghost Value = { List Link };

    ghost view = { λ c. map link_of c.links.entries };
}

/// The connection of a number, if it was made.
fn found(links: &BTreeMap<u64, Endpoint>, number: u64) -> Option<Endpoint>
    ensures { result ≡ lookup (is_at (nat_cmp number)) links.now.entries }
{
    links.get(&number).copied()
}

/// A connection is closed, if it was made.
fn shut(links: &mut BTreeMap<u64, Endpoint>, number: u64)
    ensures { map link_of links.new.entries ≡ without (map link_of links.old.entries) number }
{
    if let Some(link) = links.get_mut(&number) {
        link.is_open = false;
    }
}

/// Connections are closed, if they were made.
fn shut_each(links: &mut BTreeMap<u64, Endpoint>, numbers: &[u64])
    ensures { map link_of links.new.entries ≡ without_each (map link_of links.old.entries) numbers.now }
{
    for number in numbers {
        shut(links, *number);
    }
}

#[tactic(auto, using(crate::proofs::Linking::open_joins, crate::proofs::Linking::open_skips))]
/// The numbers of the open connections of a node, ascending.
fn open_at(
    alloc: Global,
    links: &BTreeMap<u64, Endpoint>,
    node: u64,
) -> Result<Vec<u64>, AllocError>
    ensures { IfOk result (λ numbers. numbers.items ≡ open_at (map link_of links.now.entries) node) }
{
    let mut numbers = Vec::new(alloc);
    for (number, link) in links.iter() {
        if link.is_open_at(node) {
            numbers.push(*number)?;
        }
    }
    Ok(numbers)
}

impl Connections {
    ghost use Rattle.script_cluster.specs.World.{is_known, node_of, with_link, without_node};

    /// None.
    pub(crate) fn new(alloc: Global) -> Connections
        ensures { result ≡ [] }
    {
        Connections {
            alloc,
            links: BTreeMap::new(alloc),
        }
    }

    /// Whether a connection of this number was ever made.
    pub(crate) fn is_known(&self, number: u64) -> bool
        ensures { result ≡ is_known self.now number }
    {
        found(&self.links, number).is_some()
    }

    #[tactic(auto, using(crate::proofs::Linking::node_found, crate::proofs::Linking::node_missing))]
    /// The node of an open connection.
    pub(crate) fn node_of(&self, number: u64) -> Option<u64>
        ensures { result ≡ node_of self.now number }
    {
        match found(&self.links, number) {
            Some(link) => link.open_node(),
            None => None,
        }
    }

    /// A connection of a new number is made. `Err` means out of memory, and changes
    /// nothing.
    pub(crate) fn make(&mut self, number: u64, node: u64, is_open: bool) -> Result<(), AllocError>
        requires { is_known self.old number ≡ false }
        ensures made { OnOk result (self.new ≡ with_link (record { conn = number; node = node; open_now = is_open }) self.old) }
        ensures same { OnErr result (self.new ≡ self.old) }
    {
        self.links.insert(number, Endpoint { node, is_open })?;
        Ok(())
    }

    /// A connection is closed, if it was made.
    pub(crate) fn close(&mut self, number: u64)
        ensures { self.new ≡ without self.old number }
    {
        shut(&mut self.links, number);
    }

    /// The open connections of a node close: answers their numbers, ascending. `Err` means out of memory, and changes
    /// nothing.
    pub(crate) fn close_at(&mut self, node: u64) -> Result<Vec<u64>, AllocError>
        ensures numbers { IfOk result (λ closed. closed.items ≡ open_at self.old node) }
        ensures closed { OnOk result (self.new ≡ without_node self.old node) }
        ensures same { OnErr result (self.new ≡ self.old) }
    {
        let numbers = open_at(self.alloc, &self.links, node)?;
        shut_each(&mut self.links, numbers.as_slice());
        Ok(numbers)
    }
}
