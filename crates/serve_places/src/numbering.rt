//! The numbers of connections.

ghost use Rattle.std.specs.Prelude.{◌≡◌, ◌<◌, get_or, length, set, IfOk, IfSome};
ghost use Rattle.serve_places.specs.Numbers.{AreFresh, FreesSocket, GivesNumberIfAny};

use crate::limits::{MAX_CONNECTIONS, MAX_SOCKETS};
use std::alloc::{AllocError, Global};
use std::marker::Model;

/// The number of the connection at each socket, 0 for none; and the number that is given next, from 1 on.
#[derive(Drop)]
pub(crate) struct Numbering {
    places: Vec<u64>,
    next: u64,
}

impl Model for Numbering {
    ghost use Rattle.serve_places.specs.Numbers.{Numbers};

    ghost Value = { Numbers };

    ghost view = { λ a. record { next = a.next; places = a.places.items } };
}

impl Numbering {
    /// There is no connection.
    pub(crate) fn new(alloc: Global) -> Result<Numbering, AllocError>
        ensures { IfOk result AreFresh }
    {
        let places = vec![in alloc; 0u64; MAX_SOCKETS]?;
        Ok(Numbering { places, next: 1 })
    }

    /// The number of the connection at a socket, 0 if it has no connection.
    pub(crate) fn at(&self, socket: usize) -> u64
        ensures { result ≡ get_or self.now.places socket 0 }
    {
        match self.places.get(socket) {
            Some(number) => *number,
            None => 0,
        }
    }

    /// How many connections there are.
    pub(crate) fn count(&self) -> usize {
        self.places.iter().filter(|number| **number != 0).count()
    }

    /// The socket of a connection.
    pub(crate) fn socket_of(&self, number: u64) -> Option<usize> {
        self.places.iter().position(|other| *other == number)
    }

    /// Gives the next number to a socket without a connection, if there are fewer than 72.
    pub(crate) fn give(&mut self, socket: usize) -> Option<u64>
        ensures { GivesNumberIfAny self.old self.new socket result }
    {
        if socket >= self.places.len() || self.places[socket] != 0 {
            return None;
        }
        if self.count() >= MAX_CONNECTIONS {
            return None;
        }
        let number = self.next;
        let next = number.checked_add(1)?;
        self.places[socket] = number;
        self.next = next;
        Some(number)
    }

    /// There is no connection at the socket any more.
    pub(crate) fn free(&mut self, socket: usize)
        ensures { FreesSocket self.old self.new socket }
    {
        if socket < self.places.len() {
            self.places[socket] = 0;
        }
    }
}
