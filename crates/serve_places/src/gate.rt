//! Who speaks on a connection, by its first bytes, and which peers are taken.

ghost use Rattle.std.specs.Prelude.{◌≡◌, ◌≢◌, ◌≤◌, ◌+◌, ◌*◌, true, take, length};
ghost use Rattle.serve_places.specs.Gate.{greeting_size, has_greeting, MaySpeak, SpeaksAsPeer};
ghost use Rattle.serve_places.specs.declared.gate.Speaker.TheVariants as speaker;

use crate::inflow::{CONNECT, FRONT_SIZE, words_in};
use crate::limits::MAX_GREETING_BYTES;
use peer_secret::is_same;
use std::alloc::Global;
use wire_words::WireBytes;

/// Who speaks on a socket.
#[derive(Clone, Copy, Debug, PartialEq, Eq)]
pub(crate) enum Speaker {
    /// Its first bytes are not all there.
    Unknown,
    /// A client.
    Client,
    /// The node of this id.
    Peer(u64),
    /// One whose CONNECT is not taken.
    Stranger,
}

/// Which CONNECTs are taken: any, or these alone, each with the version before it.
#[derive(Drop)]
pub(crate) struct Gate {
    is_guarded: bool,
    greetings: Vec<WireBytes>,
}

/// How many bytes the version and the first message have.
fn greeting_size(front: &[u8]) -> u64
    requires { 16 ≤ length front.now }
    ensures { result ≡ greeting_size front.now }
{
    16 + 8 * words_in(&front[8..])
}

/// How many bytes say who speaks: the version and a header, or the version and a CONNECT. Of a CONNECT that is too long to be taken the
/// header is enough.
fn needed_size(front: &[u8]) -> u64
    requires { 16 ≤ length front.now }
{
    if front[12] != CONNECT {
        return FRONT_SIZE as u64;
    }
    let size = greeting_size(front);
    if size > MAX_GREETING_BYTES {
        FRONT_SIZE as u64
    } else {
        size
    }
}

/// Whether all bytes are there that say who speaks.
pub(crate) fn has_front(front: &[u8]) -> bool
    ensures { result ≡ true → 16 ≤ length front.now }
{
    front.len() >= FRONT_SIZE && front.len() as u64 >= needed_size(front)
}

/// The id that a CONNECT names, if it has one that a node may have.
fn id_in(greeting: &[u8]) -> Option<u64> {
    match greeting {
        [
            _,
            _,
            _,
            _,
            _,
            _,
            _,
            _,
            _,
            _,
            _,
            _,
            _,
            _,
            _,
            _,
            id,
            0,
            0,
            0,
            0,
            0,
            0,
            0,
            ..
        ] if *id >= 1 && *id <= 9 => { Some(*id as u64) }
        _ => None,
    }
}

impl Gate {
    /// Any CONNECT is taken.
    pub(crate) fn open(alloc: Global) -> Gate {
        Gate {
            is_guarded: false,
            greetings: Vec::new(alloc),
        }
    }

    /// These CONNECTs are taken, each with the version before it.
    pub(crate) fn guarded(greetings: Vec<WireBytes>) -> Gate {
        Gate {
            is_guarded: true,
            greetings,
        }
    }

    /// Who speaks on a connection that begins with these bytes. If only some CONNECTs are taken, a node that speaks has said one of them.
    pub(crate) fn speaker(&self, front: &[u8]) -> Speaker
        ensures front { result ≢ speaker.Unknown → 16 ≤ length front.now }
        ensures right { MaySpeak self.now.is_guarded self.now.greetings.items front.now result }
    {
        if !has_front(front) {
            return Speaker::Unknown;
        }
        if front[12] != CONNECT {
            return Speaker::Client;
        }
        let size = greeting_size(front);
        if size > front.len() as u64 {
            return Speaker::Stranger;
        }
        self.greeter(&front[..size as usize])
    }

    /// Who says this CONNECT, with the version before it.
    fn greeter(&self, greeting: &[u8]) -> Speaker
        ensures known { result ≢ speaker.Unknown }
        ensures right { SpeaksAsPeer self.now.is_guarded self.now.greetings.items greeting.now result }
    {
        if self.is_guarded && !self.has(greeting) {
            return Speaker::Stranger;
        }
        match id_in(greeting) {
            Some(id) => Speaker::Peer(id),
            None if self.is_guarded => Speaker::Stranger,
            None => Speaker::Client,
        }
    }

    /// Whether a CONNECT is one of those that are taken.
    fn has(&self, greeting: &[u8]) -> bool
        ensures { result ≡ has_greeting self.now.greetings.items greeting.now }
    {
        self.greetings
            .iter()
            .any(|right| is_same(right.as_slice(), greeting))
    }
}
