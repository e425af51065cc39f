//! A client over a dialer.

ghost use Rattle.std.specs.Prelude.{◌≡◌, ◌≤◌, false, length, IfOk, OnOk, OnErr};
ghost use Rattle.client.specs.declared.events.ClientAction.TheVariants.{Done};
ghost use Rattle.client.specs.Running.{is_done, started, goes_on};
ghost use Rattle.client.specs.Net.{HaveFailed};
ghost use Rattle.client.specs.Driving.{IsBegun, Goes, Stops, Drives};

use crate::client::ClientCore;
use crate::dialer::Dialer;
use crate::events::{ClientAction, ClientEnd, ClientEvent};
use crate::link::{PIECE_SIZE, perform};
use dq_base::Bytes;
use std::alloc::{AllocError, Global};

/// A client, what it does next, and the bytes of a message that isn't there whole.
#[derive(Drop)]
pub(crate) struct Run {
    pub(crate) core: ClientCore,
    pub(crate) does: ClientAction,
    pub(crate) held: Bytes,
}

/// Whether a client has ended.
fn is_done(does: &ClientAction) -> bool
    ensures { result ≡ is_done does.now }
{
    match does {
        ClientAction::Done(_) => true,
        _ => false,
    }
}

impl Run {
    /// Something comes, or nothing yet.
    fn go_on(&mut self, came: Option<ClientEvent>) -> Result<(), AllocError>
        ensures { OnOk result (self.new ≡ goes_on self.old (came, self.old.held)) }
    {
        self.does = match came {
            Some(event) => self.core.step(&event)?,
            None => ClientAction::Wait,
        };
        Ok(())
    }

    /// Makes the call that the client names.
    fn advance<N: Dialer>(
        &mut self,
        alloc: Global,
        net: &mut N,
        piece: &mut [u8],
    ) -> Result<(), AllocError>
        requires going { is_done self.old.does ≡ false }
        requires room { 4096 ≤ length piece.old }
        ensures ok { OnOk result (Goes (N.net net.old) self.old (N.net net.new) self.new) }
        ensures err { OnErr result (Stops (N.net net.old) self.old (N.net net.new)) }
    {
        let came = perform(alloc, net, &self.does, piece, &mut self.held)?;
        self.go_on(came)
    }

    /// The end that the client has come to. `Err` where it hasn't.
    fn into_end(self) -> Result<ClientEnd, AllocError>
        ensures { IfOk result (λ end. self.does ≡ Done end) }
    {
        let Run { does, .. } = self;
        match does {
            ClientAction::Done(end) => Ok(end),
            _ => Err(AllocError),
        }
    }
}

/// Has a client begin.
fn begin(alloc: Global, core: ClientCore) -> Result<Run, AllocError>
    ensures { IfOk result (λ run. run ≡ started core) }
{
    let mut core = core;
    let does = core.step(&ClientEvent::Begin)?;
    Ok(Run {
        core,
        does,
        held: Bytes::new(Vec::new(alloc)),
    })
}

/// Drives a client to its end, with a piece of memory for what is read.
fn drive_over<N: Dialer>(
    alloc: Global,
    core: ClientCore,
    net: &mut N,
    piece: &mut [u8],
) -> Result<ClientEnd, AllocError>
    requires begun { IsBegun core }
    requires room { 4096 ≤ length piece.old }
    ensures run { Drives (N.net net.old) (started core) (N.net net.new) result }
    ensures faults { HaveFailed (N.net net.old) (N.net net.new) }
{
    let mut run = begin(alloc, core)?;
    'calls: for _ in 0..u64::MAX {
        if is_done(&run.does) {
            break;
        }
        run.advance(alloc, net, piece)?;
    }
    run.into_end()
}

/// Has a client that hasn't begun do over a dialer what it names, until it ends. `Err` means out of memory, as it is
/// if the end isn't there after 18,446,744,073,709,551,615 calls. It holds 4,096 bytes for what it reads, and the bytes of the
/// message that comes.
#[tactic(auto, using(crate::proofs::Driven::unmoved, crate::proofs::Failing::none_failed))]
pub fn drive<N: Dialer>(
    alloc: Global,
    core: ClientCore,
    net: &mut N,
) -> Result<ClientEnd, AllocError>
    requires { IsBegun core }
    ensures run { Drives (N.net net.old) (started core) (N.net net.new) result }
    ensures faults { HaveFailed (N.net net.old) (N.net net.new) }
{
    let mut piece = vec![in alloc; 0; PIECE_SIZE]?;
    drive_over(alloc, core, net, piece.as_mut_slice())
}
