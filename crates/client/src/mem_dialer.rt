ghost use Rattle.std.specs.Prelude.{◌≡◌, ◌≢◌, ◌<◌, ◌≤◌, ◌↔◌, ◌++◌, ◌∷◌, ◌==◌, ◌||◌, [], Some, None, true, false, min, take, drop, length, get_or, IsErr, IsTrue, MatchOption, IfOk, OnOk, OnErr};
ghost use Rattle.dq_base.specs.Calls.{no_calls, next_fails};
ghost use Rattle.dq_base.specs.Faults.{HasCause, last_count, one_more};
ghost use Rattle.client.specs.declared.dialer.NetCall.TheVariants as net_calls;
ghost use Rattle.client.specs.Memory.{net_of, Notes};
ghost use Rattle.client.specs.Net.{Dials, Writes, Reads, Tells, read_bytes, succeeded};

use crate::dialer::{Dialer, NetCall};
use dq_base::{Bytes, Calls, Failed, Items, MemSource, Source};
use std::alloc::{AllocError, Global};
use std::marker::Model;
use std::mem;

/// A dialer over memory. Each address that it dials answers the next of the given bytes, whatever is written. Some of its calls
/// may be made to fail; a dial that finds no answer left fails, and so does a call for whose place in the list of calls memory
/// runs out, from which on the list isn't told.
#[derive(Drop)]
pub struct MemDialer {
    alloc: Global,
    answers: Vec<Bytes>,
    link: MemSource,
    calls: Calls,
    dialled: u64,
    undialled: u64,
    told: Option<Items<NetCall>>,
}

impl Model for MemDialer {
    ghost use Rattle.client.specs.Memory.{Linked};

    ghost Value = { Linked };

    ghost view = { λ a. record { answers = a.answers.items; left = a.link.bytes; calls = a.calls; dialled = a.dialled; undialled = a.undialled; told = a.told } };
}

/// A connection on which these bytes come.
fn link_of(alloc: Global, bytes: Bytes) -> MemSource
    ensures { result.bytes ≡ bytes }
{
    MemSource::new(bytes.into_vec(), Vec::new(alloc))
}

/// A copy of bytes.
fn copied(alloc: Global, bytes: &[u8]) -> Result<Bytes, AllocError>
    ensures { IfOk result (λ copy. copy ≡ bytes.now) }
{
    Ok(Bytes::new(Vec::from_slice(alloc, bytes)?))
}

/// Notes a call after those that are told, and says whether that succeeded: if memory runs out, they aren't told from now on.
fn note(told: &mut Option<Items<NetCall>>, call: NetCall) -> bool
    ensures { Notes told.old told.new call result }
{
    let Some(calls) = mem::replace(told, None) else {
        return true;
    };
    let mut calls = calls.into_vec();
    if calls.push(call).is_err() {
        return false;
    }
    *told = Some(Items::new(calls));
    true
}

/// Notes a dial.
fn note_dial(
    alloc: Global,
    told: &mut Option<Items<NetCall>>,
    address: &[u8],
    is_linked: bool,
) -> bool
    ensures { Notes told.old told.new (NetCall.Dial address.now is_linked) result }
{
    let Ok(address) = copied(alloc, address) else {
        *told = None;
        return false;
    };
    note(told, NetCall::Dial { address, is_linked })
}

/// Notes a write.
fn note_write(alloc: Global, told: &mut Option<Items<NetCall>>, bytes: &[u8], is_done: bool) -> bool
    ensures { Notes told.old told.new (NetCall.Write bytes.now is_done) result }
{
    let Ok(bytes) = copied(alloc, bytes) else {
        *told = None;
        return false;
    };
    note(told, NetCall::Write { bytes, is_done })
}

/// Notes a read that moved these bytes.
fn note_read(alloc: Global, told: &mut Option<Items<NetCall>>, bytes: &[u8]) -> bool
    ensures { Notes told.old told.new (NetCall.Read (Some bytes.now)) result }
{
    let Ok(bytes) = copied(alloc, bytes) else {
        *told = None;
        return false;
    };
    note(told, NetCall::Read { bytes: Some(bytes) })
}

/// Whether no dial can succeed: no answer is left, or the count of dials is at its last value.
fn is_over(left: usize, dialled: u64) -> bool
    ensures left { result ≡ false → 0 < left }
    ensures room { result ≡ false → dialled < last_count }
{
    if left == 0 {
        return true;
    }
    dialled == u64::MAX
}

/// Starts a call, which also fails if this is so.
fn start(calls: &mut Calls, is_over: bool) -> Result<(), Failed>
    ensures cause { HasCause calls.old.faults calls.new.faults result }
    ensures failing { IsTrue (next_fails calls.old) → IsErr result }
    ensures over { OnOk result (is_over ≡ false) }
{
    calls.start()?;
    if is_over {
        return Err(calls.fail());
    }
    Ok(())
}

/// Dials an address, or not.
#[tactic(auto, using(crate::proofs::Noting::note_tells, crate::proofs::Noting::dropped))]
fn dial(
    alloc: Global,
    calls: &mut Calls,
    told: &mut Option<Items<NetCall>>,
    address: &[u8],
    is_over: bool,
) -> Result<(), Failed>
    ensures cause { HasCause calls.old.faults calls.new.faults result }
    ensures told { Tells told.old told.new (NetCall.Dial address.now (succeeded result)) }
    ensures failing { IsTrue (next_fails calls.old) → IsErr result }
    ensures over { OnOk result (is_over ≡ false) }
{
    match start(calls, is_over) {
        Ok(()) => {
            if note_dial(alloc, told, address, true) {
                return Ok(());
            }
            Err(calls.fail())
        }
        Err(failed) => {
            note_dial(alloc, told, address, false);
            Err(failed)
        }
    }
}

/// Writes bytes, or not.
#[tactic(auto, using(crate::proofs::Noting::note_tells, crate::proofs::Noting::dropped))]
fn write(
    alloc: Global,
    calls: &mut Calls,
    told: &mut Option<Items<NetCall>>,
    bytes: &[u8],
) -> Result<(), Failed>
    ensures cause { HasCause calls.old.faults calls.new.faults result }
    ensures told { Tells told.old told.new (NetCall.Write bytes.now (succeeded result)) }
    ensures failing { IsTrue (next_fails calls.old) → IsErr result }
{
    match calls.start() {
        Ok(()) => {
            if note_write(alloc, told, bytes, true) {
                return Ok(());
            }
            Err(calls.fail())
        }
        Err(failed) => {
            note_write(alloc, told, bytes, false);
            Err(failed)
        }
    }
}

/// Notes a read that failed.
#[tactic(auto, using(crate::proofs::Noting::note_tells))]
fn note_failure(told: &mut Option<Items<NetCall>>)
    ensures { Tells told.old told.new (NetCall.Read None) }
{
    note(told, NetCall::Read { bytes: None });
}

/// Moves bytes of a connection that is there, and notes it.
#[tactic(auto, using(crate::proofs::Noting::note_tells, crate::proofs::Noting::dropped))]
fn read(
    alloc: Global,
    calls: &mut Calls,
    told: &mut Option<Items<NetCall>>,
    link: &mut MemSource,
    into: &mut [u8],
) -> Result<usize, Failed>
    ensures cause { HasCause calls.old.faults calls.new.faults result }
    ensures told { Tells told.old told.new (NetCall.Read (read_bytes into.new result)) }
    ensures fits { IfOk result (λ n. n ≤ length into.new) }
    ensures moved { IfOk result (λ n. link.new.bytes ≡ drop n link.old.bytes) }
    ensures failing { IsTrue (next_fails calls.old) → IsErr result }
{
    if calls.start().is_err() {
        note_failure(told);
        return Err(Failed);
    }
    let Ok(count) = link.read(into) else {
        note_failure(told);
        return Err(calls.fail());
    };
    if note_read(alloc, told, &into[..count]) {
        return Ok(count);
    }
    Err(calls.fail())
}

impl MemDialer {
    /// A dialer that answers these bytes, one after the other. `fails` lists the numbers, from 1, of the calls that are to fail.
    /// It takes memory from `alloc` as it notes its calls, and none here.
    pub fn new(alloc: Global, answers: Vec<Bytes>, fails: Vec<u64>) -> MemDialer
        ensures { result ≡ record { answers = answers.items; left = []; calls = no_calls fails.items; dialled = 0; undialled = 0; told = Some [] } }
    {
        MemDialer {
            alloc,
            answers,
            link: link_of(alloc, Bytes::new(Vec::new(alloc))),
            calls: Calls::new(fails),
            dialled: 0,
            undialled: 0,
            told: Some(Items::new(Vec::new(alloc))),
        }
    }

    /// The calls so far and their answers, if they are known.
    pub fn calls(&self) -> Option<&[NetCall]>
        ensures { MatchOption result (self.now.told ≡ None) (λ calls. self.now.told ≡ Some calls.now) }
    {
        match &self.told {
            Some(calls) => Some(calls.as_slice()),
            None => None,
        }
    }
}

impl Dialer for MemDialer {
    ghost net = { λ dialer. net_of dialer };

    /// It fails if the call is one that is to fail, if no answer is left, and if memory runs out. Else the next of the
    /// answers is what comes on the new connection.
    fn dial(&mut self, address: &str) -> Result<(), Failed>
        ensures net { Dials (net_of self.old) (net_of self.new) address.now result }
        ensures failing { IsTrue (next_fails self.old.calls) → IsErr result }
        ensures ok { OnOk result (self.old.answers ≡ self.new.left ∷ self.new.answers) }
        ensures err { OnErr result (self.new.answers ≡ self.old.answers) }
    {
        let is_over = is_over(self.answers.len(), self.dialled);
        let address = address.as_bytes();
        match dial(
            self.alloc,
            &mut self.calls,
            &mut self.told,
            address,
            is_over,
        ) {
            Ok(()) => {
                let bytes = self.answers.remove(0);
                self.link = link_of(self.alloc, bytes);
                self.dialled += 1;
                Ok(())
            }
            Err(failed) => {
                self.link = link_of(self.alloc, Bytes::new(Vec::new(self.alloc)));
                self.undialled = self.undialled.saturating_add(1);
                Err(failed)
            }
        }
    }

    /// It writes nowhere. It fails if the call is one that is to fail, and if memory runs out.
    fn write_all(&mut self, bytes: &[u8]) -> Result<(), Failed>
        ensures net { Writes (net_of self.old) (net_of self.new) bytes.now result }
        ensures failing { IsTrue (next_fails self.old.calls) → IsErr result }
        ensures kept { self.new.answers ≡ self.old.answers }
        ensures left { self.new.left ≡ self.old.left }
    {
        write(self.alloc, &mut self.calls, &mut self.told, bytes)
    }

    /// Moves as many bytes as are left and fit. It fails if the call is one that is to fail, and if memory runs out.
    fn read(&mut self, into: &mut [u8]) -> Result<usize, Failed>
        ensures net { Reads (net_of self.old) (net_of self.new) into.new result }
        ensures failing { IsTrue (next_fails self.old.calls) → IsErr result }
        ensures moved { IfOk result (λ n. self.new.left ≡ drop n self.old.left) }
        ensures kept { self.new.answers ≡ self.old.answers }
    {
        read(
            self.alloc,
            &mut self.calls,
            &mut self.told,
            &mut self.link,
            into,
        )
    }
}
