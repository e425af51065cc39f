//! A client's dialer over the operating system's TCP sockets.

ghost use Rattle.std.specs.Prelude.{◌≡◌, ◌≤◌, ◌+◌, true, false, length, IfOk};
ghost use Rattle.dq_base.specs.Faults.{one_more, last_count};
ghost use Rattle.serve_sockets.specs.Untold.{net_of};

use crate::stream::{connect, read_some, write_whole};
use client::Dialer;
use dq_base::Failed;
use std::io;
use std::io::ErrorKind;
use std::marker::Model;
use std::net::{Net, OpenStream};
use std::time::Duration;

/// How long a read or a write may take, in seconds.
const CALL_SECONDS: u64 = 60;

/// A dialer over the operating system's TCP sockets, with one connection at a time.
///
/// An address is a name or an IP address, a colon and a port, as `localhost:9001`. A dial tries each address that the name has, in
/// their order, for at most ten seconds each; how long the name is looked up is up to the system. A read or a write takes at
/// most sixty seconds, and has failed past that. A message is written at once, in one write, and goes out at once. An
/// interrupted call is tried again, up to 1,000 times. A call without a connection fails.
///
/// It reports its counts and not its calls: what comes on a connection is up to who sends. Its count of faults rises at each call that
/// fails, and stays at 18,446,744,073,709,551,615.
#[derive(Drop)]
pub struct TcpDialer<R: Net + Drop> {
    rt: R,
    link: Option<R::Stream>,
    faults: u64,
    dialled: u64,
    undialled: u64,
}

impl<R: Net + Drop> Model for TcpDialer<R> {
    ghost use Rattle.serve_sockets.specs.Untold.{Counts};

    ghost Value = { Counts };

    ghost view = { λ a. record { faults = a.faults; dialled = a.dialled; undialled = a.undialled } };
}

/// A stream to an address, over which a message goes out as soon as it is written, and no call takes longer than it may.
fn open<R: Net>(rt: &R, address: &str) -> io::Result<R::Stream> {
    let stream = connect(rt, address)?;
    prepare(&stream)?;
    Ok(stream)
}

fn prepare<S: OpenStream>(stream: &S) -> io::Result<()> {
    let time = Some(Duration::from_secs(CALL_SECONDS));
    stream.set_nodelay(true)?;
    stream.set_read_timeout(time)?;
    stream.set_write_timeout(time)
}

impl<R: Net + Drop> TcpDialer<R> {
    /// A dialer that has no connection and made no call.
    pub fn new(rt: R) -> TcpDialer<R>
        ensures { result ≡ record { faults = 0; dialled = 0; undialled = 0 } }
    {
        TcpDialer {
            rt,
            link: None,
            faults: 0,
            dialled: 0,
            undialled: 0,
        }
    }

    /// Counts a call that failed.
    fn fail(&mut self) -> Failed
        ensures count { self.new ≡ record self.old { faults = one_more self.old.faults } }
        ensures never_falls { self.old.faults ≤ self.new.faults }
    {
        self.faults = self.faults.saturating_add(1);
        Failed
    }

    /// Lets go of the connection, and makes a new one.
    fn relink(&mut self, address: &str) -> io::Result<()>
        ensures { self.new ≡ self.old }
    {
        self.link = None;
        self.link = Some(open(&self.rt, address)?);
        Ok(())
    }

    /// Makes a new connection, if one more can be counted, and counts it.
    fn link_to(&mut self, address: &str) -> bool
        ensures linked { result ≡ true → self.new ≡ record self.old { dialled = self.old.dialled + 1 } }
        ensures unlinked { result ≡ false → self.new ≡ self.old }
        ensures bound { self.new.dialled ≤ last_count }
    {
        let Some(dialled) = self.dialled.checked_add(1) else {
            return false;
        };
        if self.relink(address).is_err() {
            return false;
        }
        self.dialled = dialled;
        true
    }

    /// Counts a dial that failed.
    fn miss(&mut self) -> Failed
        ensures counts { self.new ≡ record self.old { faults = one_more self.old.faults; undialled = one_more self.old.undialled } }
        ensures never_falls { self.old.faults ≤ self.new.faults }
    {
        self.undialled = self.undialled.saturating_add(1);
        self.fail()
    }

    /// Writes bytes on the connection.
    fn write(&mut self, bytes: &[u8]) -> io::Result<()>
        ensures { self.new ≡ self.old }
    {
        match &mut self.link {
            Some(link) => write_whole(link, bytes),
            None => Err(ErrorKind::NotConnected.into()),
        }
    }

    /// Reads some bytes of the connection.
    fn read_link(&mut self, into: &mut [u8]) -> io::Result<usize>
        ensures same { self.new ≡ self.old }
        ensures fits { IfOk result (λ count. count ≤ length into.new) }
    {
        match &mut self.link {
            Some(link) => read_some(link, into),
            None => Err(ErrorKind::NotConnected.into()),
        }
    }
}

impl<R: Net + Drop> Dialer for TcpDialer<R> {
    ghost net = { net_of };

    fn dial(&mut self, address: &str) -> Result<(), Failed> {
        if self.link_to(address) {
            return Ok(());
        }
        Err(self.miss())
    }

    fn write_all(&mut self, bytes: &[u8]) -> Result<(), Failed> {
        match self.write(bytes) {
            Ok(()) => Ok(()),
            Err(_) => Err(self.fail()),
        }
    }

    fn read(&mut self, into: &mut [u8]) -> Result<usize, Failed> {
        match self.read_link(into) {
            Ok(count) => Ok(count),
            Err(_) => Err(self.fail()),
        }
    }
}
