use dq_base::{Bytes, Failed};

/// A call on a dialer, and its answer.
#[derive(Drop)]
pub enum NetCall {
    /// An address was dialled: there is a new connection to it, or not.
    Dial { address: Bytes, is_linked: bool },
    /// Bytes were written on the connection, all of them or not.
    Write { bytes: Bytes, is_done: bool },
    /// These bytes were read, of which there are none at the connection's end; or the read failed.
    Read { bytes: Option<Bytes> },
}

/// What makes connections to addresses, one at a time.
///
/// It counts its faults, the addresses that it dialled and those that it could not; none of the counts falls. A call answers
/// `Failed` only if the count of faults rose in it. Its calls are described by those that know them, as one over memory.
pub trait Dialer {
    ghost use Rattle.client.specs.Net.{Net, Dials, Writes, Reads};

    /// Its counts, and its calls if they are known.
    ghost net: { Self → Net };

    /// Lets go of the connection and makes a new one to an address. It fails where 18,446,744,073,709,551,615 were made.
    fn dial(&mut self, address: &str) -> Result<(), Failed>
        ensures { Dials (net self.old) (net self.new) address.now result };

    /// Writes all of the bytes on the connection. After `Failed` some front of them may have been written.
    fn write_all(&mut self, bytes: &[u8]) -> Result<(), Failed>
        ensures { Writes (net self.old) (net self.new) bytes.now result };

    /// Reads some bytes of the connection into the buffer's front, and answers how many; 0, if the buffer has room, is the
    /// connection's end.
    fn read(&mut self, into: &mut [u8]) -> Result<usize, Failed>
        ensures { Reads (net self.old) (net self.new) into.new result };
}
