ghost use Rattle.std.specs.Prelude.{◌≡◌, ◌≤◌, length, IfOk, OnOk, OnErr};
ghost use Rattle.disk_model.specs.Disk.{found, missing};
ghost use Rattle.disk_model.specs.Calls.{put};
ghost use Rattle.disk_model.specs.Memory.{done_to, half_of, shown};
ghost use Rattle.disk_model.specs.Fronts.{SameFront};

use crate::open_calls::UnsyncedEffect;
use std::alloc::{AllocError, Global};
use std::marker::Model;

/// A file over memory: whether it is there, and its bytes.
#[derive(Drop)]
pub struct Stored {
    there: bool,
    bytes: Vec<u8>,
}

impl Model for Stored {
    ghost use Rattle.disk_model.specs.Disk.{Found};

    ghost Value = { Found };

    ghost view = { λ a. record { there = a.there; bytes = a.bytes.items } };
}

/// Writes bytes over others from a place on, and past their end.
fn put(bytes: &mut Vec<u8>, at: usize, new: &[u8]) -> Result<(), AllocError>
    ensures ok { OnOk result (bytes.new.items ≡ put at new.now bytes.old.items) }
    ensures err { OnErr result (bytes.new.items ≡ bytes.old.items) }
{
    let at = at.min(bytes.len());
    let over = new.len().min(bytes.len() - at);
    bytes.extend_from_slice(&new[over..])?;
    bytes[at..at + over].copy_from_slice(&new[..over]);
    Ok(())
}

impl Stored {
    /// A file that isn't there.
    pub(crate) fn missing(alloc: Global) -> Stored
        ensures { result ≡ missing }
    {
        Stored {
            there: false,
            bytes: Vec::new(alloc),
        }
    }

    /// A copy.
    pub(crate) fn try_clone(&self, alloc: Global) -> Result<Stored, AllocError>
        ensures { IfOk result (λ copy. copy ≡ self.now) }
    {
        let mut bytes = Vec::new(alloc);
        bytes.extend_from_slice(self.bytes.as_slice())?;
        Ok(Stored {
            there: self.there,
            bytes,
        })
    }

    /// A copy of what shows: nothing if the file isn't there.
    pub(crate) fn shown(&self, alloc: Global) -> Result<Stored, AllocError>
        ensures { IfOk result (λ copy. copy ≡ shown self.now) }
    {
        if self.there {
            self.try_clone(alloc)
        } else {
            Ok(Stored::missing(alloc))
        }
    }

    pub(crate) fn is_there(&self) -> bool
        ensures { result ≡ self.now.there }
    {
        self.there
    }

    pub(crate) fn bytes(&self) -> &[u8]
        ensures { result.now ≡ self.now.bytes }
    {
        self.bytes.as_slice()
    }

    /// Takes the bytes of another file, of which this many at the front are there. Copies the others.
    #[tactic(auto, using(crate::proofs::Fronts::followed))]
    pub(crate) fn follow(&mut self, other: &Stored, same: usize) -> Result<(), AllocError>
        requires { SameFront same other.now.bytes self.old.bytes }
        ensures ok { OnOk result (self.new ≡ record { there = self.old.there; bytes = other.now.bytes }) }
        ensures err { OnErr result (self.new ≡ self.old) }
    {
        let bytes = other.bytes.as_slice();
        put(&mut self.bytes, same, &bytes[same..])?;
        self.bytes.truncate(bytes.len());
        Ok(())
    }

    /// The file is there, with its bytes.
    pub(crate) fn appear(&mut self)
        ensures { self.new ≡ found self.old.bytes }
    {
        self.there = true;
    }

    /// The file is gone, with its bytes, whose room is given back.
    pub(crate) fn vanish(&mut self, alloc: Global)
        ensures { self.new ≡ missing }
    {
        self.there = false;
        self.bytes = Vec::new(alloc);
    }

    fn write(&mut self, at: usize, bytes: &[u8]) -> Result<(), AllocError>
        ensures ok { OnOk result (self.new ≡ record { there = self.old.there; bytes = put at bytes.now self.old.bytes }) }
        ensures err { OnErr result (self.new ≡ self.old) }
    {
        put(&mut self.bytes, at, bytes)
    }

    fn create(&mut self, bytes: &[u8]) -> Result<(), AllocError>
        ensures ok { OnOk result (self.new ≡ found (put 0 bytes.now self.old.bytes)) }
        ensures err { OnErr result (self.new ≡ self.old) }
    {
        put(&mut self.bytes, 0, bytes)?;
        self.there = true;
        Ok(())
    }

    /// Does what a call does to its file.
    pub(crate) fn take(&mut self, effect: &UnsyncedEffect) -> Result<(), AllocError>
        ensures ok { OnOk result (self.new ≡ done_to effect.now self.old) }
        ensures err { OnErr result (self.new ≡ self.old) }
    {
        match effect {
            UnsyncedEffect::Creation { bytes } => self.create(bytes.as_slice()),
            UnsyncedEffect::Naming => {
                self.there = true;
                Ok(())
            }
            UnsyncedEffect::Write { at, bytes } => self.write(*at as usize, bytes.as_slice()),
            UnsyncedEffect::Truncation { length } => {
                self.bytes.truncate(*length as usize);
                Ok(())
            }
            UnsyncedEffect::Removal => {
                self.there = false;
                Ok(())
            }
            UnsyncedEffect::Nothing => Ok(()),
        }
    }

    /// Does half of what a call does to its file: a write writes the first half of its bytes, rounded down, and
    /// nothing else is done by halves.
    pub(crate) fn take_half(&mut self, effect: &UnsyncedEffect) -> Result<(), AllocError>
        ensures ok { OnOk result (self.new ≡ done_to (half_of effect.now) self.old) }
        ensures err { OnErr result (self.new ≡ self.old) }
    {
        match effect {
            UnsyncedEffect::Creation { bytes } => {
                let bytes = bytes.as_slice();
                self.create(&bytes[..bytes.len() / 2])
            }
            UnsyncedEffect::Write { at, bytes } => {
                let bytes = bytes.as_slice();
                self.write(*at as usize, &bytes[..bytes.len() / 2])
            }
            _ => Ok(()),
        }
    }
}
