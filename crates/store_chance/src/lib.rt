//! When a torn block of metadata has a valid checksum by chance. Nothing here runs: each law is the promise of an empty
//! function.
#![tactic(auto)]

ghost use Rattle.store_chance.specs.Chance.{PicksLeaveThree, ChecksSuffice, ChecksAreChance, WholeWritesAreFair};

pub mod refusals;

/// After a crash in the write of a block of metadata over an older one, a disk in memory has the old block, the new one
/// or their torn one. If a check of what is found says no, no metadata was found by chance. It says yes only if the old
/// block's sum is that of the torn block. If a crash keeps a batch whole, which was written after whole batches, no batch
/// was found by chance, whatever the bytes in the batches are.
pub fn torn_metadata()
    ensures three { PicksLeaveThree }
    ensures suffices { ChecksSuffice }
    ensures chance { ChecksAreChance }
    ensures whole { WholeWritesAreFair }
{}
