ghost use Rattle.std.specs.Prelude.{◌≡◌, ◌<◌, OnOk};
ghost use Rattle.store_format.specs.NodeFormat.{node_format};
ghost use Rattle.store_format.specs.SegmentLog.{none_read, reads_whole, damage_before, with_segment, FitsNumber};

use crate::log::BatchLog;
use crate::segment::take_segment;
use std::alloc::{AllocError, Global};
use std::marker::Model;

/// Where a segment is damaged.
#[derive(Clone, Copy, Debug, PartialEq, Eq)]
pub struct Damage {
    /// The number of the segment.
    pub segment: u64,
    /// The place in it from which nothing reads.
    pub at: u64,
}

/// The last segment that was read.
#[derive(Clone, Copy, Debug, PartialEq, Eq)]
pub struct LastSegment {
    /// Its number.
    pub number: u64,
    /// How many bytes it has.
    pub size: u64,
    /// How many of them read: those up to the end of its whole batches, and none if its first word says no format.
    pub good: u64,
}

impl LastSegment {
    /// Whether it reads to its end.
    pub fn reads_whole(&self) -> bool
        ensures { result ≡ reads_whole self.now }
    {
        self.good > 0 && self.good == self.size
    }
}

/// What is read of the segments, one after another: the log that their batches make, whether there was any batch, the
/// first damage, and the last segment.
#[derive(Drop)]
pub struct SegmentLog {
    alloc: Global,
    log: BatchLog,
    has_batches: bool,
    damage: Option<Damage>,
    last: Option<LastSegment>,
}

impl Model for SegmentLog {
    ghost use Rattle.store_format.specs.SegmentLog.{SegmentsRead, FitsNumber};

    ghost Value = { SegmentsRead };

    ghost view = { λ s. record { log = s.log; any = s.has_batches; damage = s.damage; last = s.last } };

    // Numbers have sixteen digits.
    ghost invariant = { λ s. FitsNumber s.last };
}

// The first damage, once another segment follows the last one.
fn damage_before(damage: Option<Damage>, last: Option<LastSegment>) -> Option<Damage>
    ensures { result ≡ damage_before damage last }
{
    match (damage, last) {
        (None, Some(last)) if !last.reads_whole() => Some(Damage {
            segment: last.number,
            at: last.good,
        }),
        _ => damage,
    }
}

impl SegmentLog {
    /// Before the first segment.
    pub fn new(alloc: Global) -> SegmentLog
        ensures { result ≡ none_read }
    {
        SegmentLog {
            alloc,
            log: BatchLog::new(alloc),
            has_batches: false,
            damage: None,
            last: None,
        }
    }

    /// The next segment, with its number and its bytes. `Err` means out of memory, after which nothing is said of the
    /// log.
    #[tactic(auto, using(crate::proofs::Segments::taken), unfolding(crate::specs::SegmentLog::with_segment))]
    pub fn add(&mut self, number: u64, bytes: &[u8]) -> Result<(), AllocError>
        requires { number < 10000000000000000 }
        ensures { OnOk result (self.new ≡ with_segment node_format (record { number = number; bytes = bytes.now }) self.old) }
    {
        let good = take_segment(self.alloc, bytes, &mut self.log)? as u64;
        self.has_batches = self.has_batches || good > 8;
        self.damage = damage_before(self.damage, self.last);
        self.last = Some(LastSegment {
            number,
            size: bytes.len() as u64,
            good,
        });
        Ok(())
    }

    /// Whether there was any batch.
    pub fn has_batches(&self) -> bool
        ensures { result ≡ self.now.any }
    {
        self.has_batches
    }

    /// The first damage, if any.
    pub fn damage(&self) -> Option<Damage>
        ensures { result ≡ self.now.damage }
    {
        self.damage
    }

    /// The last segment, if any.
    pub fn last(&self) -> Option<LastSegment>
        ensures is { result ≡ self.now.last }
        ensures digits { FitsNumber result }
    {
        self.last
    }

    /// The log that was read, borrowed.
    pub fn log(&self) -> &BatchLog
        ensures { result.now ≡ self.now.log }
    {
        &self.log
    }

    /// The log that was read.
    pub fn into_log(self) -> BatchLog
        ensures { result ≡ self.log }
    {
        self.log
    }
}
