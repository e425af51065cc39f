//! No statement of the crate `sqlite` reads the counts of a connection. Nothing here runs.

ghost use Rattle.sqlite_facts.specs.Counts.{ReadNoCounts};

use sqlite_disk::Disk;

/// What a statement does, it does with any counts before it.
pub fn read_no_counts<D: Disk>()
    ensures { ReadNoCounts D.Disk }
{}
