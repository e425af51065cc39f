ghost use Rattle.std.specs.Prelude.{◌≡◌, ◌+◌, ◌<◌, ◌≤◌, min, max, length, OnOk};
ghost use Rattle.sqlite_disk.specs.Disk.{Holds, Torn, Cut};
ghost use Rattle.sqlite_files.specs.Recording.{since, touched_count, pages_between, StaysSince};

use crate::stamps::touch;
use std::alloc::AllocError;

/// Writes bytes at a place of a file, which grows as far as they reach. The count of calls stays at its last value. Fails if
/// memory runs out.
pub(crate) fn write(
    file: &mut Vec<u8>,
    stamps: &mut Vec<u64>,
    writes: &mut u64,
    at: usize,
    bytes: &[u8],
) -> Result<(), AllocError>
    ensures written { OnOk result (Holds file.new.items at bytes.now) }
    ensures others { Torn at (length bytes.now) file.old.items file.new.items }
    ensures since { StaysSince file.old.items stamps.old.items writes.old file.new.items stamps.new.items writes.new }
    ensures count { touched_count (since 0 stamps.new.items) ≤ touched_count (since 0 stamps.old.items)
        + pages_between (min at (length file.old.items)) (at + length bytes.now) }
{
    let end = at.checked_add(bytes.len()).ok_or(AllocError)?;
    *writes = writes.saturating_add(1);
    touch(stamps, at.min(file.len()), end, *writes)?;
    overwrite(file, at, bytes)
}

/// Cuts a file at a length, or grows it to it with zeros. The count of calls stays at its last value. Fails if memory runs out.
pub(crate) fn set_length(
    file: &mut Vec<u8>,
    stamps: &mut Vec<u64>,
    writes: &mut u64,
    len: usize,
) -> Result<(), AllocError>
    ensures len { OnOk result (length file.new.items ≡ len) }
    ensures others { Cut len file.old.items file.new.items }
    ensures since { StaysSince file.old.items stamps.old.items writes.old file.new.items stamps.new.items writes.new }
    ensures count { touched_count (since 0 stamps.new.items) ≤ touched_count (since 0 stamps.old.items)
        + pages_between (min len (length file.old.items)) (max len (length file.old.items)) }
{
    *writes = writes.saturating_add(1);
    touch(stamps, len.min(file.len()), len.max(file.len()), *writes)?;
    resize(file, len)
}

fn resize(file: &mut Vec<u8>, len: usize) -> Result<(), AllocError>
    ensures len { OnOk result (length file.new.items ≡ len) }
    ensures others { Cut len file.old.items file.new.items }
{
    file.resize(len, 0)
}

fn overwrite(file: &mut Vec<u8>, at: usize, bytes: &[u8]) -> Result<(), AllocError>
    ensures written { OnOk result (Holds file.new.items at bytes.now) }
    ensures others { Torn at (length bytes.now) file.old.items file.new.items }
{
    let end = at.checked_add(bytes.len()).ok_or(AllocError)?;
    if end > file.len() {
        resize(file, end)?;
    }
    file[at..end].copy_from_slice(bytes);
    Ok(())
}
