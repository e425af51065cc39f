use dq_base::{Bytes, Image};
use sqlite_disk::Disk;
use sqlite_files::{PairDisk, PairFiles};
use std::alloc::{AllocError, Global};
use std::io;
use std::test::Fail;

/// What is done to the two files.
#[derive(Clone, Copy)]
enum Call {
    Main(usize, u8),
    Side(usize, u8),
    GrownAndCut(usize, usize),
}

/// Two pages of zeros, and ten bytes of a side file.
fn two_pages(alloc: Global) -> Result<Image, AllocError> {
    let mut main = Vec::new(alloc);
    main.resize(8192, 0)?;
    let mut side = Vec::new(alloc);
    side.resize(10, 0)?;
    Ok(Image {
        main: Bytes::new(main),
        side: Bytes::new(side),
    })
}

fn made(files: &mut PairFiles, call: Call) -> io::Result<()> {
    match call {
        Call::Main(at, byte) => files.db.write_at(at, &[byte]),
        Call::Side(at, byte) => files.log.write_at(at, &[byte]),
        Call::GrownAndCut(grown, cut) => {
            files.db.set_len(grown)?;
            files.db.set_len(cut)
        }
    }
}

/// The numbers of the pages in the set after a call: the first, the second, and how many there are.
fn numbers(alloc: Global, call: Call) -> Result<(u64, u64, usize), Fail> {
    let image = two_pages(alloc)?;
    let mut files = PairDisk::from_image(alloc, &image)?.into_files();
    made(&mut files, call)?;
    let (_, set) = PairDisk::from_files(files).changes(alloc, 7)?;
    let pages = set.pages.as_slice();
    let first = pages.get(0).map_or(0, |page| page.number);
    let second = pages.get(1).map_or(0, |page| page.number);
    Ok((first, second, pages.len()))
}

/// Calls, and the numbers of the pages in the set after each.
const CALLS: &[(Call, (u64, u64, usize))] = &[
    (Call::Main(4096, 0), (0, 0, 0)),
    (Call::Main(4100, 9), (4, 1, 2)),
    (Call::Side(3, 9), (3, 1, 2)),
    (Call::Main(8192, 9), (6, 1, 2)),
    (Call::GrownAndCut(9000, 8192), (0, 0, 0)),
    (Call::GrownAndCut(9000, 5000), (1, 0, 1)),
    (Call::GrownAndCut(0, 4096), (1, 0, 1)),
];

#[test]
fn a_set_has_the_pages_that_differ(rt: HostRuntime) -> Result<(), Fail> {
    for &(call, wanted) in CALLS {
        assert_eq!(rt; numbers(rt.alloc(), call)?, wanted);
    }
    Ok(())
}
