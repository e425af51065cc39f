use dq_base::MemSink;
use script_generator::{GenerateFault, generate};
use std::alloc::{AllocError, Global};
use std::test::*;

/// The script of the number 1 and one write.
const WHOLE: &[u8] =
    b"nodes 3\ntimeout 1\nsettle 100\nconnect 1 1\nbytes 1 0100000000000000040000000300000064000000000000000000000000000000766f6c6174696c650000000000000000\nsettle 100\nbytes 1 0300000008000000000000000000000053455420372035393000000000000000\nsettle 100\n";

/// `SET 63 575`, the second write of the number 1.
const SECOND: &[u8] =
    b"settle 100\nbytes 1 0300000008000000000000000000000053455420363320353735000000000000\nsettle 100\n";

/// `SET 1 345`, and `SET 58 748`.
const FIRST_OF_LEAST: &[u8] =
    b"settle 100\nbytes 1 0300000008000000000000000000000053455420312033343500000000000000\nsettle 100\n";

const FIRST_OF_GREATEST: &[u8] =
    b"settle 100\nbytes 1 0300000008000000000000000000000053455420353820373438000000000000\nsettle 100\n";

/// `SET 63 722`, `SET 57 267`, `SET 31 143` and `SET 2 132`, the writes 99, 100, 200 and 201 of the number 7.
const BEFORE_RESTART: &[u8] =
    b"settle 100\nbytes 1 0300000008000000000000000000000053455420363320373232000000000000\nsettle 100\n";

const RESTART: &[u8] =
    b"settle 100\nbytes 1 0300000008000000000000000000000053455420353720323637000000000000\nsettle 100\ncrash 3\nstart 3\n";

const SECOND_RESTART: &[u8] =
    b"settle 100\nbytes 1 0300000008000000000000000000000053455420333120313433000000000000\nsettle 100\ncrash 3\nstart 3\n";

const AFTER_RESTART: &[u8] =
    b"crash 3\nstart 3\nbytes 1 0300000008000000000000000000000053455420323020313332000000000000\nsettle 100\n";

/// A number, how many writes there are, and which call of the sink fails, from 1 on; how many bytes are written then, whether
/// that is the whole script, and its end.
const ROWS: &[(u32, u32, u64, usize, bool, &[u8])] = &[
    (1, 1, 0, 241, true, WHOLE),
    (1, 2, 0, 325, true, SECOND),
    (0, 1, 0, 241, true, FIRST_OF_LEAST),
    (2_147_483_647, 1, 0, 241, true, FIRST_OF_GREATEST),
    (7, 99, 0, 8_473, true, BEFORE_RESTART),
    (7, 100, 0, 8_573, true, RESTART),
    (7, 200, 0, 16_989, true, SECOND_RESTART),
    (7, 201, 0, 17_073, true, AFTER_RESTART),
    (1, 2, 1, 0, false, b""),
    (1, 2, 2, 157, false, b"0000\nsettle 100\n"),
    (1, 2, 3, 241, false, WHOLE),
    (1, 2, 4, 325, true, SECOND),
];

/// Writes a script to a sink that fails at one call: whether it is written whole, how many bytes are written, and whether they
/// end so. `None` means out of memory.
fn written(
    alloc: Global,
    number: u32,
    count: u32,
    fails: u64,
    end: &[u8],
) -> Result<Option<(usize, bool, bool)>, AllocError> {
    let mut sink = MemSink::new(alloc, vec![in alloc; fails]?);
    let whole = match generate(alloc, number, count, &mut sink) {
        Ok(()) => true,
        Err(GenerateFault::Sink) => false,
        Err(GenerateFault::NoMemory) => return Ok(None),
    };
    Ok(Some((sink.bytes().len(), whole, sink.bytes().ends_with(end))))
}

#[test]
fn scripts_are_written(rt: HostRuntime) -> Result<(), Fail> {
    for &(number, count, fails, length, whole, end) in ROWS {
        let seen = written(rt.alloc(), number, count, fails, end)?;
        assert_eq!(rt; seen, Some((length, whole, true)));
    }
    Ok(())
}
