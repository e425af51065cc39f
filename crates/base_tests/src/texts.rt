use dq_base::{Bytes, decimal_u32, decimal_u64, halves_of};
use std::alloc::{AllocError, Global};
use std::test::Fail;

type Numbers = (Option<u64>, Option<u32>);

const WORDS: &[(&[u8], Numbers)] = &[
    (b"0", (Some(0), Some(0))),
    (b"4294967295", (Some(4_294_967_295), Some(4_294_967_295))),
    (b"4294967296", (Some(4_294_967_296), None)),
    (b"18446744073709551615", (Some(u64::MAX), None)),
    (b"18446744073709551616", (None, None)),
    (b"", (None, None)),
    (b"+1", (None, None)),
    (b"01", (None, None)),
    (b"1 ", (None, None)),
    (b"\xff", (None, None)),
];

#[test]
fn words_are_numbers(rt: HostRuntime) {
    for &(word, wanted) in WORDS {
        assert_eq!(rt; (decimal_u64(word), decimal_u32(word)), wanted);
    }
}

const TEXTS: &[(&[u8], Option<(&[u8], &[u8])>)] = &[
    (b"a b c", Some((b"a", b"b c"))),
    (b" ", Some((b"", b""))),
    (b"ab", None),
];

#[test]
fn texts_are_cut_at_a_space(rt: HostRuntime) {
    for &(text, wanted) in TEXTS {
        assert_eq!(rt; halves_of(text), wanted);
    }
}

/// How a copy of a list is shown.
fn shown(alloc: Global, bytes: &[u8]) -> Result<String, AllocError> {
    let list = Bytes::new(Vec::from_slice(alloc, bytes)?);
    let copy = list.try_clone(alloc)?;
    format!(in alloc; "{copy:?}")
}

/// The sum of a list's bytes.
fn sum_of(alloc: Global, bytes: &[u8]) -> Result<u64, AllocError> {
    let list = Bytes::new(Vec::from_slice(alloc, bytes)?);
    let mut sum: u64 = 0;
    for byte in list.iter() {
        sum = sum.saturating_add(u64::from(*byte));
    }
    Ok(sum)
}

#[test]
fn lists_are_copied_and_shown(rt: HostRuntime) -> Result<(), Fail> {
    assert_eq!(rt; shown(rt.alloc(), &[1, 2])?.as_str(), "[1, 2]");
    assert_eq!(rt; sum_of(rt.alloc(), &[1, 2])?, 3);
    Ok(())
}
