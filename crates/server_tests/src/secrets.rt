//! Codes by a secret.

use peer_secret::{hmac_sha256, is_same, pass_text};
use std::alloc::Global;
use std::test::*;

/// The keys, messages and codes of RFC 4231. Of the fifth code the first 128 bits are given there.
const ROWS: &[(&[u8], &[u8], &str)] = &[
    (
        &[0x0b; 20],
        b"Hi There",
        "b0344c61d8db38535ca8afceaf0bf12b881dc200c9833da726e9376c2e32cff7",
    ),
    (
        b"Jefe",
        b"what do ya want for nothing?",
        "5bdcc146bf60754e6a042426089575c75a003f089d2739839dec58b964ec3843",
    ),
    (
        &[0xaa; 20],
        &[0xdd; 50],
        "773ea91e36800e46854db8ebd09181a72959098b3ef8c122d9635514ced565fe",
    ),
    (
        &[
            1, 2, 3, 4, 5, 6, 7, 8, 9, 10, 11, 12, 13, 14, 15, 16, 17, 18, 19, 20, 21, 22, 23, 24,
            25,
        ],
        &[0xcd; 50],
        "82558a389a443c0ea4cc819899f2083a85f0faa3e578f8077a2e3ff46729665b",
    ),
    (
        &[0x0c; 20],
        b"Test With Truncation",
        "a3b6167473100ee06e0c796c2955552b",
    ),
    (
        &[0xaa; 131],
        b"Test Using Larger Than Block-Size Key - Hash Key First",
        "60e431591ee0b67f0d8a26aacbf5b77f8e0bc6213728c5140546040f0ee37f54",
    ),
    (
        &[0xaa; 131],
        b"This is a test using a larger than block-size key and a larger than block-size data. \
          The key needs to be hashed before being used by the HMAC algorithm.",
        "9b09ffa71b942fcb27635fbcd5b0e944bfdc63644f0713938a7f51535c3a35e2",
    ),
];

/// Whether the code of a message begins with these hexadecimal digits.
fn has_code(alloc: Global, key: &[u8], message: &[u8], wanted: &str) -> Option<bool> {
    let code = hmac_sha256(alloc, key, message).ok()?;
    let digits = hex::encode(alloc, code).ok()?;
    Some(digits.as_str().starts_with(wanted))
}

#[test]
fn codes_are_those_of_the_standard(rt: HostRuntime) -> Result<(), Fail> {
    for (row, &(key, message, wanted)) in ROWS.iter().enumerate() {
        assert!(rt;
            has_code(rt.alloc(), key, message, wanted) == Some(true),
            "row {row}"
        );
    }
    Ok(())
}

/// The text of node 1 of a cluster of three to node 2, as another program made it.
const PASS: &str =
    "localhost:9001 1 2 3fe82a81c793e39871357a696ac87881c03f1b7b3264db4afd27f30fe7ed4f2d";

/// Whether the text is that one, and not without its first byte.
fn is_pass(alloc: Global) -> Option<bool> {
    let cluster = " 1=localhost:9001 2=localhost:9002 3=localhost:9003";
    let pass = pass_text(
        alloc,
        b"sixteen bytes and some more",
        cluster,
        "localhost:9001",
        1,
        2,
    )
    .ok()?;
    let said = pass.as_str().as_bytes();
    Some(is_same(said, PASS.as_bytes()) && !is_same(said, &PASS.as_bytes()[1..]))
}

#[test]
fn a_pass_names_both_ends(rt: HostRuntime) -> Result<(), Fail> {
    assert_eq!(rt; is_pass(rt.alloc()), Some(true));
    Ok(())
}
