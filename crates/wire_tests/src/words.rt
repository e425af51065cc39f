use std::alloc::{AllocError, Global};
use std::test::*;
use wire_words::*;

#[test]
fn headers(rt: HostRuntime) {
    let header = Header::read(&[2, 1, 0, 0, 7, 1, 9, 255]);
    assert_eq!(rt;
        header,
        Header {
            words: 258,
            kind: 7,
            schema: 1
        }
    );
}

/// A word and a pair, and after them the faults of another word and another pair with the place and what is left then.
fn numbers_of(body: &[u8]) -> Option<(u64, (u32, u32), [WordFault; 2], u64, u64)> {
    let mut words = Words::new(body);
    let word = words.u64().ok()?;
    let pair = words.u32_pair().ok()?;
    let faults = [words.u64().err()?, words.u32_pair().err()?];
    Some((word, pair, faults, words.place(), words.left()))
}

#[test]
fn numbers(rt: HostRuntime) {
    let body = [8, 7, 6, 5, 4, 3, 2, 1, 1, 0, 0, 0, 2, 0, 0, 128, 5];
    assert_eq!(rt;
        numbers_of(&body),
        Some((
            0x0102_0304_0506_0708,
            (1, 0x8000_0002),
            [WordFault::Short(16); 2],
            16,
            1
        ))
    );
}

/// What is written of a text, if it can be written.
fn text_again(alloc: Global, text: &WireText) -> Result<Option<WireBytes>, AllocError> {
    if text.has_nul() {
        return Ok(None);
    }
    let mut writer = Writer::new(alloc);
    writer.text(text.as_str())?;
    Ok(Some(writer.finish()))
}

/// Whether a body is read as this text alone, and the text is written back so.
fn text_passes(alloc: Global, body: &[u8], wanted: &str) -> Result<bool, WordFault> {
    let mut words = Words::new(body);
    let text = words.text(alloc)?;
    let is_wanted = words.left() == 0 && text.as_str() == wanted;
    match text_again(alloc, &text)? {
        Some(written) => Ok(is_wanted && written.as_slice() == body),
        None => Ok(false),
    }
}

const TEXTS: &[(&[u8], &str)] = &[
    (b"\0\0\0\0\0\0\0\0", ""),
    (b"n1\0\0\0\0\0\0", "n1"),
    (b"1234567\0", "1234567"),
    (b"12345678\0\0\0\0\0\0\0\0", "12345678"),
    (b"\xc3\xa9\0\0\0\0\0\0", "\u{e9}"),
];

#[test]
fn texts(rt: HostRuntime) {
    for &(body, wanted) in TEXTS {
        assert_eq!(rt; text_passes(rt.alloc(), body, wanted), Ok(true));
        assert_eq!(rt; Words::new(body).text_str(), Ok(wanted));
    }
}

/// Whether a text that fills a mebibyte is read, lent and copied, and is written back so.
fn large_text_passes(alloc: Global) -> Result<bool, WordFault> {
    let text = "x".repeat(alloc, 1_048_575)?;
    let mut body = Vec::from_slice(alloc, text.as_bytes())?;
    body.push(0)?;
    text_passes(alloc, &body, &text)
}

#[test]
fn a_text_at_size(rt: HostRuntime) {
    assert_eq!(rt; large_text_passes(rt.alloc()), Ok(true));
}

fn text_has_nul(alloc: Global, text: &str) -> Result<bool, AllocError> {
    Ok(WireText::new(String::from_str(alloc, text)?).has_nul())
}

const NULS: &[(&str, bool)] = &[("a\0b", true), ("ab", false)];

#[test]
fn nuls_in_texts(rt: HostRuntime) -> Result<(), Fail> {
    for &(text, wanted) in NULS {
        let found = text_has_nul(rt.alloc(), text)?;
        assert_eq!(rt; found, wanted);
    }
    Ok(())
}

/// The fault of the text at the front of a body, and whether all of the body is left then.
fn text_fault(alloc: Global, body: &[u8]) -> Option<(WordFault, bool)> {
    let mut words = Words::new(body);
    let fault = words.text(alloc).err()?;
    Some((fault, words.left() == body.len() as u64))
}

const FAULTY_TEXTS: &[(&[u8], WordFault)] = &[
    (b"aaaaaaaa", WordFault::NoNul(0)),
    (b"", WordFault::NoNul(0)),
    (b"a\0\0\0\0\0\0\x01", WordFault::Pad(0)),
    (b"\xff\0\0\0\0\0\0\0", WordFault::NotUtf8(0)),
    (b"\xff\0\0\0\0\0\0\x01", WordFault::NotUtf8(0)),
    (b"\xff\0\0\0\0\0\0", WordFault::Short(0)),
];

#[test]
fn faulty_texts(rt: HostRuntime) {
    for &(body, fault) in FAULTY_TEXTS {
        assert_eq!(rt; text_fault(rt.alloc(), body), Some((fault, true)));
    }
}

/// Whether bytes that were copied are as they were lent.
fn is_copy(copied: Result<WireBytes, WordFault>, lent: Result<&[u8], WordFault>) -> bool {
    match copied {
        Ok(bytes) => lent == Ok(bytes.as_slice()),
        Err(fault) => lent == Err(fault),
    }
}

/// A reader after the first word of a body.
fn behind_word(body: &[u8]) -> Words<'_> {
    let mut words = Words::new(body);
    let _word = words.u64();
    words
}

const RAW_BYTES: &[(u64, Result<&[u8], WordFault>)] = &[
    (3, Ok(b"\x01\x02\x03")),
    (0, Ok(b"")),
    (8, Ok(b"\x01\x02\x03\0\0\0\0\0")),
    (2, Err(WordFault::Pad(8))),
    (9, Err(WordFault::Short(8))),
    (u64::MAX, Err(WordFault::Short(8))),
];

#[test]
fn raw_bytes(rt: HostRuntime) {
    let body = b"wordword\x01\x02\x03\0\0\0\0\0\x09";
    for &(size, wanted) in RAW_BYTES {
        assert_eq!(rt; behind_word(body).raw_slice(size), wanted);
        assert!(rt; is_copy(behind_word(body).raw(rt.alloc(), size), wanted));
    }
}

const BLOBS: &[(&[u8], Result<&[u8], WordFault>)] = &[
    (b"\x01\0\0\0\0\0\0\0b\0\0\0\0\0\0\0", Ok(b"b")),
    (b"\0\0\0\0\0\0\0\0", Ok(b"")),
    (
        b"\x01\0\0\0\0\0\0\0b\0\0\0\0\0\0\x01",
        Err(WordFault::Pad(0)),
    ),
    (b"\x01\0\0\0\0\0\0\0b\0\0\0\0\0\0", Err(WordFault::Short(0))),
];

#[test]
fn blobs(rt: HostRuntime) {
    for &(body, wanted) in BLOBS {
        assert_eq!(rt; Words::new(body).blob_slice(), wanted);
        assert!(rt; is_copy(Words::new(body).blob(rt.alloc()), wanted));
    }
}

fn message_of_items(alloc: Global) -> Result<WireBytes, AllocError> {
    let mut writer = Writer::new(alloc);
    writer.header(3, 1)?;
    writer.word(258)?;
    writer.pair(1, 2)?;
    writer.text("12345678")?;
    writer.raw(&[])?;
    writer.raw(&[9])?;
    writer.finish_message()
}

#[test]
fn messages(rt: HostRuntime) -> Result<(), Fail> {
    let message = message_of_items(rt.alloc())?;
    assert_eq!(rt;
        message.as_slice(),
        b"\x05\0\0\0\x03\x01\0\0\x02\x01\0\0\0\0\0\0\x01\0\0\0\x02\0\0\012345678\0\0\0\0\0\0\0\0\x09\0\0\0\0\0\0\0".as_slice()
    );
    Ok(())
}

const WORD_FAULTS: &[(WordFault, &str)] = &[
    (
        WordFault::Short(8),
        "the body ends within the item at byte 8",
    ),
    (WordFault::NoNul(8), "no NUL ends the text at byte 8"),
    (WordFault::NotUtf8(8), "the text at byte 8 isn't UTF-8"),
    (
        WordFault::Pad(8),
        "the item at byte 8 isn't filled up with zeros",
    ),
    (
        WordFault::BadCode(8, 6),
        "the item at byte 8 has the value code 6",
    ),
    (
        WordFault::Float(8),
        "the item at byte 8 has a floating-point number",
    ),
    (WordFault::NoMemory, "out of memory"),
];

const SPLIT_FAULTS: &[(SplitFault, &str)] = &[
    (SplitFault::Version(2), "the stream begins with version 2"),
    (
        SplitFault::TooLong(2_097_153),
        "a header claims 2097153 words",
    ),
    (SplitFault::NoMemory, "out of memory"),
];

#[test]
fn texts_of_faults(rt: HostRuntime) -> Result<(), Fail> {
    for &(fault, wanted) in WORD_FAULTS {
        assert_eq!(rt; format!(in rt.alloc(); "{fault}")?.as_str(), wanted);
    }
    for &(fault, wanted) in SPLIT_FAULTS {
        assert_eq!(rt; format!(in rt.alloc(); "{fault}")?.as_str(), wanted);
    }
    Ok(())
}
