use sql_scan::{ScanFault, StatementSpan, WordKind, scan};
use std::test::Fail;

// The first statement of a text, and how many there are.
fn first(
    text: &str,
    alloc: std::alloc::Global,
) -> Result<(Option<StatementSpan>, usize), ScanFault> {
    let found = scan(alloc, text)?;
    Ok((
        found.statements.as_slice().first().copied(),
        found.statements.len(),
    ))
}

const STATEMENTS: &[(&str, u64, u64, WordKind, u64, u64)] = &[
    ("SELECT '?' , ?2 -- ?", 0, 15, WordKind::Other, 2, 20),
    (" ?007; x", 1, 5, WordKind::Other, 7, 6),
    (
        "begin/**/immediate",
        0,
        18,
        WordKind::Begin { at_once: true },
        0,
        18,
    ),
    ("end x", 0, 5, WordKind::LeftOut, 0, 5),
    ("create table t (a)", 0, 18, WordKind::Write, 0, 18),
];

#[test]
fn statements_are_found(rt: HostRuntime) -> Result<(), Fail> {
    for &(text, start, end, word, params, after) in STATEMENTS {
        let piece = StatementSpan {
            start,
            end,
            word,
            params,
            after,
        };
        assert_eq!(rt; first(text, rt.alloc())?.0, Some(piece));
    }
    assert_eq!(rt; first(";;", rt.alloc())?.1, 0);
    Ok(())
}

const FAULTS: &[(&str, ScanFault, &str)] = &[
    (
        "SELECT ':a",
        ScanFault::OpenQuote(7),
        "open quote at byte 7",
    ),
    ("/* a", ScanFault::OpenComment(0), "open comment at byte 0"),
    (
        "SELECT :a",
        ScanFault::Named(7),
        "named parameter at byte 7",
    ),
    (
        "SELECT ?0",
        ScanFault::Number(7),
        "bad parameter number at byte 7",
    ),
];

#[test]
fn faults_name_their_place(rt: HostRuntime) -> Result<(), Fail> {
    for &(text, fault, told) in FAULTS {
        assert_eq!(rt; scan(rt.alloc(), text).err(), Some(fault));
        assert_eq!(rt; fault.to_string(rt.alloc())?.as_str(), told);
    }
    assert_eq!(rt;
        ScanFault::NoMemory.to_string(rt.alloc())?.as_str(),
        "out of memory"
    );
    Ok(())
}
