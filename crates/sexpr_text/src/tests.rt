use crate::{Sexpr, copy_tree, read_forms, same_tree, write_form};
use mbqi_values::fault::{FaultKind, ReadError, Refusal};
use std::alloc::Global;
use std::process::Abort;
use std::test::Fail;

/// A form of a text: its place and its one spelling.
#[derive(Clone, Copy)]
struct Expected {
    from: usize,
    to: usize,
    text: &'static [u8],
}

const fn at(from: usize, to: usize, text: &'static [u8]) -> Expected {
    Expected { from, to, text }
}

/// Asserts the forms of a text.
fn assert_forms<R: Abort>(
    rt: &R,
    alloc: Global,
    text: &[u8],
    expected: &[Expected],
) -> Result<(), Fail> {
    let forms = read_forms(alloc, text)?;
    assert_eq!(rt; forms.len(), expected.len(), "{text:?}");
    for (form, one) in forms.as_slice().iter().zip(expected) {
        let mut written = Vec::new(alloc);
        write_form(alloc, &form.tree, &mut written)?;
        assert_eq!(rt; form.from, one.from, "{text:?}");
        assert_eq!(rt; form.to, one.to, "{text:?}");
        assert_eq!(rt; written.as_slice(), one.text, "{text:?}");
        let copy = copy_tree(alloc, &form.tree)?;
        assert!(rt; same_tree(&copy, &form.tree), "{text:?}");
    }
    Ok(())
}

/// Asserts that a text is refused at a place.
fn assert_refused<R: Abort>(rt: &R, alloc: Global, text: &[u8], at: usize, kind: FaultKind) {
    match read_forms(alloc, text) {
        Err(ReadError::Refused(refusal)) => {
            assert_eq!(rt; refusal, Refusal { at, kind }, "{text:?}");
        }
        _ => panic!(rt; "not refused: {text:?}"),
    }
}

#[test]
fn texts_have_their_forms(rt: HostRuntime) -> Result<(), Fail> {
    let alloc = rt.alloc();
    assert_forms(&rt, alloc, b"", &[])?;
    assert_forms(&rt, alloc, b" \t\r\n; ( \" | \xff\r )\n;", &[])?;
    assert_forms(
        &rt,
        alloc,
        b"0 17 3.50 #xFa #b01 :1 a+b",
        &[
            at(0, 1, b"0"),
            at(2, 4, b"17"),
            at(5, 9, b"3.50"),
            at(10, 14, b"#xFa"),
            at(15, 19, b"#b01"),
            at(20, 22, b":1"),
            at(23, 26, b"a+b"),
        ],
    )?;
    assert_forms(
        &rt,
        alloc,
        b"\"a\"\"b\" \"\" \"\"\"\"",
        &[
            at(0, 6, b"\"a\"\"b\""),
            at(7, 9, b"\"\""),
            at(10, 14, b"\"\"\"\""),
        ],
    )?;
    assert_forms(
        &rt,
        alloc,
        b"|a b| |ab| || |1| let",
        &[
            at(0, 5, b"|a b|"),
            at(6, 10, b"ab"),
            at(11, 13, b"||"),
            at(14, 17, b"|1|"),
            at(18, 21, b"let"),
        ],
    )?;
    assert_forms(
        &rt,
        alloc,
        b"( a (b) ; c\n ) c()",
        &[at(0, 14, b"(a (b))"), at(15, 16, b"c"), at(16, 18, b"()")],
    )?;
    assert_forms(
        &rt,
        alloc,
        b"a\"b\"1|c|:d:e;f\ng",
        &[
            at(0, 1, b"a"),
            at(1, 4, b"\"b\""),
            at(4, 5, b"1"),
            at(5, 8, b"c"),
            at(8, 10, b":d"),
            at(10, 12, b":e"),
            at(15, 16, b"g"),
        ],
    )?;
    assert_forms(
        &rt,
        alloc,
        b"\"\xc3\xa9\r\n\" |\xff\r\n|",
        &[at(0, 6, b"\"\xc3\xa9\r\n\""), at(7, 12, b"|\xff\r\n|")],
    )?;
    Ok(())
}

#[test]
fn faults_have_their_places(rt: HostRuntime) {
    let alloc = rt.alloc();
    let cases: [(&[u8], usize, FaultKind); 40] = [
        (b"(assert (p", 0, FaultKind::Unclosed),
        (b"(a) (b (c)", 4, FaultKind::Unclosed),
        (b")", 0, FaultKind::Unopened),
        (b"(a)) #", 3, FaultKind::Unopened),
        (b"#", 0, FaultKind::BadByte),
        (b"a #)", 2, FaultKind::BadByte),
        (b":", 0, FaultKind::BadByte),
        (b"(:)", 1, FaultKind::BadByte),
        (b"#xg", 0, FaultKind::BadByte),
        (b"#X1", 0, FaultKind::BadByte),
        (b"#b2", 0, FaultKind::BadByte),
        (b"#c1", 0, FaultKind::BadByte),
        (b"(\n{", 2, FaultKind::BadByte),
        (b"'a", 0, FaultKind::BadByte),
        (b"\x7f", 0, FaultKind::BadByte),
        (b"\xc3\xa9", 0, FaultKind::BadByte),
        (b"\"a\x01b", 2, FaultKind::BadByte),
        (b"\"\x7f\"", 1, FaultKind::BadByte),
        (b"\"\"\"\x0b", 3, FaultKind::BadByte),
        (b"|a\\b|", 2, FaultKind::BadByte),
        (b"|\x00", 1, FaultKind::BadByte),
        (b" \"a", 1, FaultKind::OpenString),
        (b"\"a\"\"", 0, FaultKind::OpenString),
        (b"\"", 0, FaultKind::OpenString),
        (b"(|a", 1, FaultKind::OpenQuote),
        (b"|", 0, FaultKind::OpenQuote),
        (b"01", 0, FaultKind::BadNumeral),
        (b"00", 0, FaultKind::BadNumeral),
        (b"01.5", 0, FaultKind::BadNumeral),
        (b"1.", 0, FaultKind::BadNumeral),
        (b"(1.)", 1, FaultKind::BadNumeral),
        (b"1.a", 0, FaultKind::BadNumeral),
        (b"1a", 0, FaultKind::BadNumeral),
        (b"1.5a", 0, FaultKind::BadNumeral),
        (b"1.5.6", 0, FaultKind::BadNumeral),
        (b"1-", 0, FaultKind::BadNumeral),
        (b"#x1g", 0, FaultKind::BadNumeral),
        (b"#b12", 0, FaultKind::BadNumeral),
        (b"#b1.0", 0, FaultKind::BadNumeral),
        (b"; \n 1a", 4, FaultKind::BadNumeral),
    ];
    for (text, at, kind) in cases.iter() {
        assert_refused(&rt, alloc, text, *at, *kind);
    }
}

#[test]
fn a_thousand_brackets_may_be_open(rt: HostRuntime) -> Result<(), Fail> {
    let alloc = rt.alloc();
    let mut text = vec![in alloc; b'('; 1000]?;
    for _ in 0..1000 {
        text.push(b')')?;
    }
    let forms = read_forms(alloc, &text)?;
    assert_eq!(rt; forms.len(), 1);
    let mut written = Vec::new(alloc);
    write_form(alloc, &forms.as_slice()[0].tree, &mut written)?;
    assert_eq!(rt; written.as_slice(), text.as_slice());
    let deep = vec![in alloc; b'('; 1001]?;
    assert_refused(&rt, alloc, &deep, 1000, FaultKind::TooDeep);
    Ok(())
}
