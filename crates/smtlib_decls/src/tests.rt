//! What this crate's readers give and refuse, and the tests of three crates below: the prover reads a crate once more
//! to build its tests, and takes long over those.

mod measures;
mod moves;
mod terms;

use crate::{read_script, read_text};
use mbqi_terms::{Assertion, Script, Sort, same_formula};
use mbqi_values::{FaultKind, ReadError, Refusal};
use sexpr_text::read_forms;
use std::alloc::Global;
use std::process::Abort;
use std::test::Fail;

/// A text, and where and how it is refused.
#[derive(Clone, Copy)]
struct RefusedText {
    text: &'static [u8],
    at: usize,
    kind: FaultKind,
}

const fn refused(text: &'static [u8], at: usize, kind: FaultKind) -> RefusedText {
    RefusedText { text, at, kind }
}

/// Asserts that texts are refused.
fn assert_refused<R: Abort>(rt: &R, alloc: Global, cases: &[RefusedText]) {
    for one in cases {
        let text = one.text;
        match read_text(alloc, text) {
            Err(ReadError::Refused(refusal)) => {
                let expected = Refusal {
                    at: one.at,
                    kind: one.kind,
                };
                assert_eq!(rt; refusal, expected, "{text:?}");
            }
            _ => panic!(rt; "not refused: {text:?}"),
        }
    }
}

#[test]
fn a_text_without_forms_is_refused_at_its_first_fault(rt: HostRuntime) {
    assert_refused(
        &rt,
        rt.alloc(),
        &[
            refused(b"(assert (p", 0, FaultKind::Unclosed),
            refused(b"(exit) 01", 7, FaultKind::BadNumeral),
        ],
    );
}

#[test]
fn a_declaration_is_refused_at_its_first_byte(rt: HostRuntime) {
    assert_refused(
        &rt,
        rt.alloc(),
        &[
            refused(
                b"(declare-sort S 0)\n(declare-sort S 0)",
                19,
                FaultKind::Twice,
            ),
            refused(
                b"(declare-sort S 0)(declare-fun S (S) Bool) (declare-const S T)",
                43,
                FaultKind::UnknownName,
            ),
            refused(
                b"; a sort\n (declare-sort let 0)",
                10,
                FaultKind::ReservedName,
            ),
            refused(
                b"(check-sat) (declare-sort let 0)",
                12,
                FaultKind::Unsupported,
            ),
            refused(b"(set-logic ALL) (push 1)", 16, FaultKind::Unsupported),
            refused(b"(get-info) check-sat", 11, FaultKind::BadForm),
        ],
    );
}

#[test]
fn an_assertion_is_refused_at_its_first_byte(rt: HostRuntime) {
    assert_refused(
        &rt,
        rt.alloc(),
        &[
            refused(
                b"(declare-const x Int)(assert (<= x 9223372036854775808))",
                21,
                FaultKind::NumeralTooWide,
            ),
            refused(
                b"(declare-sort S 0)(declare-const a (Array S Int))(assert (= (default a) 0))",
                49,
                FaultKind::Unsupported,
            ),
            refused(
                b"(declare-const b (Array Int Int))(assert (forall ((i Int)) (= b (store b i 0))))",
                33,
                FaultKind::BoundArray,
            ),
            refused(
                b"(assert (! true :named a)) (assert (! false :named a))",
                27,
                FaultKind::Twice,
            ),
            refused(b"(assert (! p :named a :named a))", 0, FaultKind::BadForm),
        ],
    );
}

/// Asserts how many sorts, functions and assertions a script has, and whether it asks.
fn assert_counts<R: Abort>(rt: &R, script: &Script, counts: (usize, usize, usize), asks: bool) {
    assert_eq!(rt; script.sorts.len(), counts.0);
    assert_eq!(rt; script.functions.len(), counts.1);
    assert_eq!(rt; script.assertions.len(), counts.2);
    assert_eq!(rt; script.asks, asks);
}

/// Asserts the name of the first sort.
fn assert_sort<R: Abort>(rt: &R, script: &Script, expected: &[u8]) {
    match script.sorts.as_slice().first() {
        Some(name) => assert_eq!(rt; name.as_slice(), expected),
        None => panic!(rt; "no sort"),
    }
}

/// Asserts the name of the last function, and that it is a predicate.
fn assert_last_function<R: Abort>(rt: &R, script: &Script, expected: &[u8]) {
    match script.functions.as_slice().last() {
        Some(function) => {
            assert_eq!(rt; function.name.as_slice(), expected);
            assert_eq!(rt;
                function.args.as_slice(),
                [Sort::Elem(0), Sort::Int].as_slice()
            );
            assert_eq!(rt; function.result, Sort::Truth);
        }
        None => panic!(rt; "no function"),
    }
}

#[test]
fn declarations_make_a_script(rt: HostRuntime) -> Result<(), Fail> {
    let alloc = rt.alloc();
    let text =
        b"(set-logic ALL)(declare-sort S 0)(declare-const c S)(declare-fun p (S Int) Bool)(check-sat)(get-model)(exit) p";
    let forms = read_forms(alloc, text)?;
    let script = read_script(alloc, &forms)?;
    assert_counts(&rt, &script, (1, 2, 0), true);
    assert_sort(&rt, &script, b"S");
    assert_last_function(&rt, &script, b"p");
    Ok(())
}

/// Asserts the label of an assertion, which has one.
fn assert_label<R: Abort>(rt: &R, assertion: Option<&Assertion>, expected: &[u8]) {
    match assertion {
        Some(
            Assertion {
                label: Some(label),
                ..
            },
        ) => assert_eq!(rt; label.as_slice(), expected),
        _ => panic!(rt; "no label"),
    }
}

#[test]
fn labels_are_kept(rt: HostRuntime) -> Result<(), Fail> {
    let text =
        b"(assert (! true :named |let|))(assert (! (! false :named b) :pattern (q) :named @c))";
    let script = read_text(rt.alloc(), text)?;
    assert_counts(&rt, &script, (0, 0, 2), false);
    assert_label(&rt, script.assertions.as_slice().first(), b"let");
    assert_label(&rt, script.assertions.as_slice().last(), b"@c");
    Ok(())
}

/// Asserts that two assertions have the same formula.
fn assert_same<R: Abort>(rt: &R, read: &[Assertion], expected: &[Assertion]) {
    match (read, expected) {
        ([a], [b]) => assert!(rt; same_formula(&a.formula, &b.formula)),
        _ => panic!(rt; "not one assertion"),
    }
}

#[test]
fn macros_are_replaced(rt: HostRuntime) -> Result<(), Fail> {
    let alloc = rt.alloc();
    let text =
        b"(declare-fun f (Int) Int)(define-fun g ((x Int)) Bool (< (f x) 3))(assert (forall ((y Int)) (let ((z (- y 1))) (g z))))(check-sat)";
    let plain =
        b"(declare-fun f (Int) Int)(assert (forall ((y Int)) (not (<= 3 (f (+ y (- 1)))))))(check-sat)";
    let script = read_text(alloc, text)?;
    let expected = read_text(alloc, plain)?;
    assert_counts(&rt, &script, (0, 1, 1), true);
    assert_same(
        &rt,
        script.assertions.as_slice(),
        expected.assertions.as_slice(),
    );
    Ok(())
}

#[test]
fn a_numeral_up_to_the_limit_is_read(rt: HostRuntime) -> Result<(), Fail> {
    let text = b"(declare-const x Int)(assert (<= x 9223372036854775807))";
    let script = read_text(rt.alloc(), text)?;
    assert_counts(&rt, &script, (0, 1, 1), false);
    Ok(())
}
