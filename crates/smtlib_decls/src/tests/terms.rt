use mbqi_terms::{Formula, Plain, Sort, same_formula};
use mbqi_values::{FaultKind, ReadError, Sequence};
use sexpr_text::read_forms;
use smtlib_names::names::Names;
use std::alloc::{AllocError, Global};
use std::test::Fail;
use term_reader::{define_macro, read_formula};

/// Declares what the rows speak of.
fn declare(alloc: Global, names: &mut Names) -> Result<(), ReadError> {
    let none = Sequence::new(alloc);
    let one = Sequence::from_slice(alloc, &[Sort::Int])?;
    names.declare_sort(alloc, b"S")?;
    for name in ["x", "y", "z"] {
        names.declare_function(alloc, name.as_bytes(), &none, Sort::Int)?;
    }
    for name in ["p", "q", "r"] {
        names.declare_function(alloc, name.as_bytes(), &none, Sort::Truth)?;
    }
    names.declare_function(alloc, b"c", &none, Sort::Elem(0))?;
    names.declare_function(alloc, b"f", &one, Sort::Int)?;
    names.declare_function(alloc, b"g", &one, Sort::Truth)?;
    let array = Sort::Array(Plain::Int, Plain::Int);
    names.declare_function(alloc, b"a", &none, array)?;
    names.declare_function(alloc, b"b", &none, array)?;
    let flags = Sort::Array(Plain::Int, Plain::Truth);
    names.declare_function(alloc, b"t", &none, flags)
}

/// The names, with these macros.
fn defined(alloc: Global, macros: &str) -> Result<Names, ReadError> {
    let mut names = Names::new(alloc);
    declare(alloc, &mut names)?;
    let forms = read_forms(alloc, macros.as_bytes())?;
    for form in forms.as_slice() {
        define_macro(alloc, &mut names, &form.tree)?;
    }
    Ok(names)
}

fn meaning(alloc: Global, names: &Names, text: &str) -> Result<Formula, ReadError> {
    let forms = read_forms(alloc, text.as_bytes())?;
    match forms.as_slice() {
        [form] => read_formula(alloc, names, &form.tree),
        _ => Err(ReadError::Memory),
    }
}

/// Whether two texts mean one formula.
fn mean_one(alloc: Global, names: &Names, text: &str, other: &str) -> bool {
    match (meaning(alloc, names, text), meaning(alloc, names, other)) {
        (Ok(f), Ok(g)) => same_formula(&f, &g),
        _ => false,
    }
}

/// Whether a text is refused for this kind, at 0.
fn is_refused(alloc: Global, names: &Names, text: &str, kind: FaultKind) -> bool {
    match meaning(alloc, names, text) {
        Err(ReadError::Refused(refusal)) => refusal.kind == kind && refusal.at == 0,
        _ => false,
    }
}

const MACROS: &str = "(define-fun m ((u Int)) Bool (forall ((v Int)) (= u v)))
 (define-fun d ((u Int)) Bool (= (- y u) 3)) (define-fun two () Int 2)
 (define-fun k ((x Int)) Bool (d x)) (define-fun s ((i Int)) (Array Int Int) (store a i 0))
 (define-fun all () Bool (forall ((v Int)) (= v x))) (define-fun both () Bool (and all all))
 (define-fun kept () (Array Int Int) (store a x 0))";

/// Texts, each with another text of the same meaning.
const MEANINGS: &[(&str, &str)] = &[
    ("(=> p q r)", "(or (not p) (or (not q) r))"),
    ("(xor p q r)", "(not (= (not (= p q)) r))"),
    ("(and p)", "p"),
    (
        "(distinct x y z)",
        "(and (not (= x y)) (not (= x z)) (not (= y z)))",
    ),
    ("(< x y z)", "(and (not (<= y x)) (not (<= z y)))"),
    ("(> x y)", "(not (<= x y))"),
    ("(= (- x y) 3)", "(= x (+ y 3))"),
    ("(<= 3 (- x y))", "(<= (+ y 3) x)"),
    ("(distinct (- x y) 3)", "(not (= x (+ y 3)))"),
    ("(= (+ 1 2 x 3) z)", "(= (+ x 6) z)"),
    ("(= (- x 1 2) (- 3))", "(= (+ x (- 3)) (- 0 3))"),
    ("(let ((x y) (y x)) (<= x y))", "(<= y x)"),
    (
        "(forall ((v Int)) (m v))",
        "(forall ((v Int)) (forall ((w Int)) (= v w)))",
    ),
    ("(let ((w (m x))) (and p w w))", "(and p (m x) (m x))"),
    ("(k z)", "(= y (+ z 3))"),
    ("(= two 2)", "(= 2 2)"),
    (
        "(forall ((u Int)) both)",
        "(forall ((u Int)) (and (forall ((v Int)) (= v x)) (forall ((w Int)) (= w x))))",
    ),
    ("(= b kept)", "(= b (store a x 0))"),
    ("(! p :named n)", "p"),
    ("(select (store t 1 true) 1)", "(select (store t 1 true) 1)"),
    ("(select (store t 1 (and p)) 1)", "(select (store t 1 p) 1)"),
    ("(= ((_ map and) t) t)", "(= ((_ map and) t) t)"),
    (
        "(= ((as const (Array Int Bool)) true) t)",
        "(= ((as const (Array Int Bool)) true) t)",
    ),
];

/// Texts with the first kind that they are refused for.
const REFUSALS: &[(&str, FaultKind)] = &[
    ("(! (f x) :pattern ((f x)))", FaultKind::WrongSort),
    ("(select (store t 1 (and p q)) 1)", FaultKind::Unsupported),
    ("(= ((_ map and) a) a)", FaultKind::WrongSort),
    ("(- (f x))", FaultKind::NotDifference),
    ("(= (- x y) z)", FaultKind::NotDifference),
    ("(= (- x y) w)", FaultKind::NotDifference),
    ("(= (+ x y) 3)", FaultKind::NotDifference),
    ("(= x 9223372036854775808)", FaultKind::NumeralTooWide),
    ("(= x (+ y 576460752303423489))", FaultKind::OffsetTooWide),
    ("(= p (forall ((v Int)) (g v)))", FaultKind::QuantifierPlace),
    (
        "(forall ((v Int)) (= a (store b v 0)))",
        FaultKind::BoundArray,
    ),
    ("(forall ((v Int)) (= a (s v)))", FaultKind::BoundArray),
    ("(forall ((v Int) (v Int)) p)", FaultKind::Twice),
    ("(forall ((let Int)) p)", FaultKind::ReservedName),
    ("(forall ((v Bool)) p)", FaultKind::Unsupported),
    ("(let ((u w) (let x)) p)", FaultKind::UnknownName),
    ("(let ((let x) (u w)) p)", FaultKind::ReservedName),
    ("(f x y)", FaultKind::WrongCount),
    ("(f c)", FaultKind::WrongSort),
    ("(p)", FaultKind::BadForm),
    ("(* x w)", FaultKind::UnknownName),
    ("(* x y)", FaultKind::Unsupported),
    ("(ite p x y)", FaultKind::Unsupported),
    ("(ite p q)", FaultKind::WrongCount),
    ("(match x)", FaultKind::Unsupported),
    ("(not)", FaultKind::WrongCount),
    ("(f x)", FaultKind::WrongSort),
    ("()", FaultKind::BadForm),
    (":k", FaultKind::BadForm),
    ("1.5", FaultKind::Unsupported),
    ("(g 1 2)", FaultKind::WrongCount),
    ("(m)", FaultKind::BadForm),
    ("(two)", FaultKind::BadForm),
    ("(two 1)", FaultKind::WrongCount),
    ("m", FaultKind::WrongCount),
    ("(m p)", FaultKind::WrongSort),
    ("(exists ((v Int)) v)", FaultKind::WrongSort),
    (
        "(xor p (exists ((v Int)) (g v)))",
        FaultKind::QuantifierPlace,
    ),
    (
        "(ite (forall ((v Int)) (g v)) p q)",
        FaultKind::QuantifierPlace,
    ),
    ("(= x (- 9223372036854775808))", FaultKind::NumeralTooWide),
    ("(= 18446744073709551616 x)", FaultKind::NumeralTooWide),
    ("(= x (+ 9223372036854775807 1))", FaultKind::OffsetTooWide),
    ("(= (- x y) 576460752303423489)", FaultKind::OffsetTooWide),
    (
        "(forall ((v Int)) (= ((as const (Array Int Int)) v) a))",
        FaultKind::BoundArray,
    ),
    ("(let ((u x) (u y)) p)", FaultKind::Twice),
    ("(forall ((v Int) (w Int) (v Int)) p)", FaultKind::Twice),
    ("(exists ((@v Int)) p)", FaultKind::ReservedName),
    ("w", FaultKind::UnknownName),
    ("(w x)", FaultKind::UnknownName),
    ("((_ map w) t)", FaultKind::UnknownName),
];

#[test]
fn terms_mean_what_other_terms_spell_out(rt: HostRuntime) -> Result<(), Fail> {
    let names = defined(rt.alloc(), MACROS)?;
    for (text, other) in MEANINGS {
        assert!(rt; mean_one(rt.alloc(), &names, text, other), "{text}");
    }
    Ok(())
}

#[test]
fn terms_are_refused_for_their_first_fault(rt: HostRuntime) -> Result<(), Fail> {
    let names = defined(rt.alloc(), MACROS)?;
    for (text, kind) in REFUSALS {
        assert!(rt; is_refused(rt.alloc(), &names, text, *kind), "{text}");
    }
    Ok(())
}

/// `(=> p ... p)` with so many arguments, which is one deeper than it has arguments.
fn chain(alloc: Global, count: usize) -> Result<String, AllocError> {
    let mut text = String::new(alloc);
    text.push_str("(=>")?;
    for _argument in 0..count {
        text.push_str(" p")?;
    }
    text.push(')')?;
    Ok(text)
}

#[test]
fn terms_have_a_greatest_depth(rt: HostRuntime) -> Result<(), Fail> {
    let alloc = rt.alloc();
    let names = defined(alloc, "")?;
    let text = chain(alloc, 999)?;
    assert!(rt; meaning(alloc, &names, &text).is_ok());
    for count in [1000, 1001, 1200] {
        let text = chain(alloc, count)?;
        assert!(rt; is_refused(alloc, &names, &text, FaultKind::TooDeep));
    }
    Ok(())
}

#[test]
fn last_macro_of_a_chain_means_what_the_first_does(rt: HostRuntime) -> Result<(), Fail> {
    let mut macros = format!(in rt.alloc(); "(define-fun m0 () Bool (exists ((v Int)) (g v)))")?;
    for number in 0..1000 {
        let next = number + 1;
        let text = format!(in rt.alloc(); "(define-fun m{next} () Bool m{number})")?;
        macros.push_str(text.as_str())?;
    }
    let names = defined(rt.alloc(), macros.as_str())?;
    assert!(rt; mean_one(rt.alloc(), &names, "m1000", "(exists ((w Int)) (g w))"));
    Ok(())
}
