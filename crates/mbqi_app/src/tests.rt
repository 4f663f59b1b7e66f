//! What no clause says: worked scripts with their answers, the lines on `err`, the list of the reserved words,
//! and that a call succeeds where memory is ample.

ghost use Rattle.std.specs.Prelude.{◌≡◌, ◌<◌};
ghost use Rattle.element_atoms.specs.Profile.{IsElementary};

mod examples;
mod scripts;

use crate::tests::scripts::Case;
use crate::{Journal, Outcome, run, solve_rules};
use first_profile::is_elementary;
use mbqi_edge::{MemoryShelf, MemorySink};
use mbqi_terms::Script;
use mbqi_values::{FaultKind, Numbers, Refusal, Status, Steps, Text, Texts};
use smtlib_decls::read_text;
use std::alloc::{AllocError, Global};
use std::marker::Brand;
use std::process::Abort;
use std::sync::ledger::{Blank, Ledger};
use std::test::Fail;

/// The one file of the shelves here, and the words that ask for it.
const FILE: &str = "script";

const SOLVE: &str = "solve script";

const PRINT: &str = "print script";

/// Room for each text of these tests.
const AMPLE: usize = 4000;

/// A script without anything but the question, and its answer.
const QUESTION: &str = "(check-sat)";

const EMPTY_MODEL: &str = "sat\n(model 1\n)\n";

/// A script with each declaration: two constants, so three elements, each of them a knot of each argument.
const DECLARATIONS: &str = "; one sort
(declare-sort S 0)
(declare-const c S)
(declare-fun p (S) Bool)
(declare-const d S)
(declare-fun q (S S) Bool)
(check-sat)
";

const DECLARED_MODEL: &str = "sat
(model 1
(sort S 3)
(fun c () () @0)
(fun p ((@0 @1 @2)) () false)
(fun d () () @1)
(fun q ((@0 @1 @2) (@0 @1 @2)) () false)
)
";

/// The words that SMT-LIB 2.6 reserves, those of its commands, and the symbols of the theories Core, Ints and
/// ArraysEx, written down a second time.
const RESERVED: &str = "_ ! as let exists forall match par BINARY DECIMAL HEXADECIMAL NUMERAL STRING
    set-logic set-info set-option get-model get-info get-unsat-core echo declare-sort declare-const declare-fun
    define-fun assert check-sat exit define-sort declare-datatypes get-value get-proof check-sat-assuming reset
    push pop true false not and or xor ite distinct select store default Int Bool Array div mod abs
    => = + - * <= < >= >";

/// What a call of `run` gave, and what it left.
#[derive(Drop)]
struct Call {
    status: Status,
    out: MemorySink,
    err: MemorySink,
}

/// A list of one text.
fn list_of(alloc: Global, text: &str) -> Result<Texts, AllocError> {
    let mut texts = Texts::new(alloc);
    texts.push(Text::from_slice(alloc, text.as_bytes())?)?;
    Ok(texts)
}

/// A shelf of one file, whose listed calls fail.
fn shelf_of(alloc: Global, script: &str, failing: &[usize]) -> Result<MemoryShelf, AllocError> {
    let names = list_of(alloc, FILE)?;
    let files = list_of(alloc, script)?;
    let failing = Numbers::from_slice(alloc, failing)?;
    Ok(MemoryShelf::new(alloc, names, files, failing))
}

/// A sink of a few bytes a call.
fn sink_of(alloc: Global, capacity: usize) -> Result<MemorySink, AllocError> {
    MemorySink::new(alloc, capacity, 7, Numbers::new(alloc))
}

fn words_of(alloc: Global, line: &str) -> Result<Vec<String>, AllocError> {
    let mut words = Vec::new(alloc);
    for word in line.split_whitespace() {
        push_word(alloc, word, &mut words)?;
    }
    Ok(words)
}

fn push_word(alloc: Global, word: &str, words: &mut Vec<String>) -> Result<(), AllocError> {
    words.push(String::from_str(alloc, word)?)?;
    Ok(())
}

/// `run` with a counter of its own.
fn run_counted<L: Ledger>(
    alloc: Global,
    words: &[String],
    shelf: &mut MemoryShelf,
    out: &mut MemorySink,
    err: &mut MemorySink,
    blank: Blank,
) -> Status
    requires name { blank.name ≡ L.name }
    requires parts { blank.parts ≡ L.parts }
    requires some { 0 < blank.parts }
{
    let mut steps = Steps::<L>::new(blank);
    run(alloc, words, shelf, out, err, &mut steps)
}

/// `run` with these words, over a shelf of one file whose listed calls fail, and an `out` of this capacity.
fn call_run(
    alloc: Global,
    words: &str,
    script: &str,
    failing: &[usize],
    capacity: usize,
) -> Result<Call, AllocError> {
    let words = words_of(alloc, words)?;
    let mut shelf = shelf_of(alloc, script, failing)?;
    let mut out = sink_of(alloc, capacity)?;
    let mut err = sink_of(alloc, AMPLE)?;
    let status = run_counted::<Brand>(
        alloc,
        words.as_slice(),
        &mut shelf,
        &mut out,
        &mut err,
        Blank::new(1),
    );
    Ok(Call { status, out, err })
}

/// Asserts how a call ended: its status, and what `out` and `err` took.
fn assert_ended(rt: &impl Abort, call: &Call, status: Status, taken: &str, told: &str) {
    assert_eq!(rt; call.out.taken(), taken.as_bytes());
    assert_eq!(rt; call.err.taken(), told.as_bytes());
    assert_eq!(rt; call.status, status);
}

#[test]
fn scripts_have_models(rt: HostRuntime) -> Result<(), Fail> {
    let alloc = rt.alloc();
    let rows = [
        (QUESTION, EMPTY_MODEL),
        ("", EMPTY_MODEL),
        (DECLARATIONS, DECLARED_MODEL),
        ("(declare-sort S 0)", "sat\n(model 1\n(sort S 1)\n)\n"),
    ];
    for (script, model) in rows {
        let call = call_run(alloc, SOLVE, script, &[], AMPLE)?;
        assert_ended(&rt, &call, Status::Sat, model, "");
    }
    Ok(())
}

/// The scripts with assertions.
const DECIDED: [&Case; 25] = [
    &scripts::CONTRADICTING_UNITS,
    &scripts::BROKEN_CHAIN,
    &scripts::CHAIN,
    &scripts::PIGEONS,
    &scripts::TWO_PIGEONS,
    &scripts::TWICE,
    &scripts::PAIRS,
    &scripts::SPREAD,
    &scripts::ONE_RULE,
    &scripts::ONE_INSTANCE,
    &scripts::NO_CONSTANTS,
    &scripts::SYMMETRIC,
    &scripts::JOINED,
    &scripts::TORN,
    &scripts::THREE_RULES,
    &scripts::INNER_NAME,
    &scripts::OTHER_FORMS,
    &scripts::BETWEEN_BARS,
    &examples::ROUND_TABLE,
    &examples::COLOURING,
    &examples::LOCK_CYCLE,
    &examples::REACHABLE,
    &examples::ACCESS_RULE,
    &examples::OVERTAKING,
    &examples::BETA_TEST,
];

#[test]
fn assertions_are_decided(rt: HostRuntime) -> Result<(), Fail> {
    let alloc = rt.alloc();
    for case in DECIDED {
        let call = call_run(alloc, SOLVE, case.script, &[], AMPLE)?;
        let status = if case.answer.starts_with("sat") {
            Status::Sat
        } else {
            Status::Unsat
        };
        assert_ended(&rt, &call, status, case.answer, "");
    }
    Ok(())
}

const UNWRITTEN: &str = "mbqi: the answer cannot be written\n";

const UNREAD: &str = "mbqi: the file cannot be read\n";

/// Words, a script, the calls of the shelf that fail, and the capacity of `out`; and then the status, and what `out` and `err` took. The
/// answers go into a sink of ten bytes, the shelf fails at once, and a file isn't there.
const FAULTS: [(&str, &str, &[usize], usize, Status, &str, &str); 5] = [
    (
        SOLVE,
        QUESTION,
        &[],
        10,
        Status::WriteFault,
        "sat\n(model",
        UNWRITTEN,
    ),
    (
        PRINT,
        DEFINED,
        &[],
        10,
        Status::WriteFault,
        "(declare-f",
        UNWRITTEN,
    ),
    (SOLVE, QUESTION, &[0], AMPLE, Status::ReadFault, "", UNREAD),
    (PRINT, DEFINED, &[0], AMPLE, Status::ReadFault, "", UNREAD),
    (
        "solve other",
        QUESTION,
        &[],
        AMPLE,
        Status::ReadFault,
        "",
        UNREAD,
    ),
];

#[test]
fn faults_have_their_lines(rt: HostRuntime) -> Result<(), Fail> {
    let alloc = rt.alloc();
    for (words, script, failing, capacity, status, taken, told) in FAULTS {
        let call = call_run(alloc, words, script, failing, capacity)?;
        assert_ended(&rt, &call, status, taken, told);
    }
    Ok(())
}

const NO_COMMAND: &str = "mbqi: these words are no command\n";

/// Words and a script that are refused, with their status and line.
const REFUSED: [(&str, &str, Status, &str); 6] = [
    ("solve", QUESTION, Status::Words, NO_COMMAND),
    ("solve --depth 65 f", QUESTION, Status::Words, NO_COMMAND),
    ("solve --depth 02 f", QUESTION, Status::Words, NO_COMMAND),
    ("make sorted 0", QUESTION, Status::Words, NO_COMMAND),
    (
        SOLVE,
        "(declare-const x Int)(assert (<= x 9223372036854775808))",
        Status::ScriptRefused(Refusal {
            at: 21,
            kind: FaultKind::NumeralTooWide,
        }),
        "mbqi: refused at 21: NumeralTooWide\n",
    ),
    (
        PRINT,
        "(assert (p",
        Status::ScriptRefused(Refusal {
            at: 0,
            kind: FaultKind::Unclosed,
        }),
        "mbqi: refused at 0: Unclosed\n",
    ),
];

#[test]
fn refusals_have_their_lines(rt: HostRuntime) -> Result<(), Fail> {
    let alloc = rt.alloc();
    for (words, script, status, told) in REFUSED {
        let call = call_run(alloc, words, script, &[], AMPLE)?;
        assert_ended(&rt, &call, status, "", told);
    }
    Ok(())
}

// With `rt try --test --fail-alloc N` an allocation fails: there is the whole answer, or nothing but the line.
#[test]
fn want_of_memory_takes_nothing(rt: HostRuntime) -> Result<(), Fail> {
    let alloc = rt.alloc();
    let call = call_run(alloc, SOLVE, DECLARATIONS, &[], AMPLE)?;
    if call.status == Status::Memory {
        assert_ended(&rt, &call, Status::Memory, "", "mbqi: out of memory\n");
    } else {
        assert_ended(&rt, &call, Status::Sat, DECLARED_MODEL, "");
    }
    Ok(())
}

/// Asserts that `run` refuses the script at this place and with this kind.
fn assert_refused(
    rt: &impl Abort,
    alloc: Global,
    words: &str,
    script: &str,
    at: usize,
    kind: FaultKind,
) -> Result<(), AllocError> {
    let call = call_run(alloc, words, script, &[], AMPLE)?;
    let refused = Status::ScriptRefused(Refusal { at, kind });
    assert_eq!(rt; call.status, refused, "{script}");
    Ok(())
}

/// Texts that mean no script, with the places and kinds of their first faults. The first form without a meaning is refused at its first
/// byte: the second of two forms behind a sort stands at 37 or 42, and one behind a constant and a predicate at 61.
const FAULTY: [(&str, usize, FaultKind); 30] = [
    ("(declare-const c S)", 0, FaultKind::UnknownName),
    ("(declare-sort S 1)", 0, FaultKind::Unsupported),
    ("(declare-sort S)", 0, FaultKind::BadForm),
    ("(declare-sort \"S\" 0)", 0, FaultKind::BadForm),
    ("(declare-sort @S 0)", 0, FaultKind::ReservedName),
    ("(declare-sort .S 0)", 0, FaultKind::ReservedName),
    (
        "(declare-sort S 0)(declare-const c S)(declare-const c S)",
        37,
        FaultKind::Twice,
    ),
    (
        "(declare-sort S 0)(declare-const c S)(assert (c))",
        37,
        FaultKind::BadForm,
    ),
    (
        "(declare-sort S 0)(declare-fun p (S) Bool)(assert (forall ((p S)) (p p)))",
        42,
        FaultKind::WrongCount,
    ),
    (
        "(declare-sort S 0)(declare-const c S)(declare-fun p (S) Bool)(assert (p d))",
        61,
        FaultKind::UnknownName,
    ),
    (
        "(declare-sort S 0)(declare-const c S)(declare-fun p (S) Bool)(assert (p p))",
        61,
        FaultKind::WrongCount,
    ),
    (
        "(declare-sort S 0)(declare-const c S)(declare-fun p (S) Bool)(assert c)",
        61,
        FaultKind::WrongSort,
    ),
    (
        "(declare-sort S 0)(declare-const c S)(declare-fun p (S) Bool)(assert (p c) (p c))",
        61,
        FaultKind::BadForm,
    ),
    (
        "(declare-sort S 0)\n; (assert p)\n(assert q)",
        32,
        FaultKind::UnknownName,
    ),
    ("(declare-sort S 0)(push 1)", 18, FaultKind::Unsupported),
    ("(check-sat 0)", 0, FaultKind::BadForm),
    ("(check-sat)(check-sat)", 11, FaultKind::Unsupported),
    ("(check-sat)(declare-sort S 0)", 11, FaultKind::Unsupported),
    ("(check-sat)(assert 3)", 11, FaultKind::Unsupported),
    ("(assert (! 3 :named a))", 0, FaultKind::WrongSort),
    (
        "(assert (! true :named a))(assert (! 3 :named a))",
        26,
        FaultKind::Twice,
    ),
    (
        "(declare-const x Int)(assert (<= x 9223372036854775808))",
        21,
        FaultKind::NumeralTooWide,
    ),
    (
        "(declare-sort S 0)(declare-const a (Array S Int))(assert (= (default a) 0))",
        49,
        FaultKind::Unsupported,
    ),
    (
        "(declare-const b (Array Int Int))(assert (forall ((i Int)) (= b (store b i 0))))",
        33,
        FaultKind::BoundArray,
    ),
    ("(assert (p", 0, FaultKind::Unclosed),
    ("check-sat", 0, FaultKind::BadForm),
    ("()", 0, FaultKind::BadForm),
    ("(check-sat", 0, FaultKind::Unclosed),
    ("(check-sat))", 11, FaultKind::Unopened),
    ("#(check-sat)", 0, FaultKind::BadByte),
];

#[test]
fn faulty_scripts_are_refused_at_their_place(rt: HostRuntime) -> Result<(), Fail> {
    let alloc = rt.alloc();
    for (script, at, kind) in FAULTY {
        assert_refused(&rt, alloc, SOLVE, script, at, kind)?;
        assert_refused(&rt, alloc, PRINT, script, at, kind)?;
    }
    Ok(())
}

/// Adds so many applications of a word around x.
fn push_around(word: &str, count: usize, text: &mut String) -> Result<(), AllocError> {
    for _application in 0..count {
        text.push('(')?;
        text.push_str(word)?;
        text.push(' ')?;
    }
    text.push('x')?;
    for _application in 0..count {
        text.push(')')?;
    }
    Ok(())
}

/// Adds definitions: `(t x)` is 27 times so many applications of `f` around x, and so one deeper than these, and `q` an implication of
/// so many formulas, the last one with a quantifier, which is one deeper than they are many.
fn push_deep(applications: usize, formulas: usize, text: &mut String) -> Result<(), AllocError> {
    text.push_str(
        "(declare-fun f (Int) Int)(declare-const c Int)(declare-const a (Array Int Int))",
    )?;
    text.push_str("(define-fun g ((x Int)) Int ")?;
    push_around("f", 27, text)?;
    text.push_str(")(define-fun t ((x Int)) Int ")?;
    push_around("g", applications, text)?;
    text.push_str(")(define-fun q () Bool (=>")?;
    for _formula in 1..formulas {
        text.push_str(" true")?;
    }
    text.push_str(" (forall ((i Int)) true)))")
}

/// Asserts that an assertion behind such definitions is refused, at its place.
fn assert_refused_behind(
    rt: &impl Abort,
    alloc: Global,
    applications: usize,
    formulas: usize,
    asserted: &str,
    kind: FaultKind,
) -> Result<(), AllocError> {
    let mut text = String::new(alloc);
    push_deep(applications, formulas, &mut text)?;
    let at = text.len();
    text.push_str(asserted)?;
    assert_refused(rt, alloc, PRINT, &text, at, kind)
}

/// Assertions with a fault of the node around `t` or `q`.
const DEEP: [(&str, FaultKind); 6] = [
    (
        "(assert (<= c (+ (t c) 576460752303423489)))",
        FaultKind::OffsetTooWide,
    ),
    (
        "(assert (<= (- c (t c)) 576460752303423489))",
        FaultKind::OffsetTooWide,
    ),
    ("(assert (= q q))", FaultKind::QuantifierPlace),
    ("(assert (ite q true false))", FaultKind::QuantifierPlace),
    (
        "(assert (forall ((x Int)) (= a (store a (t x) 0))))",
        FaultKind::BoundArray,
    ),
    (
        "(assert (forall ((x Int)) (= a ((as const (Array Int Int)) (t x)))))",
        FaultKind::BoundArray,
    ),
];

// Where `t` and `q` are 1,000 deep, the node around them is too deep. With 27 applications and one formula less the other fault counts.
#[test]
fn depth_is_judged_before_other_faults_of_a_node(rt: HostRuntime) -> Result<(), Fail> {
    let alloc = rt.alloc();
    for (asserted, kind) in DEEP {
        assert_refused_behind(&rt, alloc, 37, 999, asserted, FaultKind::TooDeep)?;
        assert_refused_behind(&rt, alloc, 36, 998, asserted, kind)?;
    }
    Ok(())
}

// Integers, two sorts, no sort, a function that is no predicate, a negation of a negation, a conjunction, an equality, and an existential
// variable.
#[test]
fn scripts_outside_the_profile_are_refused(rt: HostRuntime) -> Result<(), Fail> {
    let alloc = rt.alloc();
    let scripts = [
        "(declare-const x Int)",
        "(declare-sort S 0)(declare-sort T 0)",
        "(declare-fun p () Bool)(assert p)",
        "(declare-sort S 0)(declare-fun f (S) S)",
        "(declare-sort S 0)(declare-fun p () Bool)(assert (not (not p)))",
        "(declare-sort S 0)(declare-fun p () Bool)(assert (and p p))",
        "(declare-sort S 0)(declare-const c S)(assert (= c c))",
        "(declare-sort S 0)(declare-fun p (S) Bool)(assert (exists ((x S)) (p x)))",
    ];
    for script in scripts {
        assert_refused(&rt, alloc, SOLVE, script, 0, FaultKind::Unsupported)?;
    }
    Ok(())
}

#[test]
fn reserved_words_are_no_names(rt: HostRuntime) -> Result<(), Fail> {
    let alloc = rt.alloc();
    for word in RESERVED.split_whitespace() {
        let script = format!(in alloc; "(declare-sort {word} 0)")?;
        assert_refused(&rt, alloc, SOLVE, &script, 0, FaultKind::ReservedName)?;
    }
    Ok(())
}

/// A script with a macro and a `let`, and its text.
const DEFINED: &str = "(declare-fun f (Int) Int)
(define-fun g ((x Int)) Bool (< (f x) 3))
(assert (forall ((y Int)) (let ((z (- y 1))) (g z))))
(check-sat)";

const DEFINED_TEXT: &str = "(declare-fun f (Int) Int)
(assert (forall ((?0 Int)) (not (<= 3 (f (+ ?0 (- 1)))))))
(check-sat)
";

/// A script in which a macro, a `let` and a quantifier bind names anew, beside a constant with the name of a variable, and its text.
const SHADOWED: &str = "(declare-sort S 0)
(declare-const ?0 S)
(declare-fun p (S S) Bool)
(define-fun q ((x S)) Bool (forall ((y S)) (p x y)))
(assert (! (let ((x ?0) (y ?0)) (forall ((x S)) (or (p x y) (q x)))) :named shadowed))
(check-sat)";

const SHADOWED_TEXT: &str = "(declare-sort S 0)
(declare-fun ?0 () S)
(declare-fun p (S S) Bool)
(assert (! (forall ((??0 S)) (or (p ??0 ?0) (forall ((??1 S)) (p ??0 ??1)))) :named shadowed))
(check-sat)
";

/// What lies outside the first profile is printed all the same, and a text is its own text.
const PRINTED: [(&str, &str); 6] = [
    ("", ""),
    (DEFINED, DEFINED_TEXT),
    (DEFINED_TEXT, DEFINED_TEXT),
    (SHADOWED, SHADOWED_TEXT),
    (SHADOWED_TEXT, SHADOWED_TEXT),
    (
        "(assert (distinct 1 2 3))",
        "(assert (and (not (= 1 2)) (not (= 1 3)) (not (= 2 3))))\n",
    ),
];

#[test]
fn scripts_are_printed(rt: HostRuntime) -> Result<(), Fail> {
    let alloc = rt.alloc();
    for (script, text) in PRINTED {
        let call = call_run(alloc, PRINT, script, &[], AMPLE)?;
        assert_ended(&rt, &call, Status::Done, text, "");
    }
    Ok(())
}

/// Whether the rounds add so many choices, one after the other.
fn are_added(journal: &Journal, added: &[usize]) -> bool {
    let rounds = journal.as_slice();
    for (round, count) in rounds.iter().zip(added) {
        if round.added.len() != *count {
            return false;
        }
    }
    rounds.len() == added.len()
}

/// Whether the rounds of the answer to a script add so many choices, with a counter of its own. It says no too where memory runs out.
fn adds<L: Ledger>(alloc: Global, script: &Script, added: &[usize], blank: Blank) -> bool
    requires elementary { IsElementary script.now }
    requires name { blank.name ≡ L.name }
    requires parts { blank.parts ≡ L.parts }
    requires some { 0 < blank.parts }
{
    let mut steps = Steps::<L>::new(blank);
    match solve_rules(alloc, script, &mut steps) {
        Ok(Outcome::Sat(_, journal)) => are_added(&journal, added),
        Ok(Outcome::Unsat(_, journal)) => are_added(&journal, added),
        Err(_) => false,
    }
}

/// The same for a text. It says no too where the text is refused.
fn text_adds(alloc: Global, text: &str, added: &[usize]) -> bool {
    match read_text(alloc, text.as_bytes()) {
        Ok(script) => is_elementary(&script) && adds::<Brand>(alloc, &script, added, Blank::new(1)),
        Err(_) => false,
    }
}

#[test]
fn rounds_add_the_instances_that_fail(rt: HostRuntime) -> Result<(), Fail> {
    let alloc = rt.alloc();
    let rows: [(&Case, &[usize]); 4] = [
        (&scripts::ONE_INSTANCE, &[2]),
        (&scripts::THREE_RULES, &[2, 1, 0]),
        (&scripts::TORN, &[3]),
        (&scripts::NO_CONSTANTS, &[1, 1]),
    ];
    for (case, added) in rows {
        assert!(rt; text_adds(alloc, case.script, added), "{}", case.script);
    }
    Ok(())
}
