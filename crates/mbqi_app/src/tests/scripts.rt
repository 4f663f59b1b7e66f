//! Scripts with assertions and their answers, made by hand.

/// A script and its answer, whole.
pub struct Case {
    pub script: &'static str,
    pub answer: &'static str,
}

/// An atom and its negation.
pub const CONTRADICTING_UNITS: Case = Case {
    script: "(declare-sort S 0)
(declare-const c S)
(declare-fun p (S) Bool)
(assert (p c))
(assert (not (p c)))
(check-sat)
",
    answer: "unsat
(refutation 1
(instance 0 () (p c))
(instance 1 () (not (p c)))
)
",
};

/// A chain of implications whose end is denied.
pub const BROKEN_CHAIN: Case = Case {
    script: "(declare-sort S 0)
(declare-const c S)
(declare-fun p (S) Bool)
(declare-fun q (S) Bool)
(declare-fun r (S) Bool)
(assert (p c))
(assert (or (not (p c)) (q c)))
(assert (or (not (q c)) (r c)))
(assert (not (r c)))
(check-sat)
",
    answer: "unsat
(refutation 1
(instance 0 () (p c))
(instance 1 () (or (not (p c)) (q c)))
(instance 2 () (or (not (q c)) (r c)))
(instance 3 () (not (r c)))
)
",
};

/// The same chain without the denial.
pub const CHAIN: Case = Case {
    script: "(declare-sort S 0)
(declare-const c S)
(declare-fun p (S) Bool)
(declare-fun q (S) Bool)
(declare-fun r (S) Bool)
(assert (p c))
(assert (or (not (p c)) (q c)))
(assert (or (not (q c)) (r c)))
(check-sat)
",
    answer: "sat
(model 1
(sort S 2)
(fun c () () @0)
(fun p ((@0 @1)) (((@0) true)) false)
(fun q ((@0 @1)) (((@0) true)) false)
(fun r ((@0 @1)) (((@0) true)) false)
)
",
};

/// Three pigeons in two holes.
pub const PIGEONS: Case = Case {
    script: "(declare-sort S 0)
(declare-const a S)
(declare-const b S)
(declare-const c S)
(declare-fun first (S) Bool)
(declare-fun second (S) Bool)
(assert (or (first a) (second a)))
(assert (or (first b) (second b)))
(assert (or (first c) (second c)))
(assert (or (not (first a)) (not (first b))))
(assert (or (not (first a)) (not (first c))))
(assert (or (not (first b)) (not (first c))))
(assert (or (not (second a)) (not (second b))))
(assert (or (not (second a)) (not (second c))))
(assert (or (not (second b)) (not (second c))))
(check-sat)
",
    answer: "unsat
(refutation 1
(instance 0 () (or (first a) (second a)))
(instance 1 () (or (first b) (second b)))
(instance 2 () (or (first c) (second c)))
(instance 3 () (or (not (first a)) (not (first b))))
(instance 4 () (or (not (first a)) (not (first c))))
(instance 5 () (or (not (first b)) (not (first c))))
(instance 6 () (or (not (second a)) (not (second b))))
(instance 7 () (or (not (second a)) (not (second c))))
(instance 8 () (or (not (second b)) (not (second c))))
)
",
};

/// Two pigeons in two holes, one of them placed.
pub const TWO_PIGEONS: Case = Case {
    script: "(declare-sort S 0)
(declare-const a S)
(declare-const b S)
(declare-fun first (S) Bool)
(declare-fun second (S) Bool)
(assert (or (first a) (second a)))
(assert (or (first b) (second b)))
(assert (or (not (first a)) (not (first b))))
(assert (or (not (second a)) (not (second b))))
(assert (first a))
(check-sat)
",
    answer: "sat
(model 1
(sort S 3)
(fun a () () @0)
(fun b () () @1)
(fun first ((@0 @1 @2)) (((@0) true) ((@1) false)) false)
(fun second ((@0 @1 @2)) (((@0) false) ((@1) true)) false)
)
",
};

/// One assertion twice, and a predicate that is never asserted.
pub const TWICE: Case = Case {
    script: "(declare-sort S 0)
(declare-const c S)
(declare-fun p (S) Bool)
(declare-fun q (S S) Bool)
(assert (p c))
(assert (p c))
(check-sat)
",
    answer: "sat
(model 1
(sort S 2)
(fun c () () @0)
(fun p ((@0 @1)) (((@0) true)) false)
(fun q ((@0 @1) (@0 @1)) () false)
)
",
};

/// Atoms of two arguments, which come in another order than the rows.
pub const PAIRS: Case = Case {
    script: "(declare-sort S 0)
(declare-const c S)
(declare-const d S)
(declare-fun r (S S) Bool)
(assert (r d c))
(assert (not (r c d)))
(assert (r c c))
(check-sat)
",
    answer: "sat
(model 1
(sort S 3)
(fun c () () @0)
(fun d () () @1)
(fun r ((@0 @1 @2) (@0 @1 @2)) (((@0 @0) true) ((@0 @1) false) ((@1 @0) true)) false)
)
",
};

/// Twenty constants and forty clauses: one predicate spreads, and the other is denied backwards.
pub const SPREAD: Case = Case {
    script: "(declare-sort S 0)
(declare-const c0 S)
(declare-const c1 S)
(declare-const c2 S)
(declare-const c3 S)
(declare-const c4 S)
(declare-const c5 S)
(declare-const c6 S)
(declare-const c7 S)
(declare-const c8 S)
(declare-const c9 S)
(declare-const c10 S)
(declare-const c11 S)
(declare-const c12 S)
(declare-const c13 S)
(declare-const c14 S)
(declare-const c15 S)
(declare-const c16 S)
(declare-const c17 S)
(declare-const c18 S)
(declare-const c19 S)
(declare-fun p (S) Bool)
(declare-fun q (S) Bool)
(assert (p c0))
(assert (or (not (p c0)) (p c1)))
(assert (or (not (p c1)) (p c2)))
(assert (or (not (p c2)) (p c3)))
(assert (or (not (p c3)) (p c4)))
(assert (or (not (p c4)) (p c5)))
(assert (or (not (p c5)) (p c6)))
(assert (or (not (p c6)) (p c7)))
(assert (or (not (p c7)) (p c8)))
(assert (or (not (p c8)) (p c9)))
(assert (or (not (p c9)) (p c10)))
(assert (or (not (p c10)) (p c11)))
(assert (or (not (p c11)) (p c12)))
(assert (or (not (p c12)) (p c13)))
(assert (or (not (p c13)) (p c14)))
(assert (or (not (p c14)) (p c15)))
(assert (or (not (p c15)) (p c16)))
(assert (or (not (p c16)) (p c17)))
(assert (or (not (p c17)) (p c18)))
(assert (or (not (p c18)) (p c19)))
(assert (not (q c19)))
(assert (or (q c1) (not (q c0))))
(assert (or (q c2) (not (q c1))))
(assert (or (q c3) (not (q c2))))
(assert (or (q c4) (not (q c3))))
(assert (or (q c5) (not (q c4))))
(assert (or (q c6) (not (q c5))))
(assert (or (q c7) (not (q c6))))
(assert (or (q c8) (not (q c7))))
(assert (or (q c9) (not (q c8))))
(assert (or (q c10) (not (q c9))))
(assert (or (q c11) (not (q c10))))
(assert (or (q c12) (not (q c11))))
(assert (or (q c13) (not (q c12))))
(assert (or (q c14) (not (q c13))))
(assert (or (q c15) (not (q c14))))
(assert (or (q c16) (not (q c15))))
(assert (or (q c17) (not (q c16))))
(assert (or (q c18) (not (q c17))))
(assert (or (q c19) (not (q c18))))
(check-sat)
",
    answer: "sat
(model 1
(sort S 21)
(fun c0 () () @0)
(fun c1 () () @1)
(fun c2 () () @2)
(fun c3 () () @3)
(fun c4 () () @4)
(fun c5 () () @5)
(fun c6 () () @6)
(fun c7 () () @7)
(fun c8 () () @8)
(fun c9 () () @9)
(fun c10 () () @10)
(fun c11 () () @11)
(fun c12 () () @12)
(fun c13 () () @13)
(fun c14 () () @14)
(fun c15 () () @15)
(fun c16 () () @16)
(fun c17 () () @17)
(fun c18 () () @18)
(fun c19 () () @19)
(fun p ((@0 @1 @2 @3 @4 @5 @6 @7 @8 @9 @10 @11 @12 @13 @14 @15 @16 @17 @18 @19 @20)) (((@0) true) ((@1) true) ((@2) true) ((@3) true) ((@4) true) ((@5) true) ((@6) true) ((@7) true) ((@8) true) ((@9) true) ((@10) true) ((@11) true) ((@12) true) ((@13) true) ((@14) true) ((@15) true) ((@16) true) ((@17) true) ((@18) true) ((@19) true)) false)
(fun q ((@0 @1 @2 @3 @4 @5 @6 @7 @8 @9 @10 @11 @12 @13 @14 @15 @16 @17 @18 @19 @20)) (((@0) false) ((@1) false) ((@2) false) ((@3) false) ((@4) false) ((@5) false) ((@6) false) ((@7) false) ((@8) false) ((@9) false) ((@10) false) ((@11) false) ((@12) false) ((@13) false) ((@14) false) ((@15) false) ((@16) false) ((@17) false) ((@18) false) ((@19) false)) false)
)
",
};

/// A rule, whose instances make the predicate true of both elements.
pub const ONE_RULE: Case = Case {
    script: "(declare-sort S 0)
(declare-const c S)
(declare-fun p (S) Bool)
(assert (forall ((x S)) (p x)))
(check-sat)
",
    answer: "sat
(model 1
(sort S 2)
(fun c () () @0)
(fun p ((@0 @1)) (((@0) true) ((@1) true)) false)
)
",
};

/// A rule that a constant breaks.
pub const ONE_INSTANCE: Case = Case {
    script: "(declare-sort S 0)
(declare-fun p (S) Bool)
(declare-const c S)
(assert (forall ((x S)) (p x)))
(assert (not (p c)))
(check-sat)
",
    answer: "unsat
(refutation 1
(instance 1 () (not (p c)))
(instance 0 (c) (p c))
(instance 0 ((@seed S)) (p (@seed S)))
)
",
};

/// Two rules that no element meets, named or not.
pub const NO_CONSTANTS: Case = Case {
    script: "(declare-sort S 0)
(declare-fun p (S) Bool)
(assert (forall ((x S)) (p x)))
(assert (forall ((y S)) (not (p y))))
(check-sat)
",
    answer: "unsat
(refutation 1
(instance 0 ((@seed S)) (p (@seed S)))
(instance 1 ((@seed S)) (not (p (@seed S))))
)
",
};

/// A rule over two variables, whose one false instance is enough.
pub const SYMMETRIC: Case = Case {
    script: "(declare-sort S 0)
(declare-const a S)
(declare-const b S)
(declare-fun r (S S) Bool)
(assert (forall ((x S) (y S)) (or (not (r x y)) (r y x))))
(assert (r a b))
(assert (not (r b a)))
(check-sat)
",
    answer: "unsat
(refutation 1
(instance 1 () (r a b))
(instance 2 () (not (r b a)))
(instance 0 (a b) (or (not (r a b)) (r b a)))
)
",
};

/// A symmetric and transitive relation, which joins three constants and nothing else.
pub const JOINED: Case = Case {
    script: "(declare-sort S 0)
(declare-const a S)
(declare-const b S)
(declare-const c S)
(declare-fun r (S S) Bool)
(assert (forall ((x S) (y S)) (or (not (r x y)) (r y x))))
(assert (forall ((x S) (y S) (z S)) (or (not (r x y)) (not (r y z)) (r x z))))
(assert (r a b))
(assert (r b c))
(check-sat)
",
    answer: "sat
(model 1
(sort S 4)
(fun a () () @0)
(fun b () () @1)
(fun c () () @2)
(fun r ((@0 @1 @2 @3) (@0 @1 @2 @3)) (((@0 @0) true) ((@0 @1) true) ((@0 @2) true) ((@1 @0) true) ((@1 @1) true) ((@1 @2) true) ((@2 @0) true) ((@2 @1) true) ((@2 @2) true)) false)
)
",
};

/// The same relation, where two of the constants are to stay apart.
pub const TORN: Case = Case {
    script: "(declare-sort S 0)
(declare-const a S)
(declare-const b S)
(declare-const c S)
(declare-fun r (S S) Bool)
(assert (forall ((x S) (y S)) (or (not (r x y)) (r y x))))
(assert (forall ((x S) (y S) (z S)) (or (not (r x y)) (not (r y z)) (r x z))))
(assert (r a b))
(assert (r b c))
(assert (not (r a c)))
(check-sat)
",
    answer: "unsat
(refutation 1
(instance 2 () (r a b))
(instance 3 () (r b c))
(instance 4 () (not (r a c)))
(instance 0 (a b) (or (not (r a b)) (r b a)))
(instance 0 (b c) (or (not (r b c)) (r c b)))
(instance 1 (a b c) (or (not (r a b)) (not (r b c)) (r a c)))
)
",
};

/// Three rules, the last of which fails first where the other two have been met.
pub const THREE_RULES: Case = Case {
    script: "(declare-sort S 0)
(declare-const a S)
(declare-fun p (S) Bool)
(declare-fun q (S) Bool)
(declare-fun r (S) Bool)
(declare-fun s (S) Bool)
(assert (p a))
(assert (forall ((x S)) (or (not (p x)) (q x))))
(assert (forall ((x S)) (or (not (p x)) (r x))))
(assert (forall ((x S)) (or (not (q x)) (not (r x)) (s x))))
(check-sat)
",
    answer: "sat
(model 1
(sort S 2)
(fun a () () @0)
(fun p ((@0 @1)) (((@0) true)) false)
(fun q ((@0 @1)) (((@0) true)) false)
(fun r ((@0 @1)) (((@0) true)) false)
(fun s ((@0 @1)) (((@0) true)) false)
)
",
};

/// A variable with a constant's name: the inner one counts.
pub const INNER_NAME: Case = Case {
    script: "(declare-sort S 0)
(declare-const x S)
(declare-const y S)
(declare-fun p (S) Bool)
(assert (forall ((x S)) (p x)))
(assert (not (p y)))
(check-sat)
",
    answer: "unsat
(refutation 1
(instance 1 () (not (p y)))
(instance 0 (x) (p x))
(instance 0 (y) (p y))
(instance 0 ((@seed S)) (p (@seed S)))
)
",
};

/// Clauses that are written otherwise: with labels, a macro, a `let`, `=>`, a predicate without arguments, names between bars, and commands
/// that are passed over.
pub const OTHER_FORMS: Case = Case {
    script: "(set-logic UF)
(declare-sort |the sort| 0)
(declare-fun c () |the sort|)
(declare-fun |is red| (|the sort|) Bool)
(declare-fun on () Bool)
(define-fun rule ((x |the sort|)) Bool (=> on (|is red| x)))
(assert (! (forall ((x |the sort|)) (let ((y x)) (rule y))) :named first))
(assert (or on))
(assert (! (not (|is red| c)) :named second))
(check-sat)
(get-model)
(exit)
",
    answer: "unsat
(refutation 1
(instance 1 () on)
(instance 2 () (not (|is red| c)))
(instance 0 (c) (or (not on) (|is red| c)))
(instance 0 ((@seed |the sort|)) (or (not on) (|is red| (@seed |the sort|))))
)
",
};

/// A sort, a constant and a predicate whose names stand between bars; the sort and the predicate have one name.
pub const BETWEEN_BARS: Case = Case {
    script: "(declare-sort |the sort| 0)
(declare-const |a b| |the sort|)
(declare-fun |the sort| (|the sort|) Bool)
(declare-fun on () Bool)
(assert on)
(assert (not (|the sort| |a b|)))
(check-sat)
",
    answer: "sat
(model 1
(sort |the sort| 2)
(fun |a b| () () @0)
(fun |the sort| ((@0 @1)) (((@0) false)) false)
(fun on () () true)
)
",
};
