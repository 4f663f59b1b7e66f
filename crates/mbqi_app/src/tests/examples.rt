//! The scripts of the folder examples/ with quantified assertions, and their answers, made by hand.

use crate::tests::scripts::Case;

/// A seating.
pub const ROUND_TABLE: Case = Case {
    script: "; A seating: whoever sits beside a guest has that guest beside them too, no one sits beside themselves, and no two hosts sit side by
; side. Ann hosts, and Bea and Carl sit beside her.
(declare-sort Guest 0)
(declare-const ann Guest)
(declare-const bea Guest)
(declare-const carl Guest)
(declare-fun beside (Guest Guest) Bool)
(declare-fun hosts (Guest) Bool)
(assert (forall ((x Guest) (y Guest)) (or (not (beside x y)) (beside y x))))
(assert (forall ((x Guest)) (not (beside x x))))
(assert (forall ((x Guest) (y Guest)) (or (not (beside x y)) (not (hosts x)) (not (hosts y)))))
(assert (hosts ann))
(assert (beside ann bea))
(assert (beside ann carl))
(check-sat)
",
    answer: "sat
(model 1
(sort Guest 4)
(fun ann () () @0)
(fun bea () () @1)
(fun carl () () @2)
(fun beside ((@0 @1 @2 @3) (@0 @1 @2 @3)) (((@0 @1) true) ((@0 @2) true) ((@1 @0) true) ((@2 @0) true)) false)
(fun hosts ((@0 @1 @2 @3)) (((@0) true)) false)
)
",
};

/// A colouring.
pub const COLOURING: Case = Case {
    script: "; A colouring: two towns border, and one of them is red. Each town is red or blue, and no two that border are of one colour.
(declare-sort Town 0)
(declare-const aston Town)
(declare-const burgh Town)
(declare-fun borders (Town Town) Bool)
(declare-fun red (Town) Bool)
(declare-fun blue (Town) Bool)
(assert (borders aston burgh))
(assert (red aston))
(assert (forall ((x Town)) (or (red x) (blue x))))
(assert (forall ((x Town) (y Town)) (or (not (borders x y)) (not (red x)) (not (red y)))))
(assert (forall ((x Town) (y Town)) (or (not (borders x y)) (not (blue x)) (not (blue y)))))
(check-sat)
",
    answer: "sat
(model 1
(sort Town 3)
(fun aston () () @0)
(fun burgh () () @1)
(fun borders ((@0 @1 @2) (@0 @1 @2)) (((@0 @1) true)) false)
(fun red ((@0 @1 @2)) (((@0) true) ((@1) false) ((@2) true)) false)
(fun blue ((@0 @1 @2)) (((@1) true) ((@2) false)) false)
)
",
};

/// A lock order that goes round.
pub const LOCK_CYCLE: Case = Case {
    script: "; A lock order: `before` is an order that goes round nowhere. One thread takes the log while it holds the disk, and another one the disk
; while it holds the log.
(declare-sort Lock 0)
(declare-const disk Lock)
(declare-const log Lock)
(declare-fun before (Lock Lock) Bool)
(assert (forall ((x Lock) (y Lock) (z Lock)) (or (not (before x y)) (not (before y z)) (before x z))))
(assert (forall ((x Lock)) (not (before x x))))
(assert (before disk log))
(assert (before log disk))
(check-sat)
",
    answer: "unsat
(refutation 1
(instance 2 () (before disk log))
(instance 3 () (before log disk))
(instance 0 (disk log disk) (or (not (before disk log)) (not (before log disk)) (before disk disk)))
(instance 0 (log disk log) (or (not (before log disk)) (not (before disk log)) (before log log)))
(instance 1 (disk) (not (before disk disk)))
(instance 1 (log) (not (before log log)))
)
",
};

/// A frame of reachable states.
pub const REACHABLE: Case = Case {
    script: "; A frame of reachable states: the start is reachable, and so is what a step leads to from there. The error isn't, which a model shows: no
; steps lead to it.
(declare-sort State 0)
(declare-const start State)
(declare-const working State)
(declare-const error State)
(declare-fun step (State State) Bool)
(declare-fun reachable (State) Bool)
(assert (reachable start))
(assert (forall ((s State) (t State)) (or (not (reachable s)) (not (step s t)) (reachable t))))
(assert (step start working))
(assert (step working start))
(assert (not (reachable error)))
(check-sat)
",
    answer: "sat
(model 1
(sort State 4)
(fun start () () @0)
(fun working () () @1)
(fun error () () @2)
(fun step ((@0 @1 @2 @3) (@0 @1 @2 @3)) (((@0 @1) true) ((@1 @0) true)) false)
(fun reachable ((@0 @1 @2 @3)) (((@0) true) ((@1) true) ((@2) false)) false)
)
",
};

/// An access rule that is broken.
pub const ACCESS_RULE: Case = Case {
    script: "; An access rule: whoever may change a file may read it, a guest reads nothing, and who isn't a guest is a member. Bob may change the file
; and is a guest all the same.
(declare-sort Person 0)
(declare-const bob Person)
(declare-fun reads (Person) Bool)
(declare-fun changes (Person) Bool)
(declare-fun guest (Person) Bool)
(declare-fun member (Person) Bool)
(assert (forall ((x Person)) (or (not (changes x)) (reads x))))
(assert (forall ((x Person)) (or (not (guest x)) (not (reads x)))))
(assert (forall ((x Person)) (or (guest x) (member x))))
(assert (changes bob))
(assert (guest bob))
(check-sat)
",
    answer: "unsat
(refutation 1
(instance 3 () (changes bob))
(instance 4 () (guest bob))
(instance 0 (bob) (or (not (changes bob)) (reads bob)))
(instance 2 ((@seed Person)) (or (guest (@seed Person)) (member (@seed Person))))
(instance 1 (bob) (or (not (guest bob)) (not (reads bob))))
)
",
};

/// Messages in a channel, none of which is named.
pub const OVERTAKING: Case = Case {
    script: "; Who overtakes whom: of two messages in one channel the earlier one comes first. Nobody named is needed: the rules are met by the one message
; that stands for all.
(declare-sort Message 0)
(declare-fun sent_before (Message Message) Bool)
(declare-fun comes_before (Message Message) Bool)
(assert (forall ((x Message) (y Message)) (or (not (sent_before x y)) (comes_before x y))))
(assert (forall ((x Message) (y Message)) (or (not (comes_before x y)) (not (comes_before y x)))))
(assert (forall ((x Message)) (not (sent_before x x))))
(check-sat)
",
    answer: "sat
(model 1
(sort Message 1)
(fun sent_before ((@0) (@0)) () false)
(fun comes_before ((@0) (@0)) () false)
)
",
};

/// A test that runs, or not.
pub const BETA_TEST: Case = Case {
    script: "; A beta test: no user sees the new page unless the test runs. Ann sees it.
(declare-sort User 0)
(declare-const ann User)
(declare-fun beta () Bool)
(declare-fun sees (User) Bool)
(assert (forall ((x User)) (or beta (not (sees x)))))
(assert (sees ann))
(check-sat)
",
    answer: "sat
(model 1
(sort User 2)
(fun ann () () @0)
(fun beta () () true)
(fun sees ((@0 @1)) (((@0) true)) false)
)
",
};
