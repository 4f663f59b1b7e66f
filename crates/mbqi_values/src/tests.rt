ghost use Rattle.std.specs.Prelude.{◌≡◌, ◌<◌};

use crate::{FaultKind, Lit, Numbers, ReadError, Refusal, Status, Steps, Text, Value, plus};
use std::alloc::AllocError;
use std::cmp::Ordering;
use std::marker::Brand;
use std::sync::ledger::{Blank, Ledger};

#[test]
fn values_stand_by_kind_and_then_by_size(rt: HostRuntime) {
    let rising = [
        Value::Num(-2),
        Value::Num(7),
        Value::Elem(0),
        Value::Elem(7),
        Value::Truth(false),
        Value::Truth(true),
    ];
    for (i, left) in rising.iter().enumerate() {
        for (j, right) in rising.iter().enumerate() {
            assert!(rt; left.rank(right) == i.cmp(&j), "places {i} and {j}");
        }
    }
    assert!(rt; Value::Num(3).rank(&Value::Num(3)) == Ordering::Equal);
}

#[test]
fn statuses_have_their_exit_codes(rt: HostRuntime) {
    let refusal = Refusal {
        at: 21,
        kind: FaultKind::NumeralTooWide,
    };
    let rows = [
        (Status::Sat, 10),
        (Status::Unsat, 20),
        (Status::Unknown, 30),
        (Status::Done, 0),
        (Status::No, 1),
        (Status::Words, 2),
        (Status::ScriptRefused(refusal), 3),
        (Status::ReadFault, 4),
        (Status::TooLong, 4),
        (Status::WriteFault, 5),
        (Status::Memory, 6),
        (Status::TooWide(u128::MAX), 7),
        (Status::ModelRefused(refusal), 8),
        (Status::RefutationRefused(refusal), 8),
    ];
    for (status, code) in rows {
        assert_eq!(rt; status.code(), code);
    }
}

#[test]
fn messages_name_the_place_and_the_kind(rt: HostRuntime) -> Result<(), AllocError> {
    let refusal = Refusal {
        at: 21,
        kind: FaultKind::NumeralTooWide,
    };
    let refused = format!(in rt.alloc(); "{}", ReadError::Refused(refusal))?;
    assert_eq!(rt; refused.as_str(), "refused at 21: NumeralTooWide");
    let memory = format!(in rt.alloc(); "{}", ReadError::Memory)?;
    assert_eq!(rt; memory.as_str(), "out of memory");
    Ok(())
}

#[test]
fn sequences_hold_what_they_are_given(rt: HostRuntime) -> Result<(), AllocError> {
    let text = Text::from_slice(rt.alloc(), b"sat")?;
    assert!(rt; text.as_slice() == b"sat".as_slice() && text.len() == 3 && !text.is_empty());
    assert!(rt; text.get(1) == Some(&b'a') && text.get(3).is_none());
    let mut numbers = Numbers::new(rt.alloc());
    assert!(rt; numbers.is_empty());
    numbers.push(5)?;
    numbers.push(8)?;
    assert!(rt; numbers.iter().max() == Some(&8));
    let again = Numbers::from_vec(numbers.into_vec());
    assert!(rt; again.as_slice() == [5, 8].as_slice());
    Ok(())
}

#[test]
fn literals_and_sums(rt: HostRuntime) {
    let lit = Lit { atom: 4, yes: true };
    assert!(rt;
        lit.negated()
            == Lit {
                atom: 4,
                yes: false
            }
            && lit.negated().negated() == lit
    );
    assert_eq!(rt; plus(1 << 124, -1), (1 << 124) - 1);
}

// Ticks twice on a new counter: the contract is the test.
fn two_ticks<L: Ledger>(blank: Blank)
    requires name { blank.name ≡ L.name }
    requires parts { blank.parts ≡ L.parts }
    requires some { 0 < blank.parts }
{
    let mut steps = Steps::<L>::new(blank);
    steps.tick();
    steps.tick();
}

#[test]
fn a_counter_needs_no_bytes(rt: HostRuntime) {
    two_ticks::<Brand>(Blank::new(1));
    assert_eq!(rt; size_of::<Steps<Brand>>(), 0);
}
