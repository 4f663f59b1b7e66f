use mbqi_terms::{Binder, Binders, Sort, same_formula};
use mbqi_values::Sequence;
use measured_terms::{MeasuredArray, MeasuredFormula, MeasuredSymbol, MeasuredTerm, MeasuredTerms};
use moved_terms::{Shift, measured_array, moved_formula};
use std::alloc::{AllocError, Global};

/// A declared predicate of the variables of two places.
fn of_two(alloc: Global, first: usize, second: usize) -> Result<MeasuredFormula, AllocError> {
    let mut args = MeasuredTerms::new(alloc);
    args.push(MeasuredTerm::variable(first))?;
    args.push(MeasuredTerm::variable(second))?;
    let term = MeasuredTerm::apply(MeasuredSymbol::declared(3), args)?;
    Ok(MeasuredFormula::atom(term))
}

/// One binder of sort Int.
fn binders(alloc: Global, place: usize) -> Result<Binders, AllocError> {
    let sort = Sort::Int;
    Sequence::from_slice(alloc, &[Binder { place, sort }])
}

/// The predicate of a free variable and of the one that is bound.
fn quantified(alloc: Global, free: usize, bound: usize) -> Result<MeasuredFormula, AllocError> {
    MeasuredFormula::forall(alloc, binders(alloc, bound)?, of_two(alloc, free, bound)?)
}

#[test]
fn bound_variable_moves_and_an_earlier_one_stays(rt: HostRuntime) -> Result<(), AllocError> {
    let source = quantified(rt.alloc(), 1, 2)?;
    let moved = moved_formula(rt.alloc(), Shift { from: 2, by: 3 }, source.as_formula())?;
    let wanted = quantified(rt.alloc(), 1, 5)?;
    assert!(rt; same_formula(moved.as_formula(), wanted.as_formula()));
    assert!(rt; moved.depth() == 3 && moved.variables() == 1);
    Ok(())
}

#[test]
fn array_is_measured_anew(rt: HostRuntime) -> Result<(), AllocError> {
    let array = MeasuredArray::name(0);
    let index = MeasuredTerm::number(1);
    let stored = MeasuredArray::store(rt.alloc(), array, index, MeasuredTerm::variable(0))?;
    let copy = measured_array(rt.alloc(), stored.as_array())?;
    assert!(rt; copy.depth() == 2 && copy.has_variable());
    Ok(())
}
