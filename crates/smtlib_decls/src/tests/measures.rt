use mbqi_terms::{Binder, Sort};
use mbqi_values::Sequence;
use measured_terms::{
    MeasuredArray, MeasuredFormula, MeasuredFormulas, MeasuredSymbol, MeasuredTerm, MeasuredTerms,
};
use std::alloc::{AllocError, Global};

/// A declared predicate of the variable of place 0.
fn of_variable(alloc: Global) -> Result<MeasuredFormula, AllocError> {
    let mut args = MeasuredTerms::new(alloc);
    args.push(MeasuredTerm::variable(0))?;
    let term = MeasuredTerm::apply(MeasuredSymbol::declared(3), args)?;
    Ok(MeasuredFormula::atom(term))
}

#[test]
fn atom_is_as_deep_as_its_term(rt: HostRuntime) -> Result<(), AllocError> {
    let atom = of_variable(rt.alloc())?;
    assert!(rt; atom.depth() == 2 && atom.variables() == 0);
    match atom.into_value() {
        Some(term) => assert!(rt; term.depth() == 2 && term.has_variable()),
        None => assert!(rt; false, "an atom is a value"),
    }
    Ok(())
}

#[test]
fn quantifier_binds_its_variables(rt: HostRuntime) -> Result<(), AllocError> {
    let place = Binder {
        place: 0,
        sort: Sort::Int,
    };
    let binders = Sequence::from_slice(rt.alloc(), &[place])?;
    let all = MeasuredFormula::forall(rt.alloc(), binders, of_variable(rt.alloc())?)?;
    assert!(rt; all.depth() == 3 && all.variables() == 1 && all.is_quantified());
    assert!(rt; all.into_value().is_none());
    Ok(())
}

#[test]
fn sum_gives_its_parts_back(rt: HostRuntime) -> Result<(), AllocError> {
    let sum = MeasuredTerm::plus(rt.alloc(), MeasuredTerm::variable(1), 5)?;
    assert!(rt; sum.depth() == 2);
    let parts = sum.into_sum();
    assert!(rt; parts.number == 5);
    match parts.base {
        Some(base) => assert!(rt; base.depth() == 1 && base.has_variable()),
        None => assert!(rt; false, "the variable is the base"),
    }
    Ok(())
}

#[test]
fn stored_variable_stands_in_the_array(rt: HostRuntime) -> Result<(), AllocError> {
    let array = MeasuredArray::name(0);
    let index = MeasuredTerm::number(1);
    let stored = MeasuredArray::store(rt.alloc(), array, index, MeasuredTerm::variable(0))?;
    assert!(rt; stored.depth() == 2 && stored.has_variable());
    Ok(())
}

#[test]
fn one_formula_is_alone(rt: HostRuntime) -> Result<(), AllocError> {
    let mut formulas = MeasuredFormulas::new(rt.alloc());
    formulas.push(of_variable(rt.alloc())?)?;
    match formulas.alone() {
        Ok(formula) => assert!(rt; formula.depth() == 2 && formula.has_variable()),
        Err(_) => assert!(rt; false, "there is one formula"),
    }
    Ok(())
}
