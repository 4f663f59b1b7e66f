use crate::write_refutation;
use mbqi_terms::{Formula, Function, InstanceLine, Script, Sort, Symbol, Term};
use mbqi_values::Sequence;
use sqlite_items::{Boxed, Items};
use std::alloc::{AllocError, Global};

fn function(alloc: Global, name: &[u8], sort: Sort) -> Result<Function, AllocError> {
    Ok(Function {
        name: Sequence::from_slice(alloc, name)?,
        args: Sequence::new(alloc),
        result: sort,
    })
}

/// The sort S, the predicate p and the constant c.
fn script(alloc: Global) -> Result<Script, AllocError> {
    let mut sorts = Sequence::new(alloc);
    sorts.push(Sequence::from_slice(alloc, b"S")?)?;
    let mut functions = Sequence::new(alloc);
    functions.push(function(alloc, b"p", Sort::Truth)?)?;
    functions.push(function(alloc, b"c", Sort::Elem(0))?)?;
    Ok(Script {
        sorts,
        functions,
        assertions: Sequence::new(alloc),
        asks: true,
    })
}

fn constant(alloc: Global) -> Term {
    Term::Apply(Symbol::Declared(1), Items::new(alloc))
}

/// The atom `(p c)`.
fn predicate(alloc: Global) -> Result<Formula, AllocError> {
    let mut args = Items::new(alloc);
    args.push(constant(alloc))?;
    Ok(Formula::Atom(Term::Apply(Symbol::Declared(0), args)))
}

/// The instance of the first assertion, that p holds everywhere, and the second assertion.
fn first_line(alloc: Global) -> Result<InstanceLine, AllocError> {
    let mut terms = Items::new(alloc);
    terms.push(constant(alloc))?;
    Ok(InstanceLine {
        assertion: 0,
        terms,
        formula: predicate(alloc)?,
    })
}

fn second_line(alloc: Global) -> Result<InstanceLine, AllocError> {
    Ok(InstanceLine {
        assertion: 1,
        terms: Items::new(alloc),
        formula: Formula::Not(Boxed::new(alloc, predicate(alloc)?)?),
    })
}

#[test]
fn unsat_by_one_instance(rt: HostRuntime) -> Result<(), AllocError> {
    let alloc = rt.alloc();
    let mut lines = Vec::new(alloc);
    lines.push(first_line(alloc)?)?;
    lines.push(second_line(alloc)?)?;
    let mut into = Vec::new(alloc);
    write_refutation(&script(alloc)?, lines.as_slice(), &mut into)?;
    let text = b"unsat\n(refutation 1\n(instance 0 (c) (p c))\n(instance 1 () (not (p c)))\n)\n";
    assert_eq!(rt; into.as_slice(), text.as_slice());
    Ok(())
}
