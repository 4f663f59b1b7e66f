//! What no clause says: that a model comes where memory is ample, and how its tables look.

ghost use Rattle.std.specs.Prelude.{◌≡◌, IfOk};
ghost use Rattle.element_atoms.specs.Profile.{IsElementary};
ghost use Rattle.element_models.specs.Example.{one_constant, one_predicate, example_functions, example_pool, atom_on, example_atoms};

use super::element_model;
use element_atoms::{GroundAtom, Pool};
use mbqi_terms::{
    Assertions, Function, Functions, Script, Sort, Sorts, Symbol, Term, TermId, TermIds, Terms,
};
use mbqi_values::{Numbers, Text, Texts, Value};
use std::alloc::{AllocError, Global};
use std::test::Fail;

fn constant(alloc: Global) -> Function
    ensures { result ≡ one_constant }
{
    Function {
        name: Text::new(alloc),
        args: Sorts::new(alloc),
        result: Sort::Elem(0),
    }
}

fn predicate(alloc: Global) -> Result<Function, AllocError>
    ensures { IfOk result (λ function. function ≡ one_predicate) }
{
    Ok(Function {
        name: Text::new(alloc),
        args: Sorts::from_slice(alloc, &[Sort::Elem(0), Sort::Elem(0)])?,
        result: Sort::Truth,
    })
}

fn functions(alloc: Global) -> Result<Functions, AllocError>
    ensures { IfOk result (λ functions. functions ≡ example_functions) }
{
    let mut functions = Functions::new(alloc);
    functions.push(constant(alloc))?;
    functions.push(predicate(alloc)?)?;
    functions.push(constant(alloc))?;
    Ok(functions)
}

fn script(alloc: Global) -> Result<Script, AllocError>
    ensures elementary { IfOk result IsElementary }
    ensures functions { IfOk result (λ script. script.functions ≡ example_functions) }
{
    let mut sorts = Texts::new(alloc);
    sorts.push(Text::new(alloc))?;
    Ok(Script {
        sorts,
        functions: functions(alloc)?,
        assertions: Assertions::new(alloc),
        asks: true,
    })
}

fn pool(alloc: Global) -> Result<Pool, AllocError>
    ensures { IfOk result (λ pool. pool ≡ example_pool) }
{
    let mut terms = Terms::new(alloc);
    terms.push(Term::Apply(Symbol::Declared(0), Terms::new(alloc)))?;
    terms.push(Term::Apply(Symbol::Declared(2), Terms::new(alloc)))?;
    terms.push(Term::Apply(Symbol::Seed(0), Terms::new(alloc)))?;
    Ok(Pool {
        terms,
        numbers: Numbers::from_slice(alloc, &[0, 0, 1])?,
    })
}

fn atom(alloc: Global, left: usize, right: usize) -> Result<GroundAtom, AllocError>
    ensures { IfOk result (λ atom. atom ≡ atom_on left right) }
{
    Ok(GroundAtom {
        predicate: 1,
        args: TermIds::from_slice(alloc, &[TermId(left), TermId(right)])?,
    })
}

fn atoms(alloc: Global) -> Result<Vec<GroundAtom>, AllocError>
    ensures { IfOk result (λ atoms. atoms.items ≡ example_atoms) }
{
    let mut atoms = Vec::new(alloc);
    atoms.push(atom(alloc, 1, 0)?)?;
    atoms.push(atom(alloc, 0, 0)?)?;
    Ok(atoms)
}

#[test]
fn each_constant_is_an_element_and_each_atom_a_row(rt: HostRuntime) -> Result<(), Fail> {
    let alloc = rt.alloc();
    let script = script(alloc)?;
    let pool = pool(alloc)?;
    let atoms = atoms(alloc)?;
    let model = element_model(alloc, &script, &pool, atoms.as_slice(), &[true, false])?;
    assert_eq!(rt; model.sizes.as_slice(), [3].as_slice());
    let tables = model.tables.as_slice();
    assert!(rt; tables.len() == 5);
    assert!(rt;
        tables[0].look_up(&[]) == Value::Elem(0),
        "the first constant"
    );
    assert!(rt; tables[2].look_up(&[]) == Value::Elem(1), "the second one");
    assert!(rt; tables[3].look_up(&[]) == Value::Elem(2), "the seed");
    assert!(rt; tables[1].rows.len() == 2, "a row for each atom");
    for (left, right, truth) in [(0, 0, false), (1, 0, true), (0, 1, false), (2, 0, false)] {
        let value = tables[1].look_up(&[Value::Elem(left), Value::Elem(right)]);
        assert!(rt; value == Value::Truth(truth), "at {left} and {right}");
    }
    Ok(())
}
