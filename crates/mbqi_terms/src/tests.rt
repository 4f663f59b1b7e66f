//! What no clause says: that the calls of the store succeed where memory is ample, and with which numbers.

ghost use Rattle.std.specs.Prelude.{◌≡◌, pos, negsuc, [], ◌∷◌, IfOk, OnOk};
ghost use Rattle.mbqi_terms.specs.declared.term.ArrayTerm.TheVariants as array;
ghost use Rattle.mbqi_terms.specs.declared.term.Symbol.TheVariants as symbol;
ghost use Rattle.mbqi_terms.specs.declared.term.Term.TheVariants as term;
ghost use Rattle.mbqi_terms.specs.Form.{IsTermInForm};
ghost use Rattle.mbqi_terms.specs.Samples.{sample_lists};
ghost use Rattle.mbqi_terms.specs.Store.{HasTree};

use crate::{
    ArrayPair, ArrayPairs, ArrayTerm, ArrayTerms, Arrays, Function, Functions, Head, Node, Plain,
    SkolemSort, SkolemSorts, Sort, Sorts, Symbol, Term, TermId, TermIds, TermStore, Terms,
    same_term,
};
use mbqi_values::Text;
use sqlite_items::Boxed;
use std::alloc::{AllocError, Global};

/// The sort of arrays of integers over integers.
const INTS: Sort = Sort::Array(Plain::Int, Plain::Int);

/// How many sample terms there are: one of each head, and sums.
const SAMPLES: usize = 13;

fn function(alloc: Global, args: &[Sort], sort: Sort) -> Result<Function, AllocError>
    ensures { IfOk result (λ f. f ≡ record { name = []; args = args.now; result = sort }) }
{
    let args = Sorts::from_slice(alloc, args)?;
    Ok(Function {
        name: Text::new(alloc),
        args,
        result: sort,
    })
}

fn functions(alloc: Global) -> Result<Functions, AllocError>
    ensures { IfOk result (λ list. list ≡ sample_lists.functions) }
{
    let mut list = Functions::new(alloc);
    list.push(function(alloc, &[Sort::Int], Sort::Int)?)?;
    list.push(function(alloc, &[], INTS)?)?;
    list.push(function(alloc, &[], INTS)?)?;
    Ok(list)
}

fn skolems(alloc: Global) -> Result<SkolemSorts, AllocError>
    ensures { IfOk result (λ list. list ≡ sample_lists.skolems) }
{
    let mut list = SkolemSorts::new(alloc);
    list.push(SkolemSort {
        assertion: 4,
        place: 1,
        args: Sorts::new(alloc),
        result: Sort::Int,
    })?;
    Ok(list)
}

fn arrays(alloc: Global) -> Result<Arrays, AllocError>
    ensures { IfOk result (λ arrays. arrays ≡ sample_lists.arrays) }
{
    let mut terms = ArrayTerms::new(alloc);
    terms.push(ArrayTerm::Name(1))?;
    let mut atoms = ArrayPairs::new(alloc);
    atoms.push(ArrayPair {
        left: ArrayTerm::Name(1),
        right: ArrayTerm::Name(2),
    })?;
    let defaults = ArrayTerms::new(alloc);
    Ok(Arrays {
        terms,
        atoms,
        defaults,
    })
}

/// A store over the sample lists.
fn sample_store(alloc: Global) -> Result<TermStore, AllocError>
    ensures { IfOk result (λ store. store ≡ record { lists = sample_lists; nodes = [] }) }
{
    let functions = functions(alloc)?;
    let skolems = skolems(alloc)?;
    let arrays = arrays(alloc)?;
    Ok(TermStore::new(alloc, functions, skolems, arrays))
}

fn sum(alloc: Global, base: Term, number: i128) -> Result<Term, AllocError>
    ensures { IfOk result (λ t. t ≡ term.Plus base number) }
{
    Ok(Term::Plus(Boxed::new(alloc, base)?, number))
}

fn constant(alloc: Global, symbol: Symbol) -> Term
    ensures { result ≡ term.Apply symbol [] }
{
    Term::Apply(symbol, Terms::new(alloc))
}

fn call(alloc: Global, function: usize, arg: Term) -> Result<Term, AllocError>
    ensures { IfOk result (λ t. t ≡ term.Apply (symbol.Declared function) (arg ∷ [])) }
{
    let mut args = Terms::new(alloc);
    args.push(arg)?;
    Ok(Term::Apply(Symbol::Declared(function), args))
}

fn difference(alloc: Global, left: usize, right: usize) -> Result<Term, AllocError>
    ensures { IfOk result (λ t. t ≡ term.Apply (symbol.Diff (array.Name left) (array.Name right)) []) }
{
    let left = Boxed::new(alloc, ArrayTerm::Name(left))?;
    let right = Boxed::new(alloc, ArrayTerm::Name(right))?;
    Ok(constant(alloc, Symbol::Diff(left, right)))
}

fn read(alloc: Global, name: usize, index: Term) -> Result<Term, AllocError>
    ensures { IfOk result (λ t. t ≡ term.Read (array.Name name) index) }
{
    let name = Boxed::new(alloc, ArrayTerm::Name(name))?;
    Ok(Term::Read(name, Boxed::new(alloc, index)?))
}

fn default_of(alloc: Global, name: usize) -> Result<Term, AllocError>
    ensures { IfOk result (λ t. t ≡ term.Default (array.Name name)) }
{
    Ok(Term::Default(Boxed::new(alloc, ArrayTerm::Name(name))?))
}

fn skolem(alloc: Global) -> Term
    ensures { result ≡ term.Apply (symbol.Skolem 4 1) [] }
{
    constant(alloc, Symbol::Skolem(4, 1))
}

/// The Skolem symbol minus 2.
fn below_skolem(alloc: Global) -> Result<Term, AllocError>
    ensures { IfOk result (λ t. t ≡ term.Plus (term.Apply (symbol.Skolem 4 1) []) (negsuc 1)) }
{
    sum(alloc, skolem(alloc), -2)
}

/// An array read at that.
fn read_below_skolem(alloc: Global) -> Result<Term, AllocError>
    ensures { IfOk result (λ t. t ≡ term.Read (array.Name 1) (term.Plus (term.Apply (symbol.Skolem 4 1) []) (negsuc 1))) }
{
    let index = below_skolem(alloc)?;
    read(alloc, 1, index)
}

/// The sample terms by number.
fn sample(alloc: Global, number: usize) -> Result<Term, AllocError>
    ensures { IfOk result (IsTermInForm sample_lists) }
{
    match number {
        0 => Ok(Term::Num(-4)),
        1 => Ok(Term::Var(3)),
        2 => Ok(Term::Truth(true)),
        3 => call(alloc, 0, Term::Num(-4)),
        4 => Ok(skolem(alloc)),
        5 => Ok(constant(alloc, Symbol::Seed(2))),
        6 => Ok(constant(alloc, Symbol::Far)),
        7 => difference(alloc, 1, 2),
        8 => read(alloc, 1, Term::Num(7)),
        9 => default_of(alloc, 1),
        10 => sum(alloc, Term::Var(3), 1),
        11 => below_skolem(alloc),
        _ => read_below_skolem(alloc),
    }
}

/// Whether the term, once put, is found under its number and read back.
fn comes_back(store: &mut TermStore, alloc: Global, t: &Term) -> Result<bool, AllocError>
    requires { IsTermInForm store.old.lists t.now }
    ensures { OnOk result (store.new.lists ≡ store.old.lists) }
{
    let id = store.put_term(alloc, t)?;
    let found = store.find_term(alloc, t)?;
    let back = store.tree(alloc, id)?;
    Ok(found == Some(id) && same_term(&back, t))
}

#[test]
fn a_term_of_each_head_is_put_found_and_read_back(rt: HostRuntime) -> Result<(), AllocError> {
    let alloc = rt.alloc();
    let mut store = sample_store(alloc)?;
    for number in 0..SAMPLES {
        let t = sample(alloc, number)?;
        assert!(rt; comes_back(&mut store, alloc, &t)?, "sample {number}");
    }
    Ok(())
}

fn put_numeral(store: &mut TermStore, alloc: Global, n: i128) -> Result<TermId, AllocError>
    ensures { IfOk result (λ id. HasTree store.new id (term.Num n)) }
{
    store.put_term(alloc, &Term::Num(n))
}

fn intern_numeral(store: &mut TermStore, alloc: Global, n: i128) -> Result<TermId, AllocError> {
    let node = Node {
        head: Head::Zero,
        args: TermIds::new(alloc),
        plus: n,
    };
    store.intern(alloc, node)
}

fn four_and_three(store: &mut TermStore, alloc: Global, four: TermId) -> Result<TermId, AllocError>
    requires { HasTree store.old four (term.Num (pos 4)) }
{
    store.shift(alloc, four, 3)
}

#[test]
fn equal_terms_by_three_ways_have_one_number(rt: HostRuntime) -> Result<(), AllocError> {
    let alloc = rt.alloc();
    let mut store = sample_store(alloc)?;
    let four = put_numeral(&mut store, alloc, 4)?;
    let seven = four_and_three(&mut store, alloc, four)?;
    assert!(rt; four == TermId(0) && seven == TermId(1));
    let put = put_numeral(&mut store, alloc, 7)?;
    let interned = intern_numeral(&mut store, alloc, 7)?;
    assert!(rt; put == seven && interned == seven && store.len() == 2);
    Ok(())
}

#[test]
fn released_numbers_come_again(rt: HostRuntime) -> Result<(), AllocError> {
    let alloc = rt.alloc();
    let mut store = sample_store(alloc)?;
    let mark = store.mark();
    let four = put_numeral(&mut store, alloc, 4)?;
    assert!(rt; mark <= store.len());
    store.release(mark);
    assert!(rt; store.is_empty() && store.find_term(alloc, &Term::Num(4))?.is_none());
    let again = put_numeral(&mut store, alloc, 4)?;
    assert!(rt; four == TermId(0) && again == four);
    Ok(())
}

/// Puts the numerals from one number to below another, and tells whether each is its own number in the store.
fn count_up(store: &mut TermStore, alloc: Global, from: u32, to: u32) -> Result<bool, AllocError> {
    let mut same = true;
    for n in from..to {
        let id = put_numeral(store, alloc, i128::from(n))?;
        same = same && id == TermId(n as usize);
    }
    Ok(same)
}

#[test]
fn ten_thousand_terms_and_half_of_them_again(rt: HostRuntime) -> Result<(), AllocError> {
    let alloc = rt.alloc();
    let mut store = sample_store(alloc)?;
    assert!(rt; count_up(&mut store, alloc, 0, 10_000)?);
    assert!(rt; store.len() == 10_000);
    store.release(5_000);
    assert!(rt; count_up(&mut store, alloc, 5_000, 10_000)?);
    assert!(rt; store.len() == 10_000);
    Ok(())
}
