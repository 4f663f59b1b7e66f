//! The heads of terms by the lists of a store.

ghost use Rattle.std.specs.Prelude.{◌≡◌, ◌≢◌, ◌↔◌, ℕ, List, None, Some, slice_get, IsTrue, IfSome};
ghost use Rattle.mbqi_terms.specs.declared.term.ArrayTerm.TheOpen.{Term-F};
ghost use Rattle.mbqi_terms.specs.declared.term.Term.{Term as Tree, out-Term};
ghost use Rattle.mbqi_terms.specs.Store.{IsHeadOf, HasNoHead};
ghost use Rattle.mbqi_terms.specs.Tree.{IsBase};

use crate::arrays::ArrayPair;
use crate::same::same_array;
use crate::store::lists::Lists;
use crate::store::node::Head;
use crate::term::{ArrayTerm, Symbol, Term};

/// Whether the term is no numeral and no sum.
pub(crate) fn is_base(t: &Term) -> bool
    ensures { IsTrue result ↔ IsBase (out-Term t.now) }
{
    match t {
        Term::Num(_) | Term::Plus(_, _) => false,
        Term::Var(_) | Term::Truth(_) | Term::Apply(_, _) | Term::Read(_, _) | Term::Default(_) =>
            true,
    }
}

fn place_of_array(arrays: &[ArrayTerm], array: &ArrayTerm) -> Option<usize>
    ensures found { IfSome result (λ place. slice_get arrays.now place ≡ Some array.now) }
    ensures missing { result ≡ None → (place : ℕ) → slice_get arrays.now place ≢ Some array.now }
{
    for (i, other) in arrays.iter().enumerate() {
        if same_array(other, array) {
            return Some(i);
        }
    }
    None
}

fn place_of_pair(pairs: &[ArrayPair], left: &ArrayTerm, right: &ArrayTerm) -> Option<usize>
    ensures found { IfSome result (λ place. slice_get pairs.now place ≡ Some (record { left = left.now; right = right.now })) }
    ensures missing { result ≡ None → (place : ℕ) → slice_get pairs.now place ≢ Some (record { left = left.now; right = right.now }) }
{
    for (i, pair) in pairs.iter().enumerate() {
        if same_array(&pair.left, left) && same_array(&pair.right, right) {
            return Some(i);
        }
    }
    None
}

/// The head of a term that is no numeral and no sum: none where its arrays aren't in the lists.
pub(crate) fn head_of(lists: &Lists, base: &Term) -> Option<Head>
    requires { IsBase (out-Term base.now) }
    ensures found { IfSome result (IsHeadOf lists.now (out-Term base.now)) }
    ensures missing { result ≡ None → HasNoHead lists.now (out-Term base.now) }
{
    match base {
        Term::Num(_) | Term::Plus(_, _) => unreachable!(),
        Term::Var(place) => Some(Head::Var(*place)),
        Term::Truth(truth) => Some(Head::Truth(*truth)),
        Term::Apply(symbol, _) => head_of_symbol(lists, symbol),
        Term::Read(array, _) => {
            let place = place_of_array(lists.arrays.terms.as_slice(), array.get())?;
            Some(Head::Read(place))
        }
        Term::Default(array) => {
            let place = place_of_array(lists.arrays.terms.as_slice(), array.get())?;
            Some(Head::Default(place))
        }
    }
}

fn head_of_symbol(lists: &Lists, symbol: &Symbol) -> Option<Head>
    ensures found { IfSome result (λ head. (ts : List Tree) → IsHeadOf lists.now (Term-F.Apply symbol.now ts) head) }
    ensures missing { result ≡ None → (ts : List Tree) → HasNoHead lists.now (Term-F.Apply symbol.now ts) }
{
    match symbol {
        Symbol::Declared(function) => Some(Head::Declared(*function)),
        Symbol::Skolem(assertion, place) => Some(Head::Skolem(*assertion, *place)),
        Symbol::Seed(sort) => Some(Head::Seed(*sort)),
        Symbol::Far => Some(Head::Far),
        Symbol::Diff(left, right) => {
            let place = place_of_pair(lists.arrays.atoms.as_slice(), left.get(), right.get())?;
            Some(Head::Diff(place))
        }
    }
}
