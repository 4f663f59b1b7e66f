//! Laws of terms in form, as calls that do nothing: where a recursion goes down a term, its proof takes from them that what it goes
//! into is in form too.

ghost use Rattle.std.specs.Prelude.{◌≡◌, [], ◌∷◌, All};
ghost use Rattle.mbqi_terms.specs.declared.term.Term.{out-Term};
ghost use Rattle.mbqi_terms.specs.declared.term.Term.TheVariants as term;
ghost use Rattle.mbqi_terms.specs.Form.{IsTermInForm};
ghost use Rattle.mbqi_terms.specs.Store.{MayAdd, args_of};
ghost use Rattle.mbqi_terms.specs.Tree.{IsBase};

use crate::store::lists::Lists;
use crate::term::Term;

/// The term of a sum in form is in form, and the number may be added to it.
pub(crate) fn sum_in_form(lists: &Lists, sum: &Term, base: &Term, number: i128)
    requires sum { sum.now ≡ term.Plus base.now number }
    requires form { IsTermInForm lists.now sum.now }
    ensures base { IsBase (out-Term base.now) }
    ensures form { IsTermInForm lists.now base.now }
    ensures number { MayAdd lists.now (out-Term base.now) number }
{}

/// The arguments of a term in form are in form.
pub(crate) fn args_in_form(lists: &Lists, whole: &Term, args: &[Term])
    requires args { args_of (out-Term whole.now) ≡ args.now }
    requires form { IsTermInForm lists.now whole.now }
    ensures { All (IsTermInForm lists.now) args.now }
{}

/// The index of a read in form is in form.
pub(crate) fn index_in_form(lists: &Lists, read: &Term, index: &Term)
    requires args { args_of (out-Term read.now) ≡ index.now ∷ [] }
    requires form { IsTermInForm lists.now read.now }
    ensures { IsTermInForm lists.now index.now }
{}
