//! Whether sorts are one.

ghost use Rattle.std.specs.Prelude.{◌≡◌};
ghost use Rattle.mbqi_terms.specs.Sort.{plain_sort, is_plain, is_sort};

use mbqi_terms::{Plain, Sort};

/// Whether two sorts of indices or elements are one.
pub fn is_plain(p: Plain, q: Plain) -> bool
    ensures { result ≡ is_plain p q }
{
    match (p, q) {
        (Plain::Truth, Plain::Truth) | (Plain::Int, Plain::Int) => true,
        (Plain::Elem(s), Plain::Elem(t)) => s == t,
        (Plain::Truth | Plain::Int | Plain::Elem(_), _) => false,
    }
}

/// Whether two sorts are one.
pub fn is_sort(s: Sort, t: Sort) -> bool
    ensures { result ≡ is_sort s t }
{
    match (s, t) {
        (Sort::Truth, Sort::Truth) | (Sort::Int, Sort::Int) => true,
        (Sort::Elem(s), Sort::Elem(t)) => s == t,
        (Sort::Array(i, e), Sort::Array(j, f)) => is_plain(i, j) && is_plain(e, f),
        (Sort::Truth | Sort::Int | Sort::Elem(_) | Sort::Array(_, _), _) => false,
    }
}

/// The sort of an array's index or element.
pub fn plain_sort(p: Plain) -> Sort
    ensures { result ≡ plain_sort p }
{
    match p {
        Plain::Truth => Sort::Truth,
        Plain::Int => Sort::Int,
        Plain::Elem(s) => Sort::Elem(s),
    }
}
