//! The names in scope.

ghost use Rattle.std.specs.Prelude.{◌≡◌, ◌-◌, ◌++◌, [], ◌∷◌, None, Some, length, drop, IfOk, OnOk, MatchOption};
ghost use Rattle.smtlib_terms.specs.Applying.{meaning_in_scope};
ghost use Rattle.smtlib_terms.specs.Meaning.{shifted};
ghost use Rattle.smtlib_terms.specs.Names.{bound_to};
ghost use Rattle.smtlib_terms.specs.Reading.{binding_of as variable_binding};
ghost use Rattle.std.specs.Prelude.{map};
ghost use Rattle.operator_arguments.specs.Measured.{meaning_of};
ghost use Rattle.term_reader.specs.Scopes.{binding_of, bindings_of, bound_of};

use mbqi_terms::{Sort, copy_text};
use mbqi_values::{Sequence, Text};
use measured_terms::MeasuredTerm;
use moved_terms::{Shift, moved_formula};
use name_tables::NameStack;
use operator_arguments::MeasuredMeaning;
use smtlib_terms::names::Variable;
use std::alloc::{AllocError, Global};
use std::marker::Model;

/// What a name in scope stands for.
#[derive(Drop)]
pub enum Bound {
    /// A variable of a quantifier: its place and its sort.
    Variable(usize, Sort),
    /// The value of a `let` or the argument of a macro, whose variables were counted from this place on.
    Value(usize, MeasuredMeaning),
}

/// A name in scope, with what it stands for.
#[derive(Drop)]
pub struct Binding {
    pub name: Text,
    pub bound: Bound,
}

/// Bindings that come into scope together, in order.
pub type Bindings = Sequence<Binding>;

/// The bindings in scope, each found by one look-up. Contracts see them without measures and with the innermost first.
#[derive(Drop)]
pub struct Scope {
    bindings: NameStack<Bound>,
}

impl Model for Scope {
    ghost use Rattle.std.specs.Prelude.{List};
    ghost use Rattle.smtlib_terms.specs.declared.names.Binding.{Binding};
    ghost use Rattle.std.specs.Coded.{codes};
    ghost use Rattle.smtlib_terms.specs.contracts.names.Binding as binding;
    ghost use Rattle.term_reader.specs.Scopes.{entries_of};

    ghost Value = { List Binding };

    ghost coded = { Prim.hlevel (codes, binding.the_row.coded) };

    ghost view = { λ s. entries_of s.bindings };
}

impl Scope {
    /// No bindings.
    pub fn new(alloc: Global) -> Scope
        ensures { result ≡ [] }
    {
        Scope {
            bindings: NameStack::new(alloc),
        }
    }

    /// How many bindings are in scope.
    #[tactic(auto, using(crate::proofs::Ends::entry_laws))]
    pub fn len(&self) -> usize
        ensures { result ≡ length self.now }
    {
        self.bindings.len()
    }

    /// What the name stands for: its innermost binding.
    pub fn find(&self, name: &[u8]) -> Option<&Bound>
        ensures { MatchOption result (bound_to name.now self.now ≡ None) (λ b. bound_to name.now self.now ≡ Some (bound_of b.now)) }
    {
        self.bindings.find(name)
    }

    /// Brings a binding into scope.
    fn push(&mut self, alloc: Global, binding: Binding) -> Result<(), AllocError>
        ensures { OnOk result (self.new ≡ binding_of binding ∷ self.old) }
    {
        let Binding { name, bound } = binding;
        self.bindings.push(alloc, name.as_slice(), bound)
    }

    /// Brings bindings into scope, the first one innermost. After want of memory the scope is of no more use.
    #[tactic(auto, using(crate::proofs::Ends::end_laws))]
    pub fn enter(&mut self, alloc: Global, bindings: Bindings) -> Result<(), AllocError>
        ensures { OnOk result (self.new ≡ bindings_of bindings ++ self.old) }
    {
        let mut bindings = bindings.into_vec();
        while let Some(binding) = bindings.pop() {
            self.push(alloc, binding)?;
        }
        Ok(())
    }

    /// Takes the innermost bindings out of scope until so many are left.
    #[tactic(auto, using(crate::proofs::Ends::entry_laws))]
    pub fn leave(&mut self, len: usize)
        ensures { self.new ≡ drop (length self.old - len) self.old }
    {
        self.bindings.truncate(len);
    }
}

/// The meaning with its variables moved: it was read at an earlier place, and is used so many places on.
fn moved(alloc: Global, shift: Shift, m: &MeasuredMeaning) -> Result<MeasuredMeaning, AllocError>
    ensures { IfOk result (λ copy. meaning_of copy ≡ shifted shift.from shift.by (meaning_of m.now)) }
{
    match m {
        MeasuredMeaning::Formula(f) => {
            let formula = moved_formula(alloc, shift, f.as_formula())?;
            Ok(MeasuredMeaning::Formula(formula))
        }
        MeasuredMeaning::Term(sort, t) => Ok(MeasuredMeaning::Term(*sort, t.copy(alloc)?)),
        MeasuredMeaning::Array(index, element, a) => {
            Ok(MeasuredMeaning::Array(*index, *element, a.copy(alloc)?))
        }
    }
}

/// What a name in scope means where `next` is the next place of a variable.
pub fn meaning_in_scope(
    alloc: Global,
    next: usize,
    bound: &Bound,
) -> Result<MeasuredMeaning, AllocError>
    ensures { IfOk result (λ m. meaning_of m ≡ meaning_in_scope next (bound_of bound.now)) }
{
    match bound {
        Bound::Variable(place, sort) => {
            Ok(MeasuredMeaning::Term(*sort, MeasuredTerm::variable(*place)))
        }
        Bound::Value(from, m) => {
            let by = next.saturating_sub(*from);
            moved(alloc, Shift { from: *from, by }, m)
        }
    }
}

/// The variables of a quantifier as names in scope.
#[tactic(auto, using(std::proofs::lemmas::Grind::common_steps))]
pub fn variable_bindings(alloc: Global, variables: &[Variable]) -> Result<Bindings, AllocError>
    ensures { IfOk result (λ bs. bindings_of bs ≡ map variable_binding variables.now) }
{
    let mut bindings = Sequence::new(alloc);
    for variable in variables {
        bindings.push(Binding {
            name: copy_text(alloc, &variable.name)?,
            bound: Bound::Variable(variable.binder.place, variable.binder.sort),
        })?;
    }
    Ok(bindings)
}
