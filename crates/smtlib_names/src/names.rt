//! What was declared and defined.

ghost use Rattle.std.specs.Prelude.{◌≡◌, [], ◌∷◌, length, false, None, Some, MatchOption, OnOk, OnErr};
ghost use Rattle.std.specs.List.{list_all, list_any};
ghost use Rattle.smtlib_terms.specs.Names.{function_named, macro_named};
ghost use Rattle.smtlib_terms.specs.Answers.{Answers, Declares};
ghost use Rattle.smtlib_terms.specs.Words.{is_one_of};
ghost use Rattle.smtlib_terms.specs.Declaring.{function_declared, is_first_order, is_function, is_supported, names_before, reader_of, released, sort_declared, sort_read, with_definition, with_function};
ghost use Rattle.mbqi_terms.specs.Sort.{is_array};

use crate::sorts::sort_of_tree;
use crate::table::Table;
use mbqi_terms::{Function, Functions, Sort, Sorts, copy_sorts, copy_text};
use mbqi_values::{FaultKind, ReadError, Sequence, Text, Texts};
use name_tables::NameSet;
use sexpr_text::Sexpr;
use smtlib_terms::names::Macro;
use smtlib_terms::refused;
use smtlib_terms::word::is_reserved;
use std::alloc::{AllocError, Global};
use std::marker::Model;

/// What was declared and defined, in order, each name found by one look-up. Contracts see the declarations.
#[derive(Drop)]
pub struct Names {
    sorts: Table<Text>,
    functions: Table<Function>,
    macros: Table<Macro>,
}

impl Model for Names {
    ghost use Rattle.std.specs.Coded.{codes};
    ghost use Rattle.smtlib_terms.specs.contracts.names.Macro as definition;
    ghost use Rattle.smtlib_terms.specs.Declaring.{Declarations};

    ghost Value = { Declarations };

    ghost coded = { Prim.hlevel (codes, definition.the_row.coded) };

    ghost use Rattle.smtlib_names.specs.Named.{AreNamed};

    ghost view = { λ n. record { sorts = n.sorts.items; functions = n.functions.items; macros = n.macros.items } };

    ghost invariant = { λ n. AreNamed n.sorts n.functions n.macros };
}

/// How many names of each kind there are.
#[derive(Clone, Copy, Debug, PartialEq, Eq)]
pub struct NamesMark {
    pub sorts: usize,
    pub functions: usize,
    pub macros: usize,
}

/// A macro with its place among the macros. Its body may apply those before it.
#[derive(Clone, Copy)]
pub struct FoundMacro<'a> {
    pub place: usize,
    pub definition: &'a Macro,
}

/// Whether an argument of a function may have this sort.
fn is_first_order(sort: Sort) -> bool
    ensures { result ≡ is_first_order sort }
{
    match sort {
        Sort::Truth | Sort::Array(_, _) => false,
        Sort::Int | Sort::Elem(_) => true,
    }
}

/// Whether the arguments of a function may have these sorts.
fn are_first_order(sorts: &[Sort]) -> bool
    ensures { result ≡ list_all is_first_order sorts.now }
{
    sorts.iter().all(|sort| is_first_order(*sort))
}

/// Whether a sort is one of arrays.
fn is_array(sort: Sort) -> bool
    ensures { result ≡ is_array sort }
{
    match sort {
        Sort::Array(_, _) => true,
        Sort::Truth | Sort::Int | Sort::Elem(_) => false,
    }
}

/// Whether this profile has functions of these sorts: no argument is of sort Bool or an array, and an array has no
/// arguments.
fn is_supported(args: &[Sort], result_sort: Sort) -> bool
    ensures { result ≡ is_supported args.now result_sort }
{
    are_first_order(args) && (args.is_empty() || !is_array(result_sort))
}

impl Names {
    /// No names.
    pub fn new(alloc: Global) -> Names
        ensures { result ≡ record { sorts = []; functions = []; macros = [] } }
    {
        Names {
            sorts: Table::new(alloc),
            functions: Table::new(alloc),
            macros: Table::new(alloc),
        }
    }

    /// The names of the declared sorts.
    pub fn sorts(&self) -> &NameSet
        ensures { result.now ≡ self.now.sorts }
    {
        &self.sorts.names
    }

    /// The declared functions.
    pub fn functions(&self) -> &Functions
        ensures { result.now ≡ self.now.functions }
    {
        &self.functions.items
    }

    /// How many macros were defined.
    pub fn macro_count(&self) -> usize
        ensures { result ≡ length self.now.macros }
    {
        self.macros.items.len()
    }

    /// The function of a name, with its number.
    pub fn function_named(&self, name: &[u8]) -> Option<(usize, &Function)>
        ensures { MatchOption result (function_named name.now 0 self.now.functions ≡ None) (λ found. function_named name.now 0 self.now.functions ≡ Some (found.0, found.1.now)) }
    {
        let number = self.functions.names.place_of(name)?;
        let function = self.functions.items.get(number)?;
        Some((number, function))
    }

    /// The macro of a name among the first so many.
    pub fn macro_named(&self, first: usize, name: &[u8]) -> Option<FoundMacro<'_>>
        ensures { MatchOption result (macro_named name.now (names_before self.now first).macros ≡ None) (λ found. macro_named name.now (names_before self.now first).macros ≡ Some (reader_of (names_before self.now found.place) found.definition.now)) }
    {
        let place = self.macros.names.place_of(name)?;
        let definition = self.macros.items.get(place)?;
        if place < first {
            Some(FoundMacro { place, definition })
        } else {
            None
        }
    }

    /// Whether a declared function has the name.
    fn is_declared(&self, name: &[u8]) -> bool
        ensures { result ≡ list_any (λ f. is_one_of (f.name ∷ []) name.now) self.now.functions }
    {
        self.functions.names.contains(name)
    }

    /// Whether a macro has the name.
    fn is_defined(&self, name: &[u8]) -> bool
        ensures { result ≡ list_any (λ m. is_one_of (m.name ∷ []) name.now) self.now.macros }
    {
        self.macros.names.contains(name)
    }

    /// Whether a function or a macro has the name.
    pub fn is_function(&self, name: &[u8]) -> bool
        ensures { result ≡ is_function self.now name.now }
    {
        self.is_declared(name) || self.is_defined(name)
    }

    /// Declares a sort. Refused: ReservedName, or Twice where a sort has the name. After a refusal or want of memory the
    /// names are as before.
    #[tactic(auto, unfolding(smtlib_terms::specs::Declaring::sort_declared))]
    pub fn declare_sort(&mut self, alloc: Global, name: &[u8]) -> Result<(), ReadError>
        ensures { Declares result self.old self.new (sort_declared self.old name.now) }
    {
        if is_reserved(name) {
            return Err(refused(FaultKind::ReservedName));
        }
        if self.sorts.names.contains(name) {
            return Err(refused(FaultKind::Twice));
        }
        let text = Sequence::from_slice(alloc, name)?;
        self.sorts.push(alloc, name, text)?;
        Ok(())
    }

    /// Declares a function. Refused: Unsupported where the profile has no functions of these sorts, ReservedName, or
    /// Twice where a function or a macro has the name. After a refusal or want of memory the names are as before.
    #[tactic(auto, unfolding(smtlib_terms::specs::Declaring::function_declared))]
    pub fn declare_function(
        &mut self,
        alloc: Global,
        name: &[u8],
        args: &Sorts,
        result_sort: Sort,
    ) -> Result<(), ReadError>
        ensures { Declares result self.old self.new (function_declared self.old (record { name = name.now; args = args.now; result = result_sort })) }
    {
        if !is_supported(args.as_slice(), result_sort) {
            return Err(refused(FaultKind::Unsupported));
        }
        if is_reserved(name) {
            return Err(refused(FaultKind::ReservedName));
        }
        if self.is_function(name) {
            return Err(refused(FaultKind::Twice));
        }
        let function = Function {
            name: Sequence::from_slice(alloc, name)?,
            args: copy_sorts(alloc, args.as_slice())?,
            result: result_sort,
        };
        self.add_function(alloc, name, function)?;
        Ok(())
    }

    /// Adds a function of the name, which no function and no macro has.
    fn add_function(
        &mut self,
        alloc: Global,
        name: &[u8],
        function: Function,
    ) -> Result<(), AllocError>
        requires named { function.name ≡ name.now }
        requires new { is_function self.old name.now ≡ false }
        ensures ok { OnOk result (self.new ≡ with_function self.old function) }
        ensures err { OnErr result (self.new ≡ self.old) }
    {
        self.functions.push(alloc, name, function)?;
        Ok(())
    }

    /// Adds a macro, whose name no function and no macro has. After want of memory the names are as before.
    pub fn add_macro(&mut self, alloc: Global, definition: Macro) -> Result<(), AllocError>
        requires { is_function self.old definition.name ≡ false }
        ensures ok { OnOk result (self.new ≡ with_definition self.old definition) }
        ensures err { OnErr result (self.new ≡ self.old) }
    {
        let name = copy_text(alloc, &definition.name)?;
        self.macros.push(alloc, name.as_slice(), definition)?;
        Ok(())
    }

    /// How many names of each kind there are.
    pub fn mark(&self) -> NamesMark
        ensures { result ≡ record { sorts = length self.now.sorts; functions = length self.now.functions; macros = length self.now.macros } }
    {
        NamesMark {
            sorts: self.sorts.items.len(),
            functions: self.functions.items.len(),
            macros: self.macros.items.len(),
        }
    }

    /// Leaves the first names of each kind, as many as the mark says, in their order. It takes no memory.
    pub fn release(&mut self, alloc: Global, mark: NamesMark)
        ensures { self.new ≡ released self.old mark.sorts mark.functions mark.macros }
    {
        self.sorts.truncate(alloc, mark.sorts);
        self.functions.truncate(alloc, mark.functions);
        self.macros.truncate(alloc, mark.macros);
    }

    /// The declared sorts and functions, which takes no memory.
    pub fn into_declared(self) -> (Texts, Functions)
        ensures { result ≡ (self.sorts, self.functions) }
    {
        let Names {
            sorts,
            functions,
            ..
        } = self;
        (sorts.items, functions.items)
    }
}

/// The sort that a tree names. Refused: BadForm where the tree is neither a symbol nor `(Array I E)`, UnknownName where
/// no sort has the name, Unsupported where the profile has no such arrays.
pub fn read_sort(names: &Names, tree: &Sexpr) -> Result<Sort, ReadError>
    ensures { Answers result (sort_read names.now tree.now) }
{
    sort_of_tree(names.sorts(), tree)
}
