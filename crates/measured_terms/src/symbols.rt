//! The functions that terms apply.

ghost use Rattle.std.specs.Prelude.{◌≡◌, IfOk};
ghost use Rattle.measured_terms.specs.Measures.{depth_of_symbol, varies_symbol};

use crate::arrays::MeasuredArray;
use mbqi_terms::Symbol;
use sqlite_items::Boxed;
use std::alloc::{AllocError, Global};
use std::marker::Model;

/// A symbol with the depth of its parts, and with whether a variable stands in them. Contracts see the symbol.
#[derive(Drop)]
pub struct MeasuredSymbol {
    symbol: Symbol,
    depth: usize,
    has_variable: bool,
}

impl Model for MeasuredSymbol {
    ghost use Rattle.std.specs.Prelude.{◌≡◌};
    ghost use Rattle.mbqi_terms.specs.declared.term.Symbol.{Symbol};
    ghost use Rattle.mbqi_terms.specs.contracts.term.Symbol as symbol_of;

    ghost Value = { Symbol };

    ghost coded = { symbol_of.the_row.coded };

    ghost use Rattle.measured_terms.specs.Measures.{depth_of_symbol, varies_symbol};

    ghost view = { λ m. m.symbol };

    ghost invariant = { λ m. (m.depth ≡ depth_of_symbol m.symbol) × (m.has_variable ≡ varies_symbol m.symbol) };
}

impl MeasuredSymbol {
    /// A declared function.
    #[tactic(auto, using(crate::proofs::SymbolLaws::declared_laws))]
    pub fn declared(function: usize) -> MeasuredSymbol
        ensures { result ≡ Symbol.Declared function }
    {
        MeasuredSymbol {
            symbol: Symbol::Declared(function),
            depth: 0,
            has_variable: false,
        }
    }

    /// The Skolem symbol of an assertion and of the place of a variable in it.
    #[tactic(auto, using(crate::proofs::SymbolLaws::skolem_laws))]
    pub fn skolem(assertion: usize, place: usize) -> MeasuredSymbol
        ensures { result ≡ Symbol.Skolem assertion place }
    {
        MeasuredSymbol {
            symbol: Symbol::Skolem(assertion, place),
            depth: 0,
            has_variable: false,
        }
    }

    /// The seed of a declared sort.
    #[tactic(auto, using(crate::proofs::SymbolLaws::seed_laws))]
    pub fn seed(sort: usize) -> MeasuredSymbol
        ensures { result ≡ Symbol.Seed sort }
    {
        MeasuredSymbol {
            symbol: Symbol::Seed(sort),
            depth: 0,
            has_variable: false,
        }
    }

    /// The integer past which each array over Int has its default.
    #[tactic(auto, using(crate::proofs::SymbolLaws::far_laws))]
    pub fn far() -> MeasuredSymbol
        ensures { result ≡ Symbol.Far }
    {
        MeasuredSymbol {
            symbol: Symbol::Far,
            depth: 0,
            has_variable: false,
        }
    }

    /// An index at which two arrays differ.
    #[tactic(auto, using(crate::proofs::SymbolLaws::diff_laws))]
    pub fn diff(
        alloc: Global,
        a: MeasuredArray,
        b: MeasuredArray,
    ) -> Result<MeasuredSymbol, AllocError>
        ensures { IfOk result (λ s. s ≡ Symbol.Diff a b) }
    {
        let depth = a.depth().max(b.depth());
        let has_variable = a.has_variable() || b.has_variable();
        let left = Boxed::new(alloc, a.into_array())?;
        let right = Boxed::new(alloc, b.into_array())?;
        Ok(MeasuredSymbol {
            symbol: Symbol::Diff(left, right),
            depth,
            has_variable,
        })
    }

    /// How deep the parts of the symbol are: 0 without parts.
    pub fn depth(&self) -> usize
        ensures { result ≡ depth_of_symbol self.now }
    {
        self.depth
    }

    /// Whether a variable stands in a part of the symbol.
    pub fn has_variable(&self) -> bool
        ensures { result ≡ varies_symbol self.now }
    {
        self.has_variable
    }

    /// The symbol without its measures.
    pub fn into_symbol(self) -> Symbol
        ensures { result ≡ self }
    {
        let MeasuredSymbol {
            symbol,
            depth: _,
            has_variable: _,
        } = self;
        symbol
    }
}
