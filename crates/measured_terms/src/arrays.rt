//! Array terms.

ghost use Rattle.std.specs.Prelude.{◌≡◌, IfOk};
ghost use Rattle.mbqi_terms.specs.Depth.{depth_of_array};
ghost use Rattle.mbqi_terms.specs.Varies.{varies};

use crate::lists::MeasuredArrays;
use crate::measures::deeper;
use crate::terms::MeasuredTerm;
use mbqi_terms::{ArrayTerm, MapOp, Sort, copy_array};
use sqlite_items::Boxed;
use std::alloc::{AllocError, Global};
use std::marker::Model;

/// An array term with its depth, and with whether a variable stands in it. Contracts see the array term.
#[derive(Drop)]
pub struct MeasuredArray {
    array: ArrayTerm,
    depth: usize,
    has_variable: bool,
}

impl Model for MeasuredArray {
    ghost use Rattle.std.specs.Prelude.{◌≡◌};
    ghost use Rattle.mbqi_terms.specs.declared.term.ArrayTerm.{ArrayTerm};
    ghost use Rattle.mbqi_terms.specs.contracts.term.ArrayTerm as array_of;

    ghost Value = { ArrayTerm };

    ghost coded = { array_of.the_row.coded };

    ghost use Rattle.mbqi_terms.specs.Depth.{depth_of_array};
    ghost use Rattle.mbqi_terms.specs.Varies.{varies};

    ghost view = { λ m. m.array };

    ghost invariant = { λ m. (m.depth ≡ depth_of_array m.array) × (m.has_variable ≡ varies m.array) };
}

impl MeasuredArray {
    /// A declared array.
    #[tactic(auto, using(crate::proofs::ArrayLaws::name_laws))]
    pub fn name(function: usize) -> MeasuredArray
        ensures { result ≡ ArrayTerm.Name function }
    {
        MeasuredArray {
            array: ArrayTerm::Name(function),
            depth: 1,
            has_variable: false,
        }
    }

    /// `(store a i v)`
    #[tactic(auto, using(crate::proofs::ArrayLaws::store_laws))]
    pub fn store(
        alloc: Global,
        a: MeasuredArray,
        i: MeasuredTerm,
        v: MeasuredTerm,
    ) -> Result<MeasuredArray, AllocError>
        ensures { IfOk result (λ b. b ≡ ArrayTerm.Store a i v) }
    {
        let depth = deeper(a.depth().max(i.depth().max(v.depth())))?;
        let has_variable = a.has_variable() || (i.has_variable() || v.has_variable());
        let array = Boxed::new(alloc, a.into_array())?;
        let index = Boxed::new(alloc, i.into_term())?;
        let value = Boxed::new(alloc, v.into_term())?;
        Ok(MeasuredArray {
            array: ArrayTerm::Store(array, index, value),
            depth,
            has_variable,
        })
    }

    /// `((as const S) v)`, with the array sort S.
    #[tactic(auto, using(crate::proofs::ArrayLaws::const_laws))]
    pub fn constant(alloc: Global, sort: Sort, v: MeasuredTerm) -> Result<MeasuredArray, AllocError>
        ensures { IfOk result (λ b. b ≡ ArrayTerm.Const sort v) }
    {
        let depth = deeper(v.depth())?;
        let has_variable = v.has_variable();
        let value = Boxed::new(alloc, v.into_term())?;
        Ok(MeasuredArray {
            array: ArrayTerm::Const(sort, value),
            depth,
            has_variable,
        })
    }

    /// `((_ map f) a ...)`
    #[tactic(auto, using(crate::proofs::ArrayLaws::map_laws))]
    pub fn map(op: MapOp, arrays: MeasuredArrays) -> Result<MeasuredArray, AllocError>
        ensures { IfOk result (λ b. b ≡ ArrayTerm.Map op arrays) }
    {
        let depth = deeper(arrays.depth())?;
        let has_variable = arrays.has_variable();
        Ok(MeasuredArray {
            array: ArrayTerm::Map(op, arrays.into_arrays()),
            depth,
            has_variable,
        })
    }

    /// How deep the array term is.
    pub fn depth(&self) -> usize
        ensures { result ≡ depth_of_array self.now }
    {
        self.depth
    }

    /// Whether a variable stands in the array term.
    pub fn has_variable(&self) -> bool
        ensures { result ≡ varies self.now }
    {
        self.has_variable
    }

    /// The array term, lent.
    pub fn as_array(&self) -> &ArrayTerm
        ensures { result.now ≡ self.now }
    {
        &self.array
    }

    /// The array term without its measures.
    pub fn into_array(self) -> ArrayTerm
        ensures { result ≡ self }
    {
        let MeasuredArray {
            array,
            depth: _,
            has_variable: _,
        } = self;
        array
    }

    /// A copy.
    pub fn copy(&self, alloc: Global) -> Result<MeasuredArray, AllocError>
        ensures { IfOk result (λ a. a ≡ self.now) }
    {
        Ok(MeasuredArray {
            array: copy_array(alloc, &self.array)?,
            depth: self.depth,
            has_variable: self.has_variable,
        })
    }
}
