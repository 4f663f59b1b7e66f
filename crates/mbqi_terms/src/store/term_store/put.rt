//! Putting terms.

ghost use Rattle.std.specs.Prelude.{◌≡◌, [], ◌∷◌, OnOk, OnErr, IfOk, All};
ghost use Rattle.std.specs.List.{AllZip};
ghost use Rattle.mbqi_terms.specs.declared.term.Term.{out-Term};
ghost use Rattle.mbqi_terms.specs.Form.{IsTermInForm};
ghost use Rattle.mbqi_terms.specs.Store.{HasTree, Extends, AddsParts, KeepsKnown, Grows, args_of, MayAdd};
ghost use Rattle.mbqi_terms.specs.Tree.{IsBase, sum_of};

use super::TermStore;
use crate::store::ids::TermIds;
use crate::store::laws::{args_in_form, index_in_form, sum_in_form};
use crate::store::node::{Head, Node};
use crate::store::parts::head_of;
use crate::term::Term;
use crate::term_id::TermId;
use std::alloc::{AllocError, Global};

impl TermStore {
    /// The number of the term, which is put with its parts where the store doesn't have them. After want of
    /// memory the store is as before.
    pub fn put_term(&mut self, alloc: Global, t: &Term) -> Result<TermId, AllocError>
        requires { IsTermInForm self.old.lists t.now }
        ensures tree { IfOk result (λ id. HasTree self.new id t.now) }
        ensures extends { OnOk result (Extends self.old self.new) }
        ensures known { OnOk result (KeepsKnown self.old t.now self.new) }
        ensures parts { OnOk result (AddsParts self.old t.now self.new) }
        ensures err { OnErr result (self.new ≡ self.old) }
    {
        let mark = self.mark();
        match self.put_tree(alloc, t) {
            Ok(id) => Ok(id),
            Err(error) => {
                self.release(mark);
                Err(error)
            }
        }
    }

    /// As `put_term`, but after want of memory the parts that were put stay.
    #[cycle(put)]
    fn put_tree(&mut self, alloc: Global, t: &Term) -> Result<TermId, AllocError>
        requires { IsTermInForm self.old.lists t.now }
        ensures tree { IfOk result (λ id. HasTree self.new id t.now) }
        ensures grows { Grows self.old (t.now ∷ []) self.new }
    {
        match t {
            Term::Num(n) => {
                let node = Node {
                    head: Head::Zero,
                    args: TermIds::new(alloc),
                    plus: *n,
                };
                self.intern(alloc, node)
            }
            Term::Plus(base, n) => {
                let base = base.get();
                sum_in_form(&self.lists, t, base, *n);
                self.put_base(alloc, base, *n)
            }
            _ => self.put_base(alloc, t, 0),
        }
    }

    #[cycle(put)]
    fn put_base(&mut self, alloc: Global, base: &Term, plus: i128) -> Result<TermId, AllocError>
        requires base { IsBase (out-Term base.now) }
        requires form { IsTermInForm self.old.lists base.now }
        requires sum { MayAdd self.old.lists (out-Term base.now) plus }
        ensures tree { IfOk result (λ id. HasTree self.new id (sum_of base.now plus)) }
        ensures grows { Grows self.old (sum_of base.now plus ∷ []) self.new }
    {
        let Some(head) = head_of(&self.lists, base) else {
            unreachable!()
        };
        let args = self.put_args(alloc, base)?;
        self.intern(alloc, Node { head, args, plus })
    }

    #[cycle(put)]
    fn put_args(&mut self, alloc: Global, base: &Term) -> Result<TermIds, AllocError>
        requires { IsTermInForm self.old.lists base.now }
        ensures trees { IfOk result (λ ids. AllZip (HasTree self.new) ids (args_of (out-Term base.now))) }
        ensures grows { Grows self.old (args_of (out-Term base.now)) self.new }
    {
        match base {
            Term::Apply(_, args) => {
                let args = args.as_slice();
                args_in_form(&self.lists, base, args);
                self.put_all(alloc, args)
            }
            Term::Read(_, index) => {
                let mut ids = TermIds::new(alloc);
                let index = index.get();
                index_in_form(&self.lists, base, index);
                ids.push(self.put_tree(alloc, index)?)?;
                Ok(ids)
            }
            _ => Ok(TermIds::new(alloc)),
        }
    }

    #[cycle(put)]
    fn put_all(&mut self, alloc: Global, terms: &[Term]) -> Result<TermIds, AllocError>
        requires { All (IsTermInForm self.old.lists) terms.now }
        ensures trees { IfOk result (λ ids. AllZip (HasTree self.new) ids terms.now) }
        ensures grows { Grows self.old terms.now self.new }
    {
        let mut ids = TermIds::new(alloc);
        for t in terms {
            ids.push(self.put_tree(alloc, t)?)?;
        }
        Ok(ids)
    }
}
