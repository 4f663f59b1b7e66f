//! Look-ups of terms.

ghost use Rattle.std.specs.Prelude.{◌≡◌, ◌<◌, length, None, All, IfOk, IfSome};
ghost use Rattle.std.specs.List.{AllZip};
ghost use Rattle.mbqi_terms.specs.declared.term.Term.{out-Term};
ghost use Rattle.mbqi_terms.specs.Store.{HasTree, HasShape, IsAbsent, AreAbsent, args_of, tree_of_node};
ghost use Rattle.mbqi_terms.specs.Tree.{IsBase, sum_of};

use super::TermStore;
use crate::store::ids::TermIds;
use crate::store::node::{Head, Node};
use crate::store::parts::{head_of, is_base};
use crate::term::Term;
use crate::term_id::TermId;
use std::alloc::{AllocError, Global};

impl TermStore {
    /// The number of the equal term: none where the store doesn't have it.
    #[cycle(find)]
    pub fn find_term(&self, alloc: Global, t: &Term) -> Result<Option<TermId>, AllocError>
        ensures found { IfOk result (λ found. IfSome found (λ id. HasTree self.now id t.now)) }
        ensures missing { IfOk result (λ found. found ≡ None → IsAbsent self.now t.now) }
    {
        // What the store keeps, which this opens, rules out a sum that isn't in form.
        let _ = &self.lists;
        match t {
            Term::Num(n) => {
                let node = Node {
                    head: Head::Zero,
                    args: TermIds::new(alloc),
                    plus: *n,
                };
                Ok(self.number_of_node(&node))
            }
            Term::Plus(base, n) => {
                if *n != 0 && is_base(base.get()) {
                    self.find_base(alloc, base.get(), *n)
                } else {
                    Ok(None)
                }
            }
            _ => self.find_base(alloc, t, 0),
        }
    }

    #[cycle(find)]
    fn find_base(
        &self,
        alloc: Global,
        base: &Term,
        plus: i128,
    ) -> Result<Option<TermId>, AllocError>
        requires { IsBase (out-Term base.now) }
        ensures found { IfOk result (λ found. IfSome found (λ id. HasTree self.now id (sum_of base.now plus))) }
        ensures missing { IfOk result (λ found. found ≡ None → IsAbsent self.now (sum_of base.now plus)) }
    {
        let Some(head) = head_of(&self.lists, base) else {
            return Ok(None);
        };
        let Some(args) = self.find_args(alloc, base)? else {
            return Ok(None);
        };
        Ok(self.number_of_node(&Node { head, args, plus }))
    }

    #[cycle(find)]
    fn find_args(&self, alloc: Global, base: &Term) -> Result<Option<TermIds>, AllocError>
        ensures found { IfOk result (λ found. IfSome found (λ ids. AllZip (HasTree self.now) ids (args_of (out-Term base.now)))) }
        ensures missing { IfOk result (λ found. found ≡ None → AreAbsent self.now (args_of (out-Term base.now))) }
    {
        match base {
            Term::Apply(_, args) => self.find_all(alloc, args.as_slice()),
            Term::Read(_, index) => {
                let mut ids = TermIds::new(alloc);
                let Some(id) = self.find_term(alloc, index.get())? else {
                    return Ok(None);
                };
                ids.push(id)?;
                Ok(Some(ids))
            }
            _ => Ok(Some(TermIds::new(alloc))),
        }
    }

    #[cycle(find)]
    fn find_all(&self, alloc: Global, terms: &[Term]) -> Result<Option<TermIds>, AllocError>
        ensures found { IfOk result (λ found. IfSome found (λ ids. AllZip (HasTree self.now) ids terms.now)) }
        ensures missing { IfOk result (λ found. found ≡ None → AreAbsent self.now terms.now) }
    {
        let mut ids = TermIds::new(alloc);
        for t in terms {
            let Some(id) = self.find_term(alloc, t)? else {
                return Ok(None);
            };
            ids.push(id)?;
        }
        Ok(Some(ids))
    }

    fn number_of_node(&self, node: &Node) -> Option<TermId>
        requires stored { All (λ id. id.0 < length self.now.nodes) node.now.args }
        requires shape { HasShape self.now.lists node.now.head node.now.args }
        ensures found { IfSome result (λ id. HasTree self.now id (tree_of_node self.now node.now)) }
        ensures missing { result ≡ None → IsAbsent self.now (tree_of_node self.now node.now) }
    {
        let place = self.nodes.place_of(node)?;
        Some(TermId(place))
    }
}
