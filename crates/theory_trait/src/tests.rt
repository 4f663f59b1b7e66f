//! What no clause says: that the calls answer where memory is ample.

use super::*;
use mbqi_values::Lit;
use std::test::Fail;

#[test]
fn an_atom_is_free_again_after_its_frame(rt: HostRuntime) -> Result<(), Fail> {
    let alloc = rt.alloc();
    let mut theory = FreeTheory::new(alloc, 2);
    theory.reserve(2)?;
    theory.push();
    let first = theory.assume(Lit { atom: 1, yes: true });
    assert_eq!(rt; first, Assumed::Agree);
    assert!(rt; theory.clash().is_empty());
    assert!(rt; theory.settle(alloc)?.is_empty());
    theory.pop();
    let second = theory.assume(Lit {
        atom: 1,
        yes: false,
    });
    assert_eq!(rt; second, Assumed::Agree);
    Ok(())
}
