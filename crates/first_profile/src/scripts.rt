//! Scripts of the profile.

ghost use Rattle.std.specs.Prelude.{◌↔◌, IsTrue};
ghost use Rattle.element_atoms.specs.Profile.{IsElementary};
ghost use Rattle.first_profile.specs.Parts.{AreDeclarations, HasOneSort};

use crate::functions::are_functions;
use crate::rules::are_rules;
use mbqi_terms::Script;

/// Whether there is one sort at most, and no function and no assertion without it.
fn has_one_sort(script: &Script) -> bool
    ensures { IsTrue result ↔ HasOneSort script.now }
{
    match script.sorts.len() {
        0 => script.functions.is_empty() && script.assertions.is_empty(),
        sorts => sorts == 1,
    }
}

fn are_declarations(script: &Script) -> bool
    ensures { IsTrue result ↔ AreDeclarations script.now }
{
    has_one_sort(script) && are_functions(script.functions.as_slice())
}

/// Whether a script is one of the first profile.
pub fn is_elementary(script: &Script) -> bool
    ensures { IsTrue result ↔ IsElementary script.now }
{
    are_declarations(script) && are_rules(script.functions.as_slice(), script.assertions.as_slice())
}
