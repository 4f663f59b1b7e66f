//! What was read so far.

ghost use Rattle.std.specs.Prelude.{◌≡◌};
ghost use Rattle.smtlib_decls.specs.Scripts.{nothing, script_of};

use crate::labelled::LabelledAssertions;
use mbqi_terms::Script;
use smtlib_names::names::Names;
use std::alloc::Global;

/// What the commands so far have said.
#[derive(Drop)]
pub struct Progress {
    pub names: Names,
    pub assertions: LabelledAssertions,
    pub asks: bool,
}

impl Progress {
    /// Before the first command.
    pub fn new(alloc: Global) -> Progress
        ensures { result ≡ nothing }
    {
        Progress {
            names: Names::new(alloc),
            assertions: LabelledAssertions::new(alloc),
            asks: false,
        }
    }

    /// The script that the commands make. Macros are no part of it.
    pub fn into_script(self) -> Script
        ensures { result ≡ script_of self }
    {
        let Progress {
            names,
            assertions,
            asks,
        } = self;
        let (sorts, functions) = names.into_declared();
        Script {
            sorts,
            functions,
            assertions: assertions.into_assertions(),
            asks,
        }
    }
}
