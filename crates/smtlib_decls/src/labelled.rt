//! Assertions whose labels are found by one look-up.

ghost use Rattle.std.specs.Prelude.{◌≡◌, [], ◌∷◌, ◌++◌, OnOk, OnErr};
ghost use Rattle.smtlib_decls.specs.Labels.{is_taken, with_label};

use mbqi_terms::{Assertion, Assertions, Formula};
use mbqi_values::Text;
use name_tables::NameSet;
use std::alloc::{AllocError, Global};
use std::marker::Model;

/// Assertions in order, and the labels that they have. Contracts see the assertions.
#[derive(Drop)]
pub struct LabelledAssertions {
    assertions: Assertions,
    labels: NameSet,
}

impl Model for LabelledAssertions {
    ghost use Rattle.std.specs.Prelude.{List};
    ghost use Rattle.std.specs.Coded.{codes};
    ghost use Rattle.mbqi_terms.specs.declared.script.Assertion.{Assertion};
    ghost use Rattle.mbqi_terms.specs.contracts.script.Assertion as assertion;
    ghost use Rattle.smtlib_decls.specs.Labels.{AreLabels};

    ghost Value = { List Assertion };

    ghost coded = { Prim.hlevel (codes, assertion.the_row.coded) };

    ghost view = { λ l. l.assertions };

    ghost invariant = { λ l. AreLabels l.labels l.assertions };
}

/// Adds the label, if there is one. After want of memory the labels are as before.
fn note(labels: &mut NameSet, alloc: Global, label: &Option<Text>) -> Result<(), AllocError>
    ensures ok { OnOk result (labels.new ≡ with_label labels.old label.now) }
    ensures err { OnErr result (labels.new ≡ labels.old) }
{
    match label {
        Some(label) => labels.insert(alloc, label.as_slice()),
        None => Ok(()),
    }
}

/// Adds an assertion at the end, with its label. After want of memory both lists are as before.
#[tactic(auto, using(crate::proofs::LabelTables::front_of_labels))]
fn add(
    assertions: &mut Assertions,
    labels: &mut NameSet,
    alloc: Global,
    assertion: Assertion,
) -> Result<(), AllocError>
    ensures assertions { OnOk result (assertions.new ≡ assertions.old ++ assertion ∷ []) }
    ensures labels { OnOk result (labels.new ≡ with_label labels.old assertion.label) }
    ensures err { OnErr result (assertions.new ≡ assertions.old) }
    ensures as_before { OnErr result (labels.new ≡ labels.old) }
{
    let len = labels.len();
    note(labels, alloc, &assertion.label)?;
    match assertions.push(assertion) {
        Ok(()) => Ok(()),
        Err(error) => {
            labels.truncate(len);
            Err(error)
        }
    }
}

impl LabelledAssertions {
    /// No assertions.
    pub fn new(alloc: Global) -> LabelledAssertions
        ensures { result ≡ [] }
    {
        LabelledAssertions {
            assertions: Assertions::new(alloc),
            labels: NameSet::new(alloc),
        }
    }

    /// Whether there is a label, and one of the assertions has it.
    pub fn is_taken(&self, label: &Option<Text>) -> bool
        ensures { result ≡ is_taken label.now self.now }
    {
        match label {
            Some(label) => self.labels.contains(label.as_slice()),
            None => false,
        }
    }

    /// Adds an assertion at the end. After want of memory the list is as before.
    pub fn push(
        &mut self,
        alloc: Global,
        label: Option<Text>,
        formula: Formula,
    ) -> Result<(), AllocError>
        ensures ok { OnOk result (self.new ≡ self.old ++ record { label = label; formula = formula } ∷ []) }
        ensures err { OnErr result (self.new ≡ self.old) }
    {
        let assertion = Assertion { label, formula };
        add(&mut self.assertions, &mut self.labels, alloc, assertion)?;
        Ok(())
    }

    /// The assertions, which takes no memory.
    pub fn into_assertions(self) -> Assertions
        ensures { result ≡ self }
    {
        let LabelledAssertions { assertions, .. } = self;
        assertions
    }
}
