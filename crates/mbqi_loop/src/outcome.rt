//! What the loop answers.

use function_model::FunctionModel;
use mbqi_terms::InstanceLines;
use mbqi_values::Sequence;
use rule_form::Choices;

/// A round of the loop: a full model in which each instance listed so far is true, and the choices that were added since their
/// instances are false in it.
#[derive(Drop)]
pub struct Round {
    pub model: FunctionModel,
    pub added: Choices,
}

/// The rounds, in order.
pub type Journal = Sequence<Round>;

/// The answer to a script, with its reason and the way to it.
#[derive(Drop)]
pub enum Outcome {
    /// A model in which each assertion holds: the shown part of the last round's.
    Sat(FunctionModel, Journal),
    /// Instances of assertions that no valuation makes true together.
    Unsat(InstanceLines, Journal),
}
