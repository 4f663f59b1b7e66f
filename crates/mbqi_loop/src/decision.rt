//! The decision of the listed instances.

ghost use Rattle.std.specs.Prelude.{◌≡◌, ◌++◌, [], false, List, IfOk, IfSome, IfNone};
ghost use Rattle.std.specs.List.{list_all};
ghost use Rattle.mbqi_terms.specs.declared.instance.InstanceLine.{InstanceLine};
ghost use Rattle.function_model.specs.Fits.{Fits, NoRowsWithoutArguments};
ghost use Rattle.function_model.specs.Holds.{Holds};
ghost use Rattle.function_model.specs.Shown.{shown_of};
ghost use Rattle.mbqi_terms.specs.Meanings.{Meanings, truth_of};
ghost use Rattle.element_atoms.specs.Atoms.{IsPool, formulas_in};
ghost use Rattle.element_atoms.specs.Profile.{IsElementary};
ghost use Rattle.mbqi_loop.specs.Journal.{IsRound, first_lines};
ghost use Rattle.mbqi_loop.specs.Listed.{IsListed};

use crate::listed::Listed;
use crate::outcome::Round;
use crate::truths::truths_of;
use element_atoms::Pool;
use element_models::element_model;
use function_model::{shown_fits, shown_has_declared};
use mbqi_terms::Script;
use std::alloc::{AllocError, Global};
use tuple_check::failing_choices;

/// A round over the listed instances: a model of them, and all choices at which a rule fails in it; or none, where no valuation makes
/// all of them true. Where the round adds nothing, each assertion holds in the shown part of its model.
pub fn decide(
    alloc: Global,
    script: &Script,
    pool: &Pool,
    listed: &Listed,
) -> Result<Option<Round>, AllocError>
    requires elementary { IsElementary script.now }
    requires pool { IsPool script.now.functions pool.now }
    requires listed { IsListed script.now.functions pool.now.terms listed.now }
    requires first { (more : List InstanceLine) × (listed.now.lines ≡ first_lines script.now ++ more) }
    ensures round { IfOk result (λ found. IfSome found (IsRound script.now listed.now.lines)) }
    ensures fits { IfOk result (λ found. IfSome found (λ round. Fits script.now (shown_of round.model))) }
    ensures bare { IfOk result (λ found. IfSome found (λ round. NoRowsWithoutArguments (shown_of round.model))) }
    ensures holds { IfOk result (λ found. IfSome found (λ round. round.added ≡ [] → Holds (shown_of round.model) script.now)) }
    ensures refuted { IfOk result (λ found. IfNone found ((m : Meanings) → list_all (truth_of m) (formulas_in listed.now.lines) ≡ false)) }
{
    let atoms = listed.table.as_slice();
    match truths_of(alloc, &listed.clauses, listed.table.len())? {
        Some(truths) => {
            let model = element_model(alloc, script, pool, atoms, truths.as_slice())?;
            let added = failing_choices(alloc, script, pool, &listed.table, truths.as_slice())?;
            shown_fits();
            shown_has_declared();
            Ok(Some(Round { model, added }))
        }
        None => Ok(None),
    }
}
