//! Laws on sound models.

ghost use Rattle.mbqi_terms.specs.declared.script.Script.{Script};
ghost use Rattle.mbqi_terms.specs.InForm.{plain_lists};
ghost use Rattle.mbqi_terms.specs.ScriptLists.{lists_of};
ghost use Rattle.function_model.specs.declared.model.FunctionModel.{FunctionModel};
ghost use Rattle.function_model.specs.Fits.{Fits, FitsFull};
ghost use Rattle.function_model.specs.Sound.{GivesSorts, IsSound};

/// A shown model that fits a script is sound, and its values have their sorts, by the lists of the script and by its functions alone.
pub fn fitting_is_sound()
    ensures sound { (script : Script) (model : FunctionModel) → Fits script model → IsSound model }
    ensures sorts { (script : Script) (model : FunctionModel) → Fits script model → GivesSorts (lists_of script) model }
    ensures plain_sorts { (script : Script) (model : FunctionModel) → Fits script model → GivesSorts (plain_lists script.functions) model }
{}

/// So is a full model that fits a script.
pub fn full_is_sound()
    ensures sound { (script : Script) (model : FunctionModel) → FitsFull script model → IsSound model }
    ensures sorts { (script : Script) (model : FunctionModel) → FitsFull script model → GivesSorts (lists_of script) model }
    ensures plain_sorts { (script : Script) (model : FunctionModel) → FitsFull script model → GivesSorts (plain_lists script.functions) model }
{}
