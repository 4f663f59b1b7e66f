//! Ground instances of rules.

ghost use Rattle.std.specs.Prelude.{◌≡◌, [], length, map, All, IfOk};
ghost use Rattle.element_atoms.specs.Atoms.{formulas_in};
ghost use Rattle.element_atoms.specs.Profile.{IsArgument, IsAtom, IsClause, IsElementary, IsGround, IsLiteral, IsRule};
ghost use Rattle.rule_form.specs.Instance.{IsInstance, whole_at};
ghost use Rattle.rule_form.specs.Rules.{IsChoice, clause_at, first_from, line_of, lines_of, term_at, variables_of};
ghost use Rattle.mbqi_terms.specs.Substitution.{put_into, put_into_formula};

use crate::choice::Choice;
use crate::parts::rule_parts;
use element_atoms::declared;
use mbqi_terms::{
    Formula, Formulas, Function, InstanceLine, InstanceLines, Script, Symbol, Term, Terms,
    copy_formula, copy_term, copy_terms,
};
use sqlite_items::Boxed;
use std::alloc::{AllocError, Global};

/// The instances of the rules without variables: each such assertion whole. The one error is want of memory.
pub fn first_lines(alloc: Global, script: &Script) -> Result<InstanceLines, AllocError>
    requires { IsElementary script.now }
    ensures lines { IfOk result (λ lines. lines ≡ first_from 0 script.now.assertions) }
    ensures ground { IfOk result (λ lines. All (IsClause script.now.functions (IsGround script.now.functions)) (formulas_in lines)) }
    ensures instances { IfOk result (All (λ line. IsInstance script.now line.assertion line.terms line.formula)) }
{
    let mut lines = InstanceLines::new(alloc);
    for (rule, assertion) in script.assertions.as_slice().iter().enumerate() {
        let (variables, _) = rule_parts(&assertion.formula);
        if variables == 0 {
            lines.push(itself(alloc, script, rule, &assertion.formula)?)?;
        }
    }
    Ok(lines)
}

// The whole instance of an assertion without variables: being a clause, it is the assertion itself.
fn itself(
    alloc: Global,
    script: &Script,
    rule: usize,
    formula: &Formula,
) -> Result<InstanceLine, AllocError>
    requires elementary { IsElementary script.now }
    requires rule { IsRule script.now.functions formula.now }
    requires closed { variables_of formula.now ≡ 0 }
    ensures { IfOk result (λ line. line ≡ record { assertion = rule; terms = []; formula = whole_at rule formula.now [] }) }
{
    let _functions = &script.functions;
    Ok(InstanceLine {
        assertion: rule,
        terms: Terms::new(alloc),
        formula: copy_formula(alloc, formula)?,
    })
}

/// The instances of choices, in order. The one error is want of memory.
pub fn chosen_lines(
    alloc: Global,
    script: &Script,
    choices: &[Choice],
) -> Result<InstanceLines, AllocError>
    requires elementary { IsElementary script.now }
    requires choices { All (IsChoice script.now) choices.now }
    ensures lines { IfOk result (λ lines. lines ≡ lines_of script.now.assertions choices.now) }
    ensures ground { IfOk result (λ lines. All (IsClause script.now.functions (IsGround script.now.functions)) (formulas_in lines)) }
    ensures instances { IfOk result (All (λ line. IsInstance script.now line.assertion line.terms line.formula)) }
{
    let mut lines = InstanceLines::new(alloc);
    for choice in choices {
        lines.push(instance_line(alloc, script, choice)?)?;
    }
    Ok(lines)
}

// The instance of a rule at the terms of a choice.
fn instance_line(
    alloc: Global,
    script: &Script,
    choice: &Choice,
) -> Result<InstanceLine, AllocError>
    requires elementary { IsElementary script.now }
    requires choice { IsChoice script.now choice.now }
    ensures { IfOk result (λ line. line ≡ line_of script.now.assertions choice.now) }
{
    let assertion = &script.assertions.as_slice()[choice.rule];
    let (_, clause) = rule_parts(&assertion.formula);
    Ok(InstanceLine {
        assertion: choice.rule,
        terms: copy_terms(alloc, choice.terms.as_slice())?,
        formula: clause_at(
            alloc,
            script.functions.as_slice(),
            clause,
            choice.terms.as_slice(),
        )?,
    })
}

// A clause with these terms in the places of its variables.
fn clause_at(
    alloc: Global,
    functions: &[Function],
    clause: &Formula,
    terms: &[Term],
) -> Result<Formula, AllocError>
    requires { IsClause functions.now (IsArgument functions.now (length terms.now)) clause.now }
    ensures { IfOk result (λ formula. formula ≡ clause_at clause.now terms.now) }
{
    match clause {
        Formula::Any(literals) => {
            let literals = literals_at(alloc, functions, literals.as_slice(), terms)?;
            Ok(Formula::Any(literals))
        }
        _ => literal_at(alloc, functions, clause, terms),
    }
}

fn literals_at(
    alloc: Global,
    functions: &[Function],
    literals: &[Formula],
    terms: &[Term],
) -> Result<Formulas, AllocError>
    requires { All (IsLiteral functions.now (IsArgument functions.now (length terms.now))) literals.now }
    ensures { IfOk result (λ formulas. formulas ≡ map (put_into_formula (term_at terms.now)) literals.now) }
{
    let mut formulas = Formulas::new(alloc);
    for literal in literals {
        formulas.push(literal_at(alloc, functions, literal, terms)?)?;
    }
    Ok(formulas)
}

fn literal_at(
    alloc: Global,
    functions: &[Function],
    literal: &Formula,
    terms: &[Term],
) -> Result<Formula, AllocError>
    requires { IsLiteral functions.now (IsArgument functions.now (length terms.now)) literal.now }
    ensures { IfOk result (λ formula. formula ≡ put_into_formula (term_at terms.now) literal.now) }
{
    match literal {
        Formula::Atom(t) => Ok(Formula::Atom(atom_at(alloc, functions, t, terms)?)),
        Formula::Not(negated) => {
            let Formula::Atom(t) = negated.get() else {
                unreachable!()
            };
            let atom = Formula::Atom(atom_at(alloc, functions, t, terms)?);
            Ok(Formula::Not(Boxed::new(alloc, atom)?))
        }
        _ => unreachable!(),
    }
}

fn atom_at(
    alloc: Global,
    functions: &[Function],
    t: &Term,
    terms: &[Term],
) -> Result<Term, AllocError>
    requires { IsAtom functions.now (IsArgument functions.now (length terms.now)) t.now }
    ensures { IfOk result (λ atom. atom ≡ put_into (term_at terms.now) t.now) }
{
    let (predicate, args) = declared(t);
    let args = arguments_at(alloc, functions, args, terms)?;
    Ok(Term::Apply(Symbol::Declared(predicate), args))
}

fn arguments_at(
    alloc: Global,
    functions: &[Function],
    args: &[Term],
    terms: &[Term],
) -> Result<Terms, AllocError>
    requires { All (IsArgument functions.now (length terms.now)) args.now }
    ensures { IfOk result (λ put. put ≡ map (put_into (term_at terms.now)) args.now) }
{
    let mut put = Terms::new(alloc);
    for arg in args {
        put.push(argument_at(alloc, functions, arg, terms)?)?;
    }
    Ok(put)
}

fn argument_at(
    alloc: Global,
    functions: &[Function],
    arg: &Term,
    terms: &[Term],
) -> Result<Term, AllocError>
    requires { IsArgument functions.now (length terms.now) arg.now }
    ensures { IfOk result (λ term. term ≡ put_into (term_at terms.now) arg.now) }
{
    match arg {
        Term::Var(place) => copy_term(alloc, &terms[*place]),
        _ => copy_term(alloc, arg),
    }
}
