//! The terms of what clauses speak of.

ghost use Rattle.std.specs.Prelude.{◌≡◌, IfOk, map, option_map};
ghost use Rattle.jd_case_clauses.specs.Spelled.{parameter_term};
ghost use Rattle.jd_jml_formulas.specs.Spellings.{spelling_view};
ghost use Rattle.jd_jml_meaning.specs.ContractFormulas.{contract_spelling, result_term};
ghost use Rattle.jd_row_makers.specs.Heads.{declared_view, parameter_view};
ghost use Rattle.jd_term.specs.Makers.{GivesTerm};
ghost use Rattle.jd_term.specs.TermViews.{term_view};

use jd_base::{NoMemory, both};
use jd_jml_formulas::Spelled;
use jd_lists::put;
use jd_row_makers::{
    DeclaredType, Moment, Parameter, heap, receiver, result_variable, sort_of_type, thrown,
};
use jd_term::Term;
use std::alloc::Global;

// The value of a parameter.
fn argument(alloc: Global, p: &Parameter) -> Result<Term, NoMemory>
    ensures { GivesTerm result (parameter_term (parameter_view p.now)) }
{
    let c = p.constant.copy(alloc)?;
    Ok(Term::Constant(c))
}

// The values of parameters.
fn arguments(alloc: Global, ps: &[Parameter]) -> Result<Vec<Term>, NoMemory>
    ensures { IfOk result (λ v. map term_view v.items ≡ map parameter_term (map parameter_view ps.now)) }
{
    let mut made = Vec::new(alloc);
    for p in ps {
        put(&mut made, argument(alloc, p)?)?;
    }
    Ok(made)
}

// What the method gives.
fn value(alloc: Global, t: Option<DeclaredType>) -> Result<Term, NoMemory>
    ensures { GivesTerm result (result_term (option_map declared_view t)) }
{
    match t {
        None => Ok(Term::Number(0)),
        Some(t) => {
            let v = result_variable(alloc, sort_of_type(t.form))?;
            Ok(Term::ProgramVariable(v))
        }
    }
}

/// The terms of what the clauses of a case speak of: the heap's variable and its constant, the parameters' constants, `#r_this`, and the
/// variables of the result and of what was thrown.
///
/// # Errors
///
/// `NoMemory` if memory runs out.
pub fn spelled(
    alloc: Global,
    parameters: &[Parameter],
    outcome: Option<DeclaredType>,
) -> Result<Spelled, NoMemory>
    ensures { IfOk result (λ s. spelling_view s ≡ contract_spelling (map parameter_view parameters.now) (option_map declared_view outcome)) }
{
    let heaps = both(heap(alloc, Moment::End), heap(alloc, Moment::Entry));
    let objects = both(receiver(alloc), both(value(alloc, outcome), thrown(alloc)));
    let lists = both(arguments(alloc, parameters), arguments(alloc, parameters));
    let ((now, before), ((this, (value, thrown)), (arguments, arguments_before))) = both(
        heaps,
        both(objects, lists),
    )?;
    Ok(Spelled {
        now,
        before,
        arguments,
        arguments_before,
        this,
        value,
        thrown,
    })
}
