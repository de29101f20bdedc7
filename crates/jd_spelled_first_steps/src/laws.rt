ghost use Rattle.jd_spelled_first_steps.specs.Laws.{
  FirstInstancesKeepSpelled,
  FocusKeepsSpelled,
  RewritingKeepsSpelled,
  SetSimpleNeedsTermNames,
  SimpleTermsAreSpelled,
  SpelledFormulasAreSorted,
  VariablesAreTermNames,
};

use jd_spelled_trees::places_are_spelled;

/// Updates and code in a formula that the grammar spells are sorted as the first rules ask.
pub fn spelled_formulas_are_sorted()
    ensures { SpelledFormulasAreSorted }
{}

/// Code at a focus of spelled code is spelled, and other such code may be filled in.
pub fn focus_keeps_spelled()
    ensures { FocusKeepsSpelled }
{}

/// A simple expression of spelled code is spelled as a term.
pub fn simple_terms_are_spelled()
    ensures { SimpleTermsAreSpelled }
{}

/// Variables that are called as those of methods are, and none of them `created`, have words that terms read as them too.
pub fn variables_are_term_names()
    ensures { VariablesAreTermNames }
{}

/// What the rules put for a spelled formula at any place is spelled under the same binders.
pub fn rewriting_keeps_spelled()
    ensures { RewritingKeepsSpelled }
{}

/// Without that an assignment need not stay spelled: of a variable `created`, a term would be the field.
pub fn set_simple_needs_term_names()
    ensures { SetSimpleNeedsTermNames }
{}

/// The premises of an instance of a first rule are spelled where the sequent is, if they are within the limits.
pub fn first_instances_keep_spelled()
    ensures { FirstInstancesKeepSpelled }
{
    places_are_spelled();
}
