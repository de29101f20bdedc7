//! What JML means, and the formulas that stand for it.
#![tactic(auto)]

ghost use Rattle.jd_jml_meaning.specs.Laws.{CasesAreKeptAlike, ContractsMean, FormulasAreFirstOrder, FormulasHold, InvariantsMean, LocationsAreNamed, MeaningIsStable, ScopedIsClosed, TermsHaveValues};

/// The term of an expression has the expression's value.
pub fn terms_have_values()
    ensures { TermsHaveValues }
{}

/// The formula of an expression is true exactly where the expression holds.
pub fn formulas_hold()
    ensures { FormulasHold }
{}

/// A location is in the set of a clause exactly where the clause names it.
pub fn locations_are_named()
    ensures { LocationsAreNamed }
{}

/// The truth of an object's invariants is what JML says of them.
pub fn invariants_mean()
    ensures { InvariantsMean }
{}

/// Where the denial of what an expression says fails, it holds.
pub fn meaning_is_stable()
    ensures { MeaningIsStable }
{}

/// The formulas of a contract say of entries and ends what JML says.
pub fn contracts_mean()
    ensures { ContractsMean }
{}

/// A case is kept by its formulas exactly where it is kept by JML.
pub fn cases_are_kept_alike()
    ensures { CasesAreKeptAlike }
{}

/// No formula of an expression has an update or a modality.
pub fn formulas_are_first_order()
    ensures { FormulasAreFirstOrder }
{}

/// Where bound variables have their binders, nothing is free in what stands for an expression or a clause's locations.
pub fn scoped_is_closed()
    ensures { ScopedIsClosed }
{}
