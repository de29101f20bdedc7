ghost use Rattle.jd_body_variables.specs.Laws.{BodiesBeginWithParameters, BodyVariablesAreOrdinary, VariablesAreMadeOfNames};

/// The variables of a body begin with `this`, unless the method is static, and the parameters.
pub fn bodies_begin_with_parameters()
    ensures { BodiesBeginWithParameters }
{}

/// None of them is named like a special variable.
pub fn body_variables_are_ordinary()
    ensures { BodyVariablesAreOrdinary }
{}

/// Each is `this`, a temporary, or made of the name of a parameter or local that the method declares, whatever test these names pass.
pub fn variables_are_made_of_names()
    ensures { VariablesAreMadeOfNames }
{}
