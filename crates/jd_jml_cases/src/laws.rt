ghost use Rattle.jd_jml_cases.specs.Laws.{CasesAreContracts, LineagesAreClassesUp, WrittenAreContracts};

/// Laws, without code: the cases of a method or constructor stand for the contracts that the program has for it, in their order.
pub fn cases_are_contracts()
    ensures written { WrittenAreContracts }
    ensures cases { CasesAreContracts }
{}

/// Law, without code: the classes along which a method's cases are looked for are its class and all those above it, the topmost first.
pub fn lineages_are_classes_up()
    ensures { LineagesAreClassesUp }
{}
