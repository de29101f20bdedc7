//! Sorts of fields.

ghost use Rattle.jd_field_sorts.specs.Laws.{FieldsOfProgramsHaveSorts};

/// What a class sees by a name as a field of a type, the program has as a field of that type's sort (JLS 8.3).
pub fn fields_have_sorts()
    ensures { FieldsOfProgramsHaveSorts }
{}
