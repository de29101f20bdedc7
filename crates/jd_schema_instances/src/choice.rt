use jd_base::ClassId;
use jd_schema_matching::Found;

/// The classes of what the machine throws, by their numbers in a program (JLS 11.1.1).
#[derive(Clone, Copy)]
pub struct MachineClasses {
    /// `NullPointerException`
    pub null_pointer: ClassId,
    /// `ArithmeticException`
    pub division_by_zero: ClassId,
    /// `ArrayIndexOutOfBoundsException`
    pub out_of_bounds: ClassId,
    /// `ClassCastException`
    pub bad_cast: ClassId,
    /// `NegativeArraySizeException`
    pub negative_size: ClassId,
}

/// What a pattern's variables stand for, by the bindings that were found, and the classes of what the machine throws.
#[derive(Clone, Copy)]
pub struct Chosen<'f, 't> {
    /// The bindings; a variable that is not bound stands for a default of its kind.
    pub found: &'f Found<'t>,
    /// The classes.
    pub machine: MachineClasses,
}
