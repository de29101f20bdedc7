use jd_bodies::ValueType;

/// What an expression sees beside the names in scope.
#[derive(Clone, Copy)]
pub struct Sight<'a, D> {
    /// What the program declares.
    pub declared: &'a D,
    /// The number of the class in which it stands.
    pub class: u32,
    /// The type of `\result`.
    pub result: ValueType,
}
