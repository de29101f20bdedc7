/// A number for each member, in the order of the members, the same for those that agree in something.
#[derive(Clone, Copy)]
pub struct Numbers<'a> {
    /// The members' numbers.
    pub of: &'a [u32],
    /// A number that all of them are below.
    pub count: u32,
}

/// The numbers of members that agree.
#[derive(Clone, Copy)]
pub struct MemberNumbers<'a> {
    /// In the name.
    pub names: Numbers<'a>,
    /// In the name and the types of the parameters (JLS 8.4.2).
    pub signatures: Numbers<'a>,
    /// In the name, the result, and whether they are static (JLS 8.4.5).
    pub returns: Numbers<'a>,
}
