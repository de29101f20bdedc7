use jd_bodies::Place;
use std::alloc::Global;

/// The body in which something stands, and what the program declares.
#[derive(Clone, Copy)]
pub struct Body<'a, D> {
    /// Where memory is taken.
    pub alloc: Global,
    /// What the program declares.
    pub declared: &'a D,
    /// The class, and whether there is a `this`.
    pub place: Place,
}
