ghost use Rattle.std.specs.Prelude.{◌≡◌};
ghost use Rattle.jd_bodies.specs.Declarations.{Declarations};
ghost use Rattle.jd_naming.specs.Views.{signature_view};

use jd_bodies::{ValueType, Variable};

/// A method or constructor: the class that declares it, what it takes and what it gives.
#[derive(Clone, Copy)]
pub struct Signature<'a> {
    /// The number of the class.
    pub class: u32,
    /// Whether it is static.
    pub is_static: bool,
    /// The types of its parameters.
    pub parameters: &'a [ValueType],
    /// The type of its result; none where it has none.
    pub result: Option<ValueType>,
}

/// What names stand for in a program. Classes, fields and routines are numbers.
pub trait Declares {
    ghost declarations: { Self → Declarations };

    /// The class of the name.
    fn class_named(&self, name: &[u8]) -> Option<u32>
        ensures { result ≡ (declarations self.now).class_named name.now };

    /// What the class extends.
    fn parent(&self, class: u32) -> Option<u32>
        ensures { result ≡ (declarations self.now).parent class };

    /// Whether the one class is the other or extends it, over as many classes as may be.
    fn is_subclass(&self, below: u32, above: u32) -> bool
        ensures { result ≡ (declarations self.now).is_subclass below above };

    /// The nearest class that is both or that both extend.
    fn joined(&self, one: u32, other: u32) -> u32
        ensures { result ≡ (declarations self.now).joined one other };

    /// The field or constant that the class sees by the name.
    fn variable(&self, class: u32, name: &[u8]) -> Option<Variable>
        ensures { result ≡ (declarations self.now).variable class name.now };

    /// The method that the class sees by the name.
    fn method(&self, class: u32, name: &[u8]) -> Option<u32>
        ensures { result ≡ (declarations self.now).method class name.now };

    /// The constructor that runs for the class.
    fn constructor(&self, class: u32) -> Option<u32>
        ensures { result ≡ (declarations self.now).constructor class };

    /// What the method or constructor takes and gives.
    fn signature(&self, routine: u32) -> Signature<'_>
        ensures { signature_view result ≡ (declarations self.now).signature routine };
}
