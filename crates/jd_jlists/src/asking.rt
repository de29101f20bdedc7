//! What a member is, by tests.

ghost use Rattle.jd_jclasses.specs.Members.{builds, is_constructor, is_method, is_variable};
ghost use Rattle.jd_jlists.specs.Views.{member_of_view};
ghost use Rattle.jd_syntax.specs.JavaTrees.{result_view};
ghost use Rattle.std.specs.Prelude.{◌≡◌};

use crate::member::{MemberKind, MemberOf};
use jd_syntax::ResultType;

// Whether it is what a constructor gives.
fn is_built(given: &ResultType) -> bool
    ensures { result ≡ builds (result_view given.now) }
{
    match given {
        ResultType::Void | ResultType::Gives(_) => false,
        ResultType::Constructor => true,
    }
}

impl MemberOf<'_> {
    /// Whether it is a field or a constant (JLS 8.3).
    pub fn is_variable(&self) -> bool
        ensures { result ≡ is_variable (member_of_view self.now).kind }
    {
        match self.kind {
            MemberKind::Field(_) | MemberKind::Constant(_) => true,
            MemberKind::Routine(_) => false,
        }
    }

    /// Whether it is a constructor (JLS 8.8).
    pub fn is_constructor(&self) -> bool
        ensures { result ≡ is_constructor (member_of_view self.now).kind }
    {
        match self.kind {
            MemberKind::Field(_) | MemberKind::Constant(_) => false,
            MemberKind::Routine(routine) => is_built(&routine.result),
        }
    }

    /// Whether it is a method (JLS 8.4).
    pub fn is_method(&self) -> bool
        ensures { result ≡ is_method (member_of_view self.now).kind }
    {
        match self.kind {
            MemberKind::Field(_) | MemberKind::Constant(_) => false,
            MemberKind::Routine(routine) => !is_built(&routine.result),
        }
    }
}
