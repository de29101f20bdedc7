//! Whether kinds are one.

ghost use Rattle.std.specs.Prelude.{◌≡◌};
ghost use Rattle.jd_schema_matching.specs.Tested.{tests};
ghost use Rattle.jd_syntax.specs.CodeViews.{kind_view};

use jd_syntax::Kind;

/// Whether both are one kind.
pub fn is_kind(a: Kind, b: Kind) -> bool
    ensures { result ≡ tests.kind.same (kind_view a) (kind_view b) }
{
    a.equals(&b)
}
