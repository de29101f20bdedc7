//! Sides of sequents, and paths that are empty.

ghost use Rattle.std.specs.Prelude.{◌≡◌};
ghost use Rattle.jd_taclet_stages.specs.Stages.{is_empty, is_side};

use jd_model::Side;

/// Whether both are one side.
pub(crate) fn is_side(a: Side, b: Side) -> bool
    ensures { result ≡ is_side a b }
{
    match a {
        Side::Left => match b {
            Side::Left => true,
            Side::Right => false,
        },
        Side::Right => match b {
            Side::Left => false,
            Side::Right => true,
        },
    }
}

/// Whether the path is that of a whole formula.
#[tactic(auto, using(crate::proofs::Emptiness::empty))]
pub(crate) fn is_whole(path: &[u32]) -> bool
    ensures { result ≡ is_empty path.now }
{
    match path {
        [] => true,
        [_, ..] => false,
    }
}
