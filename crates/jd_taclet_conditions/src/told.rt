//! What a condition tells: it fails, it holds, or it holds where a variable stands for a part.

ghost use Rattle.std.specs.Prelude.{◌≡◌, option_map};
ghost use Rattle.jd_taclet_matching.specs.OwnedParts.{owned_part};
ghost use Rattle.jd_taclet_stages.specs.Conditions.{Fixes, fixing, tested};
ghost use Rattle.jd_taclet_conditions.specs.Telling.{told_view};

use jd_taclet_matching::{OwnedEntry, OwnedPart};

/// What a condition tells.
#[derive(Drop)]
pub(crate) enum Told<'t> {
    /// It fails.
    Fails,
    /// It holds.
    Stands,
    /// It holds where the variable stands for the part.
    Fixes(OwnedEntry<'t>),
}

/// That it holds, or fails.
pub(crate) fn tested<'t>(b: bool) -> Told<'t>
    ensures { told_view result ≡ tested b }
{
    if b { Told::Stands } else { Told::Fails }
}

/// That the variable stands for the part.
pub(crate) fn fixed<'t>(name: &'t [u8], part: OwnedPart) -> Told<'t>
    ensures { told_view result ≡ Fixes name.now (owned_part part) }
{
    Told::Fixes(OwnedEntry { name, part })
}

/// The same, where there is a part.
pub(crate) fn fixing<'t>(name: &'t [u8], part: Option<OwnedPart>) -> Told<'t>
    ensures { told_view result ≡ fixing name.now (option_map owned_part part) }
{
    match part {
        Some(part) => fixed(name, part),
        None => Told::Fails,
    }
}
