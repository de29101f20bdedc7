ghost use Rattle.std.specs.Prelude.{◌≡◌, ◌∷◌, IfOk, map, option_map};
ghost use Rattle.jd_syntax.specs.Sxs.{bracketed_list, sx_view};
ghost use Rattle.jd_tcode.specs.Behind as behind;

use jd_base::{NoMemory, Sort};
use jd_syntax::Sx;
use std::alloc::Global;

/// What an expression is read with.
#[derive(Drop)]
pub struct Reader<'a, N> {
    /// The memory for what is read.
    pub alloc: Global,
    /// What names stand for.
    pub names: &'a N,
    /// The sorts of the binders around it, the innermost first.
    pub binders: &'a [Sort],
}

/// The binders with one more around.
///
/// # Errors
///
/// `NoMemory` if memory runs out.
pub fn under(alloc: Global, sort: Sort, binders: &[Sort]) -> Result<Vec<Sort>, NoMemory>
    ensures { IfOk result (λ v. v.items ≡ sort ∷ binders.now) }
{
    let mut inner = Vec::with_capacity(alloc, binders.len().saturating_add(1))?;
    inner.push(sort)?;
    inner.extend_from_slice(binders)?;
    Ok(inner)
}

/// The word that stands first in brackets.
pub fn first_word(parts: &[Sx]) -> Option<&[u8]>
    ensures { option_map (λ w. w.now) result ≡ behind.first_word (bracketed_list (map sx_view parts.now)) }
{
    match parts {
        [] => None,
        [first, ..] => match first {
            Sx::Atom(word) => Some(word.as_slice()),
            Sx::List(_) => None,
        },
    }
}
