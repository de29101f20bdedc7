//! The parts of words.

ghost use Rattle.std.specs.Prelude.{◌≡◌, ℕ, List, MatchOption, option_map, []};
ghost use Rattle.jd_tforms.specs.Naming as plain;
ghost use Rattle.jd_tgrammar.specs.NameTables.{NameTable, member_word};
ghost use Rattle.jd_tparse.specs.Least.{least as lesser_of};

/// What stands before the first dot and behind it.
pub(crate) fn parted(word: &[u8]) -> Option<(&[u8], &[u8])>
    ensures { (names : NameTable) → option_map (λ p. (p.0.now, p.1.now)) result ≡ plain.parted names [] word.now }
{
    for at in 0..word.len() {
        if word[at] == b'.' {
            return Some((&word[..at], &word[at + 1..]));
        }
    }
    None
}

/// What stands behind the name and a dot, where the word begins with these.
pub(crate) fn behind<'w>(name: &[u8], word: &'w [u8]) -> Option<&'w [u8]>
    ensures { MatchOption result ((rest : List ℕ) → member_word name.now rest ≡ word.now → ⊥) (λ rest. member_word name.now rest.now ≡ word.now) }
{
    match word.strip_prefix(name) {
        None => None,
        Some(more) => more.strip_prefix(b"."),
    }
}

/// The lesser of two numbers that may be there.
pub(crate) fn least(one: Option<u32>, other: Option<u32>) -> Option<u32>
    ensures { result ≡ lesser_of one other }
{
    match one {
        None => other,
        Some(a) => match other {
            None => Some(a),
            Some(b) => { if b < a { Some(b) } else { Some(a) } }
        },
    }
}
