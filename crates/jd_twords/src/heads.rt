//! The words that begin the forms.

ghost use Rattle.std.specs.Prelude.{◌≡◌, map, option_map};
ghost use Rattle.std.specs.List.{find};
ghost use Rattle.std.specs.Str.{bytes_eq};
ghost use Rattle.jd_tforms.specs.Heads as heads;
ghost use Rattle.jd_twords.specs.Beside.{find_beside};

use crate::places::Row;
use crate::shapes::is_word;
use crate::table::{EXPR_FORMS, FORMULA_FORMS, LOC_FORMS, STMT_FORMS, TERM_FORMS};
use jd_tforms::{ExprHead, FormulaHead, LocHead, StmtHead, TermHead};

// The first head of the table that has this word.
fn head_in<'a, H: Copy>(rows: &'a [Row<'a, H>], word: &[u8]) -> Option<H>
    ensures { result ≡ option_map (λ r. r.0) (find (λ r. bytes_eq r.1.now word.now) rows.now) }
{
    for i in 0..rows.len() {
        let (head, text, _, _) = rows[i];
        if is_word(text, word) {
            return Some(head);
        }
    }
    None
}

// The head that stands where this word does.
fn head_beside<'a, H: Copy>(rows: &'a [Row<'a, H>], word: &[u8]) -> Option<H>
    ensures { result ≡ find_beside (map (λ r. r.0) rows.now) (map (λ r. r.1.now) rows.now) word.now }
{
    head_in(rows, word)
}

/// What begins a term with this word.
pub fn term_head(word: &[u8]) -> Option<TermHead>
    ensures { result ≡ heads.head_of heads.term_word heads.term_heads word.now }
{
    head_beside(&TERM_FORMS, word)
}

/// What begins a location set with this word.
pub fn loc_head(word: &[u8]) -> Option<LocHead>
    ensures { result ≡ heads.head_of heads.loc_word heads.loc_heads word.now }
{
    head_beside(&LOC_FORMS, word)
}

/// What begins a formula with this word.
pub fn formula_head(word: &[u8]) -> Option<FormulaHead>
    ensures { result ≡ heads.head_of heads.formula_word heads.formula_heads word.now }
{
    head_beside(&FORMULA_FORMS, word)
}

/// What begins a expression of code with this word.
pub fn expr_head(word: &[u8]) -> Option<ExprHead>
    ensures { result ≡ heads.head_of heads.expr_word heads.expr_heads word.now }
{
    head_beside(&EXPR_FORMS, word)
}

/// What begins a statement with this word.
pub fn stmt_head(word: &[u8]) -> Option<StmtHead>
    ensures { result ≡ heads.head_of heads.stmt_word heads.stmt_heads word.now }
{
    head_beside(&STMT_FORMS, word)
}
