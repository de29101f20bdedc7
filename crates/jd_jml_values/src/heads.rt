//! Names and types that begin with the first of some tokens.

ghost use Rattle.std.specs.Prelude.{◌≡◌, map};
ghost use Rattle.jd_jml_tokens.specs.Lexemes.{lexeme_view};
ghost use Rattle.jd_syntax.specs.JavaTypes.{identifier_view, type_view, written_view};
ghost use Rattle.jd_jml_values.specs.Heads as plain;
ghost use Rattle.jd_jml_values.specs.Views.{Gives};

use jd_base::{NoMemory, copy_bytes};
use jd_jml_tokens::{Lexeme, place_of, text_of};
use jd_syntax::{Identifier, JavaType, WrittenType};
use std::alloc::Global;

/// The name that the first token is.
pub fn identifier_at(alloc: Global, tokens: &[Lexeme<'_>]) -> Result<Identifier, NoMemory>
    ensures { Gives identifier_view result (plain.identifier_at (map lexeme_view tokens.now)) }
{
    let name = copy_bytes(alloc, text_of(tokens))?;
    let at = place_of(0, tokens);
    Ok(Identifier { at, name })
}

/// The type that begins with the first token.
pub fn type_at(tokens: &[Lexeme<'_>], written: JavaType) -> WrittenType
    ensures { written_view result ≡ plain.type_at (map lexeme_view tokens.now) (type_view written) }
{
    let at = place_of(0, tokens);
    WrittenType { at, written }
}

/// `int`, or `int[]` where `[]` stands behind it.
pub fn int_type(is_array: bool) -> JavaType
    ensures { type_view result ≡ plain.int_type is_array }
{
    if is_array {
        JavaType::IntArray
    } else {
        JavaType::Int
    }
}
