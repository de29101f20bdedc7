//! A row and its answer.

ghost use Rattle.std.specs.Prelude.{◌≤◌, length};

use crate::brackets::{self, Form};
use crate::scripts;
use jd_base::NoMemory;
use jd_written::Written;
use row_text::{Answer, first_word, unescaped};
use std::alloc::Global;

// Writes the answer of the operation to the text.
fn write_answer(
    alloc: Global,
    out: &mut Written,
    operation: &str,
    text: &[u8],
) -> Result<(), NoMemory>
    requires { length text.now ≤ 4294967295 }
{
    match operation {
        "tokens" => brackets::tokens(out, Form::Placed, text),
        "written" => brackets::tokens(out, Form::Plain, text),
        "integers" => brackets::tokens(out, Form::Integer, text),
        "numbers" => brackets::tokens(out, Form::Number, text),
        "sx" => brackets::sx(alloc, out, text),
        "script" => scripts::script(alloc, out, text),
        "proofs" => scripts::proofs(alloc, out, text),
        "tree" => scripts::tree(alloc, out, text),
        _ => out.word(b"no operation"),
    }
}

// What is asked of the text.
fn tell_text(answer: &mut Answer, alloc: Global, operation: &str, text: &[u8]) {
    if text.len() > 4_294_967_295 {
        return answer.put("too long");
    }
    let mut out = Written::new(alloc);
    let done = write_answer(alloc, &mut out, operation, text);
    answer.put_bytes(&out.into_bytes());
    if done.is_err() {
        answer.lack_memory();
    }
}

/// The answer to a row.
pub(crate) fn tell(answer: &mut Answer, alloc: Global, row: &str) {
    let (operation, escapes) = first_word(row);
    match &unescaped(alloc, escapes) {
        Ok(Some(text)) => tell_text(answer, alloc, operation, text),
        Ok(None) => answer.put("no text"),
        Err(_) => answer.lack_memory(),
    }
}
