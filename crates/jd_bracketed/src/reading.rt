//! Bracketed expressions read token by token, with a stack of the lists that are open.

ghost use Rattle.std.specs.Prelude.{◌<◌};
ghost use Rattle.jd_syntax.specs.Sxs.{sx_view};
ghost use Rattle.jd_bracketed.specs.Readings as plain;
ghost use Rattle.jd_bracketed.specs.Readings.{step};
ghost use Rattle.jd_bracketed.specs.Tokens as tokens;
ghost use Rattle.jd_bracketed.specs.TokenViews.{kind_view};
ghost use Rattle.jd_bracketed.specs.ReadingViews.{reading_view, StepGives};

use crate::token::Kind;
use jd_syntax::Sx;
use std::alloc::Global;

/// Why a step failed.
#[derive(Clone, Copy)]
pub enum Stop {
    /// No expression goes on so.
    Syntax,
    /// Too many lists would be open.
    TooDeep,
    /// Memory ran out.
    NoMemory,
}

/// What stands before the next token.
#[derive(Drop)]
pub enum Reading {
    /// Nothing.
    Before,
    /// The parts of the innermost list that is open, and those of the lists around it, the outermost first.
    Inside(Vec<Sx>, Vec<Vec<Sx>>),
    /// A whole expression.
    Whole(Sx),
}

// The next expression comes.
fn added(x: Sx, reading: Reading) -> Result<Reading, Stop>
    ensures { StepGives result (plain.added (sx_view x) (reading_view reading)) }
{
    match reading {
        Reading::Before => Ok(Reading::Whole(x)),
        Reading::Inside(mut parts, around) => match parts.push(x) {
            Ok(()) => Ok(Reading::Inside(parts, around)),
            Err(_) => Err(Stop::NoMemory),
        },
        Reading::Whole(_other) => Err(Stop::Syntax),
    }
}

// A list is opened.
fn opened(alloc: Global, limit: usize, reading: Reading) -> Result<Reading, Stop>
    ensures { StepGives result (step limit (reading_view reading) tokens.Open) }
{
    match reading {
        Reading::Before => {
            if limit == 0 {
                return Err(Stop::TooDeep);
            }
            Ok(Reading::Inside(Vec::new(alloc), Vec::new(alloc)))
        }
        Reading::Inside(parts, mut around) => {
            if limit <= around.len() + 1 {
                return Err(Stop::TooDeep);
            }
            match around.push(parts) {
                Ok(()) => Ok(Reading::Inside(Vec::new(alloc), around)),
                Err(_) => Err(Stop::NoMemory),
            }
        }
        Reading::Whole(_) => Err(Stop::Syntax),
    }
}

// The innermost list is closed.
fn closed(reading: Reading) -> Result<Reading, Stop>
    ensures { StepGives result (plain.closed (reading_view reading)) }
{
    match reading {
        Reading::Before => Err(Stop::Syntax),
        Reading::Inside(parts, mut around) => {
            let list = Sx::List(parts);
            match around.pop() {
                None => Ok(Reading::Whole(list)),
                Some(mut outer) => match outer.push(list) {
                    Ok(()) => Ok(Reading::Inside(outer, around)),
                    Err(_) => Err(Stop::NoMemory),
                },
            }
        }
        Reading::Whole(_) => Err(Stop::Syntax),
    }
}

/// What stands before the token after this one.
pub fn stepped(
    alloc: Global,
    limit: usize,
    reading: Reading,
    kind: Kind<'_>,
) -> Result<Reading, Stop>
    ensures { StepGives result (step limit (reading_view reading) (kind_view kind.entry)) }
{
    match kind {
        Kind::Open => opened(alloc, limit, reading),
        Kind::Close => closed(reading),
        Kind::Word(word) => match Vec::from_slice(alloc, word) {
            Ok(text) => added(Sx::Atom(text), reading),
            Err(_) => Err(Stop::NoMemory),
        },
        Kind::OpenSquare | Kind::CloseSquare | Kind::Bad => Err(Stop::Syntax),
    }
}
