//! What a stage answers.

ghost use Rattle.std.specs.Prelude.{◌≡◌};
ghost use Rattle.jd_taclet_matching.specs.Answers.{ended};

use jd_base::NoMemory;
use jd_sequent::Bad;

/// What was made, where all of it was; else the cause.
pub fn ended<T: Drop>(whole: Result<bool, NoMemory>, made: T, otherwise: Bad) -> Result<T, Bad>
    ensures { result ≡ ended whole made otherwise }
{
    match whole {
        Ok(whole) => { if whole { Ok(made) } else { Err(otherwise) } }
        Err(_) => Err(Bad::NoMemory),
    }
}
