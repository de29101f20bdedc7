ghost use Rattle.std.specs.Prelude.{◌≡◌};
ghost use Rattle.jd_statements.specs.declared.stop.Stop.TheVariants.{NoMemory as OutOfMemory, Refused};

use jd_base::NoMemory;
use jd_bodies::Fault;

/// Why a body is not judged to its end.
#[derive(Clone, Copy)]
pub enum Stop {
    /// The token is refused, the first one.
    Refused(Fault),
    /// Memory ran out.
    NoMemory,
}

impl From<NoMemory> for Stop {
    ghost from_gives = { λ _ e. e ≡ OutOfMemory };

    fn from(_error: NoMemory) -> Stop {
        Stop::NoMemory
    }
}

impl From<Fault> for Stop {
    ghost from_gives = { λ f e. e ≡ Refused f };

    fn from(fault: Fault) -> Stop {
        Stop::Refused(fault)
    }
}
