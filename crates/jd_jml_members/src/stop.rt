ghost use Rattle.std.specs.Prelude.{◌≡◌};
ghost use Rattle.jd_jml_members.specs.declared.stop.Stop.TheVariants.{NoMemory as OutOfMemory, Refused};

use jd_base::NoMemory;
use jd_specifications::SpecFault;

/// Why JML is not judged to its end.
#[derive(Clone, Copy)]
pub enum Stop {
    /// The token is refused, the first one.
    Refused(SpecFault),
    /// Memory ran out.
    NoMemory,
}

impl From<NoMemory> for Stop {
    ghost from_gives = { λ _ e. e ≡ OutOfMemory };

    fn from(_error: NoMemory) -> Stop {
        Stop::NoMemory
    }
}

impl From<SpecFault> for Stop {
    ghost from_gives = { λ f e. e ≡ Refused f };

    fn from(fault: SpecFault) -> Stop {
        Stop::Refused(fault)
    }
}
