ghost use Rattle.std.specs.Prelude.{◌≡◌};
ghost use Rattle.jd_script.specs.declared.refusal.ScriptRefusal.TheVariants.{NoMemory as OutOfMemory};
ghost use Rattle.jd_proofs.specs.declared.refusal.ProofsRefusal.TheVariants.{File as OfFile};

use jd_base::NoMemory;
use jd_script::ScriptRefusal;

/// Why a text gives no obligation a proof.
#[derive(Drop)]
pub enum ProofsRefusal {
    /// It is no file of proof scripts, or memory ran out.
    File(ScriptRefusal),
    /// It is one, and this is the first name of a proof that no obligation has.
    UnknownObligation {
        /// The name.
        name: Vec<u8>,
    },
}

impl From<NoMemory> for ProofsRefusal {
    ghost from_gives = { λ _ e. e ≡ OfFile OutOfMemory };

    fn from(_error: NoMemory) -> ProofsRefusal {
        ProofsRefusal::File(ScriptRefusal::NoMemory)
    }
}
