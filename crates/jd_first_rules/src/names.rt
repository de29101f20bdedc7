ghost use Rattle.std.specs.Prelude.{◌≡◌, IfSome};
ghost use Rattle.jd_first_steps.specs.Names.{rule_name, rule_named};

use jd_first_steps::FirstRule;

/// The rule of a name; `None` where no rule has it.
pub fn named(name: &[u8]) -> Option<FirstRule>
    ensures rule { result ≡ rule_named name.now }
    ensures has_name { IfSome result (λ rule. name.now ≡ rule_name rule) }
{
    if name == b"close".as_slice() {
        return Some(FirstRule::Close);
    }
    if name == b"closeTrue".as_slice() {
        return Some(FirstRule::CloseTrue);
    }
    if name == b"notLeft".as_slice() {
        return Some(FirstRule::NotLeft);
    }
    if name == b"andLeft".as_slice() {
        return Some(FirstRule::AndLeft);
    }
    if name == b"andRight".as_slice() {
        return Some(FirstRule::AndRight);
    }
    if name == b"impRight".as_slice() {
        return Some(FirstRule::ImpRight);
    }
    if name == b"eqRefl".as_slice() {
        return Some(FirstRule::EqRefl);
    }
    if name == b"setSimple".as_slice() {
        return Some(FirstRule::SetSimple);
    }
    if name == b"frameReturn".as_slice() {
        return Some(FirstRule::FrameReturn);
    }
    if name == b"catchEmpty".as_slice() {
        return Some(FirstRule::CatchEmpty);
    }
    if name == b"emptyCode".as_slice() {
        return Some(FirstRule::EmptyCode);
    }
    if name == b"simplify".as_slice() {
        return Some(FirstRule::Simplify);
    }
    None
}
