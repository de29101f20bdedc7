ghost use Rattle.std.specs.Prelude.{◌≡◌};
ghost use Rattle.jd_jlists.specs.Views.{member_of_view};
ghost use Rattle.jd_jclashes.specs.Repeats.{is_compared, repeat_key};

use jd_jlists::MemberOf;

// Which members are compared with one another.
#[derive(Clone, Copy)]
pub(crate) enum Compared {
    Variables,
    Methods,
}

impl Compared {
    // Whether the member is one of these.
    pub(crate) fn has(self, member: &MemberOf<'_>) -> bool
        ensures { result ≡ is_compared self (member_of_view member.now).kind }
    {
        match self {
            Compared::Variables => member.is_variable(),
            Compared::Methods => member.is_method(),
        }
    }

    // What a class may declare once: the number of the member's name, or for constructors the number past those.
    pub(crate) fn key(self, member: &MemberOf<'_>, name: u32, count: u32) -> Option<u32>
        ensures { result ≡ repeat_key self (member_of_view member.now).kind name count }
    {
        if self.has(member) {
            return Some(name);
        }
        match self {
            Compared::Variables if member.is_constructor() => Some(count),
            Compared::Variables | Compared::Methods => None,
        }
    }
}
