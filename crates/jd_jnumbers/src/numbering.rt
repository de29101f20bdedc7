//! The numbers of members.

ghost use Rattle.std.specs.Prelude.{◌≡◌, ◌+◌, ◌<◌, ◌≤◌, ◌^◌, Some, map, length, IfOk, OnOk};
ghost use Rattle.jd_jclasses.specs.Numbers.{AreNumbers, SameReturn, SameSignature};
ghost use Rattle.jd_jclasses.specs.Refusals.{SameName};
ghost use Rattle.jd_jlists.specs.Views.{member_of_view};
ghost use Rattle.jd_jnumbers.specs.Encoding.{text_by};
ghost use Rattle.jd_jnumbers.specs.Numbered.{AreAllUsed, AreNumbered, AreNames, count_of, texts_of};
ghost use Rattle.jd_jnumbers.specs.Texts.{insert_text, number_in, text_list};

use crate::agreement::Agreement;
use crate::encoding::text_of;
use crate::numbers::Numbers;
use indexmap::IndexSet;
use jd_base::NoMemory;
use jd_jlists::MemberOf;
use std::alloc::Global;

// The number of a text, which is put behind the others where it is none of them.
fn add_text(texts: &mut IndexSet<Vec<u8>>, text: Vec<u8>) -> Result<u32, NoMemory>
    requires { length texts.old.keys < 4294967295 }
    ensures texts { OnOk result (text_list texts.new ≡ insert_text (text_list texts.old) text.items) }
    ensures few { OnOk result (length texts.new.keys ≤ length texts.old.keys + 1) }
    ensures number { IfOk result (λ n. number_in (text_list texts.new) text.items ≡ Some n) }
{
    let (number, _) = texts.insert_full(text)?;
    Ok(number as u32)
}

// The numbers of the members by what they are to agree in.
fn numbered(alloc: Global, by: Agreement, members: &[MemberOf<'_>]) -> Result<Numbers, NoMemory>
    requires { length members.now < 2 ^ 32 }
    ensures { IfOk result (λ n. AreNumbered (texts_of n) n.numbers.items (map (text_by by) (map member_of_view members.now))) }
{
    let mut texts = IndexSet::new(alloc);
    let mut numbers = Vec::new(alloc);
    for member in members {
        let number = add_text(&mut texts, text_of(alloc, by, member)?)?;
        numbers.push(number)?;
    }
    Ok(Numbers { texts, numbers })
}

/// One number for all members of one name.
///
/// # Errors
///
/// `NoMemory` if memory runs out.
pub fn member_names(alloc: Global, members: &[MemberOf<'_>]) -> Result<Numbers, NoMemory>
    requires { length members.now < 2 ^ 32 }
    ensures numbers { IfOk result (λ n. AreNumbers SameName (map member_of_view members.now) n.numbers.items (count_of n)) }
    ensures used { IfOk result (λ n. AreAllUsed n.numbers.items (count_of n)) }
    ensures few { IfOk result (λ n. count_of n ≤ length members.now) }
    ensures names { IfOk result (λ n. AreNames (map member_of_view members.now) (texts_of n) n.numbers.items) }
{
    numbered(alloc, Agreement::Name, members)
}

/// One number for all members of one name and one list of parameter types (JLS 8.4.2).
///
/// # Errors
///
/// `NoMemory` if memory runs out.
pub fn member_signatures(alloc: Global, members: &[MemberOf<'_>]) -> Result<Numbers, NoMemory>
    requires { length members.now < 2 ^ 32 }
    ensures numbers { IfOk result (λ n. AreNumbers SameSignature (map member_of_view members.now) n.numbers.items (count_of n)) }
    ensures used { IfOk result (λ n. AreAllUsed n.numbers.items (count_of n)) }
    ensures few { IfOk result (λ n. count_of n ≤ length members.now) }
{
    numbered(alloc, Agreement::Signature, members)
}

/// One number for all members of one name and one result that are all static or all not
/// (JLS 8.4.5, 8.4.3.2).
///
/// # Errors
///
/// `NoMemory` if memory runs out.
pub fn member_returns(alloc: Global, members: &[MemberOf<'_>]) -> Result<Numbers, NoMemory>
    requires { length members.now < 2 ^ 32 }
    ensures numbers { IfOk result (λ n. AreNumbers SameReturn (map member_of_view members.now) n.numbers.items (count_of n)) }
    ensures used { IfOk result (λ n. AreAllUsed n.numbers.items (count_of n)) }
    ensures few { IfOk result (λ n. count_of n ≤ length members.now) }
{
    numbered(alloc, Agreement::Return, members)
}

impl Numbers {
    /// How many numbers there are.
    pub fn count(&self) -> u32
        ensures { result ≡ count_of self.now }
    {
        self.texts.len() as u32
    }

    /// The number of this text, if it has one. The texts of `member_names` are the members' names.
    pub fn number_of(&self, text: &[u8]) -> Option<u32>
        ensures { result ≡ number_in (texts_of self.now) text.now }
    {
        match self.texts.get_index_of(text) {
            Some(number) => Some(number as u32),
            None => None,
        }
    }
}
