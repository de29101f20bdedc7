ghost use Rattle.jd_jsizes.specs.Sizes.{ClassesAreFew, MembersAreFew, PlacesAreFew, TokensAreFew, TreesAreSmall};

use jd_java_attributes::rows_fit;
use jd_lex::tokens_are_slices;

/// Laws, without code: a text has no more tokens than bytes; the tree of a file is at most twice as large as its tokens are many; and
/// files have no more classes and members than the sizes of their trees together.
pub fn files_are_small()
    ensures tokens { TokensAreFew }
    ensures trees { TreesAreSmall }
    ensures classes { ClassesAreFew }
    ensures places { PlacesAreFew }
    ensures members { MembersAreFew }
{
    tokens_are_slices();
    rows_fit();
}
