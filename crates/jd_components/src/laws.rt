ghost use Rattle.jd_components.specs.Laws.{ComponentsAreOne, TiesAreSymmetric, TiesAreTransitive};

/// Laws, without code: being tied goes both ways, and on from one to the next; and nodes have one
/// numbering of their components.
pub fn components_are_one()
    ensures symmetric { TiesAreSymmetric }
    ensures transitive { TiesAreTransitive }
    ensures one { ComponentsAreOne }
{}
