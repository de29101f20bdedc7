ghost use Rattle.std.specs.Prelude.{IfOk};
ghost use Rattle.jd_tcode.specs.Pairing.{AreFour, ArePaired, AreThree};

use jd_base::NoMemory;

/// What was read of a part, if it is something there.
pub type Part<T> = Result<Option<T>, NoMemory>;

/// Both values, where there are both. What is read of several parts so has one way out, which drops nothing.
pub fn both_there<A: Drop, B: Drop>(a: Part<A>, b: Part<B>) -> Part<(A, B)>
    ensures { IfOk result (λ pair. ArePaired a b pair) }
{
    let (a, b) = (a?, b?);
    Ok(a.zip(b))
}

/// All three, where there are all.
pub fn three_there<A: Drop, B: Drop, C: Drop>(a: Part<A>, b: Part<B>, c: Part<C>) -> Part<(A, B, C)>
    ensures { IfOk result (λ all. AreThree a b c all) }
{
    match both_there(a, both_there(b, c))? {
        None => Ok(None),
        Some((a, (b, c))) => Ok(Some((a, b, c))),
    }
}

/// All four, where there are all.
pub fn four_there<A: Drop, B: Drop, C: Drop, D: Drop>(
    a: Part<A>,
    b: Part<B>,
    c: Part<C>,
    d: Part<D>,
) -> Part<(A, B, C, D)>
    ensures { IfOk result (λ all. AreFour a b c d all) }
{
    match both_there(a, three_there(b, c, d))? {
        None => Ok(None),
        Some((a, (b, c, d))) => Ok(Some((a, b, c, d))),
    }
}
