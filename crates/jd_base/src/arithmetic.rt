//! Integers divided and cut as in Java.
ghost use Rattle.std.specs.Prelude.{◌≡◌};
ghost use Rattle.std.specs.Int.{NotMinOverMinusOne, int_wrap, w32, w128};
ghost use Rattle.jd_base.specs.Arithmetic.{quotient, remainder};

/// The number cut to the 32 bits of an int, in two's complement (JLS 4.2.2 and 5.1.3).
pub fn wrap32(a: i128) -> i32
    ensures { result ≡ int_wrap w32 a }
{
    (a.rem_euclid(4_294_967_296) as u32).cast_signed()
}

/// The quotient, rounded toward zero (JLS 15.17.2), and 0 where the divisor is 0.
pub fn jdiv(a: i128, b: i128) -> i128
    requires { NotMinOverMinusOne w128 a b }
    ensures { result ≡ quotient a b }
{
    if b == 0 { 0 } else { a / b }
}

/// The remainder, which has the sign of the dividend (JLS 15.17.3), and the dividend where the divisor is 0.
pub fn jmod(a: i128, b: i128) -> i128
    requires { NotMinOverMinusOne w128 a b }
    ensures { result ≡ remainder a b }
{
    if b == 0 { a } else { a % b }
}
