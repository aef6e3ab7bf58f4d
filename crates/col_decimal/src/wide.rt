//! Products in 128 bits, worked out from 64 where these suffice.
ghost use Rattle.std.specs.Prelude.{◌*ℤ◌, FitsSigned};
ghost use Rattle.std.specs.Int.{w128};
ghost use Rattle.std.specs.Option.{SomeIff};

// The product; none where it passes 128 bits.
#[inline]
pub(crate) fn product(a: i128, b: i128) -> Option<i128>
    ensures { SomeIff result (FitsSigned w128 (a *ℤ b)) (a *ℤ b) }
{
    match (i64::try_from(a), i64::try_from(b)) {
        // the usual case: what checks a product of 128 bits costs more than the rest of a row
        (Ok(a), Ok(b)) => Some(i128::from(a) * i128::from(b)),
        _ => a.checked_mul(b),
    }
}
