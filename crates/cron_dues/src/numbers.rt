//! The lesser and the greater of two numbers.
ghost use Rattle.std.specs.Prelude.{◌≡◌, ◌⊎◌, ◌≤ℤ◌};

/// The lesser of two numbers.
#[inline(always)]
pub(crate) fn lesser(one: i64, other: i64) -> i64
    ensures one { result ≤ℤ one }
    ensures other { result ≤ℤ other }
    ensures either { (result ≡ one) ⊎ (result ≡ other) }
{
    if one < other { one } else { other }
}

/// The greater of two numbers.
#[inline(always)]
pub(crate) fn greater(one: i64, other: i64) -> i64
    ensures one { one ≤ℤ result }
    ensures other { other ≤ℤ result }
    ensures either { (result ≡ one) ⊎ (result ≡ other) }
{
    if one < other { other } else { one }
}
