//! The members that two sets of a unit have in common, and the members of only the first one.
ghost use Rattle.std.specs.Prelude.{◌≡◌, ◌&&◌, ℕ, false, not};
ghost use Rattle.cron_bits.specs.Words.{has_bit};
ghost use Rattle.cron_units.specs.Units.{contains};

use cron_bits::wide::Wide;
use cron_units::time_unit::layout::{
    bits, bits_of_days, days_from_bits, from_bits, from_three, three,
};
use cron_units::time_unit::{DaysOfMonth, Ordinals, UnitTable};

/// The members that are in both sets.
#[inline(always)]
pub fn common_members<U: UnitTable<u64>>(
    set: &Ordinals<U, u64>,
    other: &Ordinals<U, u64>,
) -> Ordinals<U, u64>
    ensures { (x : ℕ) → contains result x ≡ (contains set.now x && contains other.now x) }
{
    from_bits(bits(set) & bits(other))
}

/// The years that are in both sets.
#[inline(always)]
pub fn common_years<U: UnitTable<Wide>>(
    set: &Ordinals<U, Wide>,
    other: &Ordinals<U, Wide>,
) -> Ordinals<U, Wide>
    ensures { (x : ℕ) → contains result x ≡ (contains set.now x && contains other.now x) }
{
    let (first, second, third) = three(set);
    let (other_first, other_second, other_third) = three(other);
    from_three(
        first & other_first,
        second & other_second,
        third & other_third,
    )
}

/// The numbered days that are in both sets, without a mark of the last day.
#[inline(always)]
pub fn common_days(days: &DaysOfMonth, other: &DaysOfMonth) -> DaysOfMonth
    ensures numbers { (x : ℕ) → contains result.ordinals x
        ≡ (contains days.now.ordinals x && contains other.now.ordinals x) }
    ensures unmarked { result.last_day ≡ false }
{
    days_from_bits(bits_of_days(days) & bits_of_days(other), false)
}

// The bits of `word` that `other` doesn't have.
#[inline(always)]
fn own_bits(word: u64, other: u64) -> u64
    ensures { (k : ℕ) → has_bit result k ≡ (has_bit word k && not (has_bit other k)) }
{
    word & !other
}

/// The members of `set` that `other` doesn't have.
#[inline(always)]
pub fn own_members<U: UnitTable<u64>>(
    set: &Ordinals<U, u64>,
    other: &Ordinals<U, u64>,
) -> Ordinals<U, u64>
    ensures { (x : ℕ) → contains result x ≡ (contains set.now x && not (contains other.now x)) }
{
    from_bits(own_bits(bits(set), bits(other)))
}

/// The years of `set` that `other` doesn't have.
#[inline(always)]
pub fn own_years<U: UnitTable<Wide>>(
    set: &Ordinals<U, Wide>,
    other: &Ordinals<U, Wide>,
) -> Ordinals<U, Wide>
    ensures { (x : ℕ) → contains result x ≡ (contains set.now x && not (contains other.now x)) }
{
    let (first, second, third) = three(set);
    let (other_first, other_second, other_third) = three(other);
    from_three(
        own_bits(first, other_first),
        own_bits(second, other_second),
        own_bits(third, other_third),
    )
}

/// The numbered days of `days` that `other` doesn't have, without a mark of the last day.
#[inline(always)]
pub fn own_days(days: &DaysOfMonth, other: &DaysOfMonth) -> DaysOfMonth
    ensures numbers { (x : ℕ) → contains result.ordinals x
        ≡ (contains days.now.ordinals x && not (contains other.now.ordinals x)) }
    ensures unmarked { result.last_day ≡ false }
{
    days_from_bits(own_bits(bits_of_days(days), bits_of_days(other)), false)
}
