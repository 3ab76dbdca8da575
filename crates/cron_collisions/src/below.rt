//! The number of items of an ascending list that are less than a bound.
ghost use Rattle.std.specs.Prelude.{◌≡◌, ◌≤◌, int_lt};
ghost use Rattle.cron_collisions.specs.Collisions.{Ascends};
ghost use Rattle.cron_collisions.specs.Inner.Below.{below};

fn lies_below(number: i64, bound: i128) -> bool
    ensures { result ≡ int_lt number bound }
{
    i128::from(number) < bound
}

// The number of `numbers` less than `bound`. The first `from` of them are known to be less and are
// skipped.
pub(crate) fn count_below(numbers: &[i64], from: usize, bound: i128) -> usize
    requires ascends { Ascends numbers.now }
    requires known { from ≤ below bound numbers.now }
    ensures { result ≡ below bound numbers.now }
{
    let mut count = from;
    while count < numbers.len() && lies_below(numbers[count], bound) {
        count += 1;
    }
    count
}
