//! Tests of the items of a field, by their numbers. An item is one of the parts between commas: a
//! first number, a last one and a step.

ghost use Rattle.std.specs.Prelude.{◌≡◌, ◌<◌};
ghost use Rattle.cron_crontab.specs.Items.{item_of};
ghost use Rattle.cron_crontab.specs.Views.{item_view};
ghost use Rattle.cron_tab_warnings.specs.Written.{divides_round, has_item, is_field, is_whole, names, passed};
ghost use Rattle.cron_tab_warnings.specs.Tests.{test_of};

use crate::words::size;
use cron_crontab::{Field, Item, cut_at, read_steps};

/// A test of the numbers of an item.
#[derive(Clone, Copy)]
pub(crate) enum Test {
    /// The item's first number is greater than its last.
    Backward,
    /// The item's step is longer than its whole range, so that the item has only its first number.
    PastEnd,
    /// The item is the whole field, with a step that doesn't divide it.
    Uneven,
    /// The item has this number.
    Has(u32),
    /// The item can be read as one of the field's.
    Any,
}

fn divides_round(field: Field, step: u32) -> bool
    requires { 0 < step }
    ensures { result ≡ divides_round field step }
{
    match field {
        Field::DayOfMonth => step == 1,
        _ => size(field) % step == 0,
    }
}

/// Returns true if an item's range has all numbers of `field`.
fn is_whole(field: Field, item: Item) -> bool
    ensures { result ≡ is_whole field (item_view item) }
{
    item.first <= item.last && size(field) - 1 <= item.last - item.first
}

fn is_uneven(field: Field, item: Item) -> bool
    requires { 0 < item.every }
    ensures { result ≡ test_of Test.Uneven field (item_view item) }
{
    is_whole(field, item)
        && item.every <= item.last - item.first
        && !divides_round(field, item.every)
}

fn passes(test: Test, field: Field, item: Item) -> bool
    requires { 0 < item.every }
    ensures { result ≡ test_of test field (item_view item) }
{
    let Item { first, last, every } = item;
    match test {
        Test::Backward => last < first,
        Test::PastEnd => 1 < every && first <= last && last - first < every,
        Test::Uneven => is_uneven(field, Item { first, last, every }),
        Test::Has(number) => first <= number && number <= last && (number - first) % every == 0,
        Test::Any => true,
    }
}

fn item_passes(test: Test, field: Field, item: &str) -> bool
    ensures { result ≡ passed (test_of test field) (item_of field item.now) }
{
    match read_steps(field, item) {
        Ok(item) => passes(test, field, item),
        Err(_) => false,
    }
}

/// Returns true if some item of the field `word` passes `test`.
pub(crate) fn has_item(test: Test, field: Field, word: &str) -> bool
    ensures { result ≡ has_item (test_of test field) field word.now }
{
    let mut rest = word;
    loop {
        let (item, behind) = cut_at(rest, b',');
        if item_passes(test, field, item) {
            return true;
        }
        match behind {
            Some(others) => rest = others,
            None => return false,
        }
    }
}

/// Returns true if each item of `word`, between its commas, can be read as one of `field`.
pub(crate) fn is_field(field: Field, word: &str) -> bool
    ensures { result ≡ is_field field word.now }
{
    let mut rest = word;
    loop {
        let (item, behind) = cut_at(rest, b',');
        if !item_passes(Test::Any, field, item) {
            return false;
        }
        match behind {
            Some(others) => rest = others,
            None => return true,
        }
    }
}

/// Returns true if an item of the field `word` has `number`.
pub(crate) fn names(field: Field, word: &str, number: u32) -> bool
    ensures { result ≡ names field word.now number }
{
    has_item(Test::Has(number), field, word)
}
