//! Reads whole fields into sets.

ghost use Rattle.std.specs.Prelude.{◌≡◌, ◌<◌, ◌≤◌, ◌&&◌, ◌||◌, MatchResult, IfOk, Ok, Err, false};
ghost use Rattle.cron_units.specs.Units.{contains, set_of};
ghost use Rattle.cron_quartz.specs.Items.{lies_in, set_read};
ghost use Rattle.cron_quartz.specs.Items as spec;
ghost use Rattle.cron_quartz.specs.Fields.{unit_of};
ghost use Rattle.cron_quartz.specs.Views.{fault_view, item_view};
ghost use Rattle.cron_quartz.specs.Inner.Reading.{IsItemWithin, IsWithin};

use crate::faults::{Fault, RefusedItem};
use crate::field::Field;
use crate::items::{Item, read_item};
use cron_crontab::cut_at;
use cron_units::time_unit::{TimeUnitField, empty};

// The distance from `from` up to `number`. If `number` is less, the way goes past the end of the
// field and on from its least number.
fn way_on<T: TimeUnitField>(from: u32, number: u32) -> u32
    requires from { IsWithin T.unit from }
    requires number { IsWithin T.unit number }
    ensures { result ≡ spec.way_on T.unit from number }
{
    if from <= number {
        number - from
    } else {
        (number - T::inclusive_min()) + (T::inclusive_max() + 1 - from)
    }
}

// Returns true if `number` is one of the numbers of `item`.
fn lies_in<T: TimeUnitField>(item: Item, number: u32) -> bool
    requires item { IsItemWithin T.unit item }
    requires number { IsWithin T.unit number }
    ensures { result ≡ lies_in T.unit (item_view item) number }
{
    let way = way_on::<T>(item.first, number);
    way <= way_on::<T>(item.first, item.last) && way % item.every == 0
}

// Adds the numbers of an item to a set.
fn add_item<T: TimeUnitField>(set: &mut T, item: Item)
    requires { IsItemWithin T.unit item }
    ensures members { T.members set.new
        ≡ set_of T.unit
        (λ x. contains (T.members set.old) x || lies_in T.unit (item_view item) x) }
    ensures mark { T.marked set.new ≡ T.marked set.old }
{
    set.state_facts();
    for number in T::inclusive_min()..T::inclusive_max() + 1 {
        if lies_in::<T>(item, number) {
            set.insert(number);
        }
    }
}

/// Reads a field: items with commas between them.
pub(crate) fn read_set<'a, T: TimeUnitField>(field: Field, word: &'a str) -> Result<T, Fault<'a>>
    requires { unit_of field ≡ T.unit }
    ensures set { MatchResult result
        (λ set. set_read T.unit word.now ≡ Ok (T.members set))
        (λ fault. set_read T.unit word.now ≡ Err (fault_view fault)) }
    ensures mark { IfOk result (λ set. T.marked set ≡ false) }
{
    let mut set: T = empty();
    let mut rest = word;
    loop {
        let (text, behind) = cut_at(rest, b',');
        match read_item::<T>(text) {
            Ok(item) => add_item(&mut set, item),
            Err(reason) => {
                return Err(Fault::Refused(RefusedItem {
                    field,
                    item: text,
                    reason,
                }));
            }
        }
        match behind {
            Some(others) => rest = others,
            None => return Ok(set),
        }
    }
}
