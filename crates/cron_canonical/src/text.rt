//! The canonical text of seven sets.

ghost use Rattle.std.specs.Prelude.{◌≡◌, ◌<◌, ◌≤◌, ◌+◌, ◌++◌, ◌∷◌, [], ℕ, List, MatchOption, length};
ghost use Rattle.arrayvec.specs.ArrayVec.{array_vec_len};
ghost use Rattle.cron_canonical.specs.Short.{field_text, items_text, longest, number_items, sets_text};
ghost use Rattle.cron_text.specs.Meaning.{Means};
ghost use Rattle.cron_units.specs.Units as units;

use crate::filled::are_filled;
pub use crate::numbers::Text;
use crate::numbers::push_numbers;
use cron_units::fields::ScheduleFields;
use cron_units::time_unit::{DaysOfMonth, TimeUnitSpec};

// Appends the numbers of `set` and a space.
fn push_field<T: TimeUnitSpec>(text: &mut Text, set: &T)
    requires digits { T.time_unit.greatest < 10_000 }
    requires room { array_vec_len text.old + longest T.time_unit + 1 ≤ 1245 }
    ensures items { text.new.items ≡ text.old.items
        ++ (items_text (number_items T.time_unit (T.ordinals set.now)) ++ 32 ∷ []) }
    ensures len { array_vec_len text.new ≤ array_vec_len text.old + longest T.time_unit + 1 }
{
    push_numbers(text, set);
    text.push(b' ');
}

// The text for the last day of the month, after the numbers of the days. It is `,L`, or `L` if
// there are no numbers, or nothing if `days` doesn't have the last day.
fn last_day_text(days: &DaysOfMonth) -> &'static [u8]
    ensures text { field_text units.days_of_month days.now
        ≡ items_text (number_items units.days_of_month days.now.ordinals) ++ result.now }
    ensures short { length result.now ≤ 2 }
{
    if !days.last_day() {
        return b"";
    }
    if days.count() == 0 {
        return b"L";
    }
    b",L"
}

// Appends the days of the month and a space.
fn push_days(text: &mut Text, days: &DaysOfMonth)
    requires { array_vec_len text.old + 96 ≤ 1245 }
    ensures items { text.new.items
        ≡ text.old.items ++ (field_text units.days_of_month days.now ++ 32 ∷ []) }
    ensures len { array_vec_len text.new ≤ array_vec_len text.old + 96 }
{
    push_numbers(text, days);
    text.try_extend_from_slice(last_day_text(days)).unwrap();
    text.push(b' ');
}

/// The short form of sets: seven fields with one space between two. Each is a star, or its runs of
/// numbers as `0-4,30`, with `L` last among the days of the month.
pub fn text_of(fields: &ScheduleFields) -> Text
    ensures { result.items ≡ sets_text fields.now }
{
    let mut text = Text::new();
    push_field(&mut text, &fields.seconds);
    push_field(&mut text, &fields.minutes);
    push_field(&mut text, &fields.hours);
    push_days(&mut text, &fields.days_of_month);
    push_field(&mut text, &fields.months);
    push_field(&mut text, &fields.days_of_week);
    push_numbers(&mut text, &fields.years);
    text
}

/// The canonical text of sets: their short form. It means these sets, and no other sets have it.
/// `None` if one of the sets has no member, since no text means such sets.
pub fn canonical_text(fields: &ScheduleFields) -> Option<Text>
    ensures { MatchOption result
        ((text : List ℕ) → Means text fields.now → ⊥)
        (λ shown. (shown.items ≡ sets_text fields.now) × Means shown.items fields.now) }
{
    if !are_filled(fields) {
        return None;
    }
    Some(text_of(fields))
}
