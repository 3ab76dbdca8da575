//! Laws over the definitions: the functions do nothing, and a caller calls one for what its
//! contract says.

ghost use Rattle.std.specs.Prelude.{List};
ghost use Rattle.jiff_tz.specs.declared.timezone.TimeZone.{TimeZone};
ghost use Rattle.cron_agenda.specs.Laws.{AddedAreAnew, AddedHasAll, AddedPastGoesOn, EntriesAscend, FiresAscend, MergedHasTheFires, MergedIsInOrder, OneEntryIsItsFires, RestartOfAllGoesOn, StayLent, TakenAreTheFront, TakenIsTheFirst, TheRestIsBehind, ZonesMayGrow};

use cron_fires::CivilSeconds;

/// The fire that is taken is the first of all the fires that the entries have left, merged. The
/// others stay.
pub fn taken_is_the_first<T: CivilSeconds>()
    ensures { TakenIsTheFirst T.has }
{}

/// The fires of schedules after an instant ascend, and so do the fires that follow a fire.
pub fn fires_ascend()
    ensures { FiresAscend }
{}

/// The fires that each entry has left ascend, in zones that stay while entries are added and
/// removed.
pub fn entries_ascend<T: CivilSeconds>()
    ensures { (zones : List TimeZone) → EntriesAscend T.has zones }
{}

/// Zones may be appended to the list while a program runs. If a zone is lent for each entry,
/// appended zones change nothing. A zone stays lent for each entry, whatever is added, removed and
/// taken. An added entry's zone was lent, so a caller that only appends zones and adds entries
/// keeps both facts.
pub fn zones_may_grow<T: CivilSeconds>()
    ensures grown { ZonesMayGrow T.has }
    ensures lent { StayLent T.has }
{}

/// The merged fires are the fires that the entries have left, no more and no fewer, in order.
pub fn merged_has_the_fires<T: CivilSeconds>()
    ensures all { MergedHasTheFires T.has }
    ensures order { MergedIsInOrder T.has }
{}

/// The merged fires of a single entry are its own fires.
pub fn one_entry_is_its_fires<T: CivilSeconds>()
    ensures { OneEntryIsItsFires T.has }
{}

/// The fires taken one after another are a front of the merged fires. What is left are the fires of
/// each entry after the last one taken from it. So a caller that noted that fire, and adds the
/// entry past it after a restart, goes on as if uncut.
pub fn cut_runs<T: CivilSeconds>()
    ensures front { TakenAreTheFront T.has }
    ensures rest { TheRestIsBehind T.has }
    ensures past { AddedPastGoesOn T.has }
{}

/// After a restart all entries go on as in a run that isn't cut, fire for fire, under new ids. For
/// that each entry is added anew, in the old order.
///
/// If a fire of an entry was noted, `add_past` adds the entry past the last one, as [`cut_runs`]
/// describes for one entry. If it would never fire then, it is left out. If none was noted, `add`
/// adds it as at first: the fires that it had left are all those that it was added with.
pub fn restart_of_all<T: CivilSeconds>()
    ensures all { RestartOfAllGoesOn T.has }
    ensures anew { AddedAreAnew T.has }
    ensures first { AddedHasAll T.has }
{}
