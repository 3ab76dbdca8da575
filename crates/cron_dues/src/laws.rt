//! Laws over the definitions: the functions do nothing, and a caller calls one for what its
//! contract says. A zone has two look-ups, of instants and of civil seconds. They agree if each
//! gives the offsets that the other gives.

ghost use Rattle.cron_dues.specs.Clock.Due.{DueInstantsAreFirst, FiresAreDue};
ghost use Rattle.cron_dues.specs.DueReading.{TextsDiffer};
ghost use Rattle.cron_dues.specs.DueLaws.{CutListsGoOn, DueInstantsNeverDecrease, FiresAreTheMatches, FirstReadingsAreDue, GapsArePassedOver, NominalSecondsAscend};

/// By any clock, a civil second is due at the first instant when the clock shows it or a later one.
pub fn due_instants_are_first()
    ensures { DueInstantsAreFirst }
{}

/// A due fire is due at the due instant of its nominal second.
pub fn fires_are_due()
    ensures { FiresAreDue }
{}

/// The nominal seconds of the due fires are the civil seconds that match, in order.
pub fn fires_are_the_matches()
    ensures { FiresAreTheMatches }
{}

/// Each nominal second of the due fires is greater than the ones before it.
pub fn nominal_seconds_ascend()
    ensures { NominalSecondsAscend }
{}

/// By any clock, due instants never decrease from one fire to the next.
pub fn due_instants_never_decrease()
    ensures { DueInstantsNeverDecrease }
{}

/// Where the look-ups of a zone agree, a civil second is due at its first reading exactly if the
/// clock doesn't pass over it.
pub fn first_readings_are_due()
    ensures { FirstReadingsAreDue }
{}

/// Where the look-ups of a zone agree, a civil second with no reading is due when the clock passes
/// over it.
pub fn gaps_are_passed_over()
    ensures { GapsArePassedOver }
{}

/// If the list of all due fires is cut after one of them, the fires past that one continue it.
pub fn cut_lists_go_on()
    ensures { CutListsGoOn }
{}

/// No two possible due fires have the same text.
pub fn texts_differ()
    ensures { TextsDiffer }
{}
