//! Laws over the definitions: the functions do nothing, and a caller calls one for what its
//! contract says. A zone has two look-ups, of instants and of civil seconds. They agree if each
//! gives the offsets that the other gives.

ghost use Rattle.cron_instants.specs.ClockLaws.{InstantsAreApart, ItemsAreTheMatches};

/// Where the look-ups of a zone agree, no two items of a timeline in it share an instant.
pub fn instants_are_apart()
    ensures { InstantsAreApart }
{}

/// Where the look-ups of a zone agree, a clock shows a matching civil second of the range at an
/// instant exactly if an item has that instant.
pub fn items_are_the_matches()
    ensures { ItemsAreTheMatches }
{}
