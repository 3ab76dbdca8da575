//! Laws over the definitions: the functions do nothing, and a caller calls one for what its
//! contract says.

ghost use Rattle.cron_c.specs.AgendaLaws.{TakenIsTheFirst, TheRestIsLeft};
ghost use Rattle.cron_c.specs.Canonical.{CanonicalIsReadBack};
ghost use Rattle.cron_c.specs.UnionLaws.{ItemsAreOfTheSchedules, OneIsItsUnion};

/// One schedule is its own union, in the words of the calls: those for several schedules say of a
/// single one what those for one schedule say in the same eras, of items and of due fires.
pub fn one_is_its_union()
    ensures { OneIsItsUnion }
{}

/// The items of several schedules in a history are the items of each of them, no more and no fewer.
pub fn items_are_of_the_schedules()
    ensures { ItemsAreOfTheSchedules }
{}

/// The canonical text of a schedule is read back to the same sets.
pub fn canonical_is_read_back()
    ensures { CanonicalIsReadBack }
{}

/// The fire taken from an agenda is the first of all the fires that its entries have left.
pub fn taken_is_the_first()
    ensures { TakenIsTheFirst }
{}

/// After a fire is taken from an agenda, its entry has left all the fires that it had left before,
/// except the taken one.
pub fn the_rest_is_left()
    ensures { TheRestIsLeft }
{}
