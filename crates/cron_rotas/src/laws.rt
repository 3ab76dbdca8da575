//! Laws over the definitions: the functions do nothing, and a caller calls one for what its
//! contract says.
ghost use Rattle.cron_rotas.specs.Laws.{DutyIsOfThePeople, SecondsOfDutyAddUp};

/// Whoever is on duty is one of the people.
pub fn duty_is_of_the_people()
    ensures { DutyIsOfThePeople }
{}

/// The seconds of duty of all people add up to all seconds from the start on.
pub fn seconds_of_duty_add_up()
    ensures { SecondsOfDutyAddUp }
{}
