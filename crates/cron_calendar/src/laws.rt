//! Laws over the definitions: the functions do nothing, and a caller calls one for what its
//! contract says.

ghost use Rattle.cron_calendar.specs.GridLaws.{DaysStandOnce, DaysStandUnderTheirWeekdays};
ghost use Rattle.cron_calendar.specs.HtmlLaws.{TextsHoldNoMarkup};

/// The grid of a month has each of its days once, under its day of the week.
pub fn days_stand_under_their_weekdays()
    ensures once { DaysStandOnce }
    ensures weekdays { DaysStandUnderTheirWeekdays }
{}

/// A text in a page of HTML can't begin or end a tag or an attribute's value.
pub fn texts_hold_no_markup()
    ensures { TextsHoldNoMarkup }
{}
