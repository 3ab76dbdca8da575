//! Laws over the definitions: the functions do nothing, and a caller calls one for what its
//! contract says.

ghost use Rattle.cron_words.specs.Progressions.{StepsComeRound};
ghost use Rattle.cron_words.specs.Sentence.{FormsAreMeant, SentencesDiffer};

/// Lists of schedules with the same sentence are equal.
pub fn sentences_differ()
    ensures { SentencesDiffer }
{}

/// Schedules that are told as a form of days are those of that form.
pub fn forms_are_meant()
    ensures { FormsAreMeant }
{}

/// Numbers that are told by a step are those at which the step comes round.
pub fn steps_come_round()
    ensures { StepsComeRound }
{}
