//! Laws over the definitions: the functions do nothing, and a caller calls one for what its
//! contract says.

ghost use Rattle.cron_dialects.specs.Dialects.{MeaningsAgree, NicknamesAloneAreBoth, NicknamesAreBoth};

/// A text that means something both to a crontab and to this library is a nickname, and means the
/// same schedule to both. So five fields are never six or seven, however they are spaced.
pub fn nicknames_alone_are_both()
    ensures nickname { NicknamesAloneAreBoth }
    ensures same { MeaningsAgree }
{}

/// Each nickname means the same to a crontab and to this library. `@reboot` means no schedule, and
/// isn't one of them.
pub fn nicknames_are_both()
    ensures { NicknamesAreBoth }
{}
