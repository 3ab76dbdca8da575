//! A law over the definitions: the function does nothing, and a caller calls it for what its
//! contract says.

ghost use Rattle.std.specs.Prelude.{◌≡◌, ◌<◌, ◌^◌, ℕ, List, Bool, true, length};
ghost use Rattle.std.specs.List.{list_all};
ghost use Rattle.cron_shell.specs.Lines.{input_lines};
ghost use Rattle.cron_systemd.specs.Sayable.{is_calendar};
ghost use Rattle.cron_systemd.specs.Services.{IsSayable, SaysService, Service, service_text};
ghost use Rattle.cron_systemd.specs.Texts.{timer_text};
ghost use Rattle.cron_systemd.specs.Timers.{SaysTimer};

/// systemd reads back from a service what it is made of: the words of the command, the variables,
/// the input and the user, byte for byte. It reads back the calendars of a timer.
pub fn texts_are_read_back()
    ensures services { (s : Service) → IsSayable s → length (service_text s) < 2 ^ 20
        → SaysService s (service_text s) }
    ensures timers { (calendars : List ℕ) (persistent : Bool)
        → list_all is_calendar (input_lines calendars) ≡ true
        → length (timer_text calendars persistent) < 2 ^ 20
        → SaysTimer calendars persistent (timer_text calendars persistent) }
{}
