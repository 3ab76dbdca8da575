//! The codes of refusals.

ghost use Rattle.std.specs.Prelude.{◌≡◌};
ghost use Rattle.cron_crontab.specs.Views as crontab;
ghost use Rattle.cron_quartz.specs.Views as quartz;
ghost use Rattle.cron_tab_lines.specs.Views.{refusal_view};
ghost use Rattle.cron_units.specs.Views as units;
ghost use Rattle.cron_codes.specs.Codes.{crontab_code, crontab_reason_code, item_code, line_code, quartz_code, quartz_reason_code, text_code};

use cron_tab_lines::Refusal;
use cron_units::specifier as items;

// ---- expressions of this library

fn code_of_item(refusal: &items::Refusal<'_>) -> &'static str
    ensures { result.now ≡ item_code (units.refusal_view refusal.now) }
{
    match refusal {
        items::Refusal::UnknownName(_) => "name-unknown",
        items::Refusal::TooSmall(_) | items::Refusal::TooLarge(_) => "number-outside",
        items::Refusal::BadRange(_, _) | items::Refusal::BadNameRange(_, _) => "range-backward",
        items::Refusal::ZeroStep => "step-zero",
        items::Refusal::LargeStep(_) => "step-outside",
    }
}

/// The code of a fault of a text of this library.
pub fn code_of_text(fault: &cron_text::Fault<'_>) -> &'static str
    ensures { result.now ≡ text_code fault.now }
{
    match fault {
        cron_text::Fault::Syntax => "expression-unread",
        cron_text::Fault::Refused(item) => code_of_item(&item.refusal),
    }
}

// ---- expressions of crontabs

fn code_of_crontab_reason(reason: &cron_crontab::Reason<'_>) -> &'static str
    ensures { result.now ≡ crontab_reason_code (crontab.reason_view reason.now) }
{
    match reason {
        cron_crontab::Reason::Missing => "item-missing",
        cron_crontab::Reason::NoNumber(_) => "number-wanted",
        cron_crontab::Reason::LongNumber => "number-long",
        cron_crontab::Reason::Outside(_) => "number-outside",
        cron_crontab::Reason::Ignored(_) => "item-trailing",
        cron_crontab::Reason::LoneStep => "step-alone",
        cron_crontab::Reason::NoStep(_) => "step-wanted",
        cron_crontab::Reason::ZeroStep => "step-zero",
    }
}

/// The code of a fault of a crontab's expression.
pub fn code_of_crontab(fault: &cron_crontab::Fault<'_>) -> &'static str
    ensures { result.now ≡ crontab_code (crontab.fault_view fault.now) }
{
    match fault {
        cron_crontab::Fault::Refused(item) => code_of_crontab_reason(&item.reason),
        cron_crontab::Fault::NoField(_) => "field-missing",
        cron_crontab::Fault::SixthField(_) => "field-sixth",
        cron_crontab::Fault::NoNickname(_) => "nickname-unknown",
        cron_crontab::Fault::CapitalNickname(_) => "nickname-capital",
        cron_crontab::Fault::BehindNickname(_) => "nickname-trailing",
        cron_crontab::Fault::SecondLine(_) => "line-second",
    }
}

/// The code of a refusal of a crontab's line.
pub fn code_of_line(refusal: &Refusal<'_>) -> &'static str
    ensures { result.now ≡ line_code (refusal_view refusal.now) }
{
    match refusal {
        Refusal::Nul => "line-nul",
        Refusal::ByteOrderMark => "file-mark",
        Refusal::SecondLine => "line-second",
        Refusal::LoneReturn => "line-return",
        Refusal::NoValue => "value-missing",
        Refusal::OpenQuote => "quote-open",
        Refusal::BehindQuote => "quote-trailing",
        Refusal::StrangeByte => "byte-strange",
        Refusal::Expression(fault) => code_of_crontab(fault),
        Refusal::SixthField => "field-sixth",
        Refusal::NoUser => "user-missing",
        Refusal::NoCommand => "command-missing",
    }
}

// ---- expressions of Quartz

fn code_of_quartz_reason(reason: &cron_quartz::Reason<'_>) -> &'static str
    ensures { result.now ≡ quartz_reason_code (quartz.reason_view reason.now) }
{
    match reason {
        cron_quartz::Reason::Missing => "item-missing",
        cron_quartz::Reason::NoNumber(_) => "number-wanted",
        cron_quartz::Reason::LongNumber => "number-long",
        cron_quartz::Reason::Outside(_, _, _) => "number-outside",
        cron_quartz::Reason::OutsideStep(_, _) => "step-outside",
        cron_quartz::Reason::Ignored(_) => "item-trailing",
        cron_quartz::Reason::NamedStep => "step-named",
        cron_quartz::Reason::Mixed => "range-mixed",
        cron_quartz::Reason::Backward => "range-backward",
        cron_quartz::Reason::NoForm => "days-form",
    }
}

/// The code of a fault of an expression of Quartz.
pub fn code_of_quartz(fault: &cron_quartz::Fault<'_>) -> &'static str
    ensures { result.now ≡ quartz_code (quartz.fault_view fault.now) }
{
    match fault {
        cron_quartz::Fault::Refused(item) => code_of_quartz_reason(&item.reason),
        cron_quartz::Fault::NoField(_) => "field-missing",
        cron_quartz::Fault::EighthField(_) => "field-eighth",
        cron_quartz::Fault::NoDays => "days-none",
        cron_quartz::Fault::BothDays => "days-both",
    }
}
