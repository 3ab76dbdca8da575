//! Laws over the definitions: the functions do nothing, and a caller calls one for what its
//! contract says.

ghost use Rattle.cron_canonical.specs.Short.{ShortFormsAreAscii, ShortFormsMean, ShortFormsDiffer};

/// The short form of sets means them.
pub fn short_forms_mean()
    ensures { ShortFormsMean }
{}

/// Sets with the same short form are equal.
pub fn short_forms_differ()
    ensures { ShortFormsDiffer }
{}

/// The short form of sets is ASCII.
pub fn short_forms_are_ascii()
    ensures { ShortFormsAreAscii }
{}
