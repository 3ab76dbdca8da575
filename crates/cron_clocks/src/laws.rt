//! Laws over the definitions. Each function does nothing: a caller calls it for what its contract
//! says.

ghost use Rattle.cron_clocks.specs.Clocks.{FixedZonesAgree, PlainRulesAgree};
ghost use Rattle.cron_clocks.specs.Transitions.{ApartRulesAgree};

/// In UTC, and in every zone with one offset, the two look-ups agree.
pub fn fixed_zones_agree()
    ensures { FixedZonesAgree }
{}

/// In a rule with no saving the two look-ups agree.
pub fn plain_rules_agree()
    ensures { PlainRulesAgree }
{}

/// In a rule whose two transitions lie a week or more from each other and from the edges of a year
/// of 365 days the two look-ups agree.
pub fn apart_rules_agree()
    ensures { ApartRulesAgree }
{}
