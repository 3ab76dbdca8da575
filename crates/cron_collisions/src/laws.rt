//! A law of fires that collide: the function does nothing, and a caller calls it for what its
//! contract says.
ghost use Rattle.cron_collisions.specs.Laws.{CollideWhereTheyShare};

/// Two fires that last equally long collide exactly if they share an instant.
pub fn collide_where_they_share()
    ensures { CollideWhereTheyShare }
{}
