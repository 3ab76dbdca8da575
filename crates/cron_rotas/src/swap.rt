//! Swaps, which stand before the turns of a rota.
ghost use Rattle.std.specs.Prelude.{◌≡◌, ◌≤ℤ◌, ◌<ℤ◌, ◌⊎◌, MatchResult, not, position, true};
ghost use Rattle.cron_rotas.specs.Errors.{IsNoRota};
ghost use Rattle.cron_rotas.specs.Rotas.{holds_at, is_rota, is_swap_of, swapped};
ghost use Rattle.cron_rotas.specs.Edges.{IsNextEdge, NoEdgeOf};

use crate::error::RotaError;

/// A person who has duty from one second on and before another, whosever turn it is. Seconds count
/// from 1970-01-01T00:00:00Z.
#[derive(Clone, Copy, Debug, PartialEq, Eq)]
pub struct Swap {
    /// The first second.
    pub from: i64,
    /// The second after the last one.
    pub until: i64,
    /// The number of the person. The first person of a rota has the number 0.
    pub person: u32,
}

impl Swap {
    // Whether the swap holds at `second`.
    fn holds_at(&self, second: i64) -> bool
        ensures { result ≡ holds_at second self.now }
    {
        self.from <= second && second < self.until
    }

    // Whether the swap has seconds, and is of one of `people` people.
    fn is_of(&self, people: u32) -> bool
        ensures { result ≡ is_swap_of people self.now }
    {
        self.from < self.until && self.person < people
    }

    // The first second after `second` where the swap begins or ends, or `to` if that is earlier.
    fn edge_after(&self, second: i64, to: i64) -> i64
        requires { second <ℤ to }
        ensures later { second <ℤ result }
        ensures within { result ≤ℤ to }
        ensures none { NoEdgeOf second result self.now }
    {
        let end = earlier_edge(self.from, second, to);
        earlier_edge(self.until, second, end)
    }
}

// The number of the first swap that has no seconds, or isn't of one of `people` people.
fn first_wrong(people: u32, swaps: &[Swap]) -> Option<usize>
    ensures { result ≡ position (λ s. not (is_swap_of people s)) swaps.now }
{
    swaps.iter().position(|swap| !swap.is_of(people))
}

/// Checks that there are people, and that each swap has seconds and is of one of them.
pub(crate) fn check_rota(people: u32, swaps: &[Swap]) -> Result<(), RotaError>
    ensures { MatchResult result (λ _. is_rota people swaps.now ≡ true)
        (IsNoRota people swaps.now) }
{
    if people == 0 {
        return Err(RotaError::NoPeople);
    }
    match first_wrong(people, swaps) {
        Some(number) => Err(RotaError::Swap(number)),
        None => Ok(()),
    }
}

/// The person of the last of some swaps that holds at `second`. `None` if none does.
pub(crate) fn swapped(swaps: &[Swap], second: i64) -> Option<u32>
    ensures { result ≡ swapped swaps.now second }
{
    swaps
        .iter()
        .rev()
        .find(|swap| swap.holds_at(second))
        .map(|swap| swap.person)
}

// `edge` if it lies after `second` and before `to`, else `to`.
fn earlier_edge(edge: i64, second: i64, to: i64) -> i64
    requires { second <ℤ to }
    ensures later { second <ℤ result }
    ensures within { result ≤ℤ to }
    ensures none { (edge ≤ℤ second) ⊎ (result ≤ℤ edge) }
    ensures is { (result ≡ to) ⊎ (result ≡ edge) }
{
    if second < edge && edge < to { edge } else { to }
}

/// The first second after `second` where a swap begins or ends, or `to` if that is earlier.
pub(crate) fn next_edge(swaps: &[Swap], second: i64, to: i64) -> i64
    requires { second <ℤ to }
    ensures { IsNextEdge swaps.now second to result }
{
    let mut end = to;
    for swap in swaps {
        end = swap.edge_after(second, end);
    }
    end
}
