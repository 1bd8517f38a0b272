//! What a scheme refuses to hold.
ghost use Rattle.std.specs.Prelude.{◌≡◌, ◌≢◌, ◌<◌, ◌≤◌, ◌⊎◌, MatchResult};
ghost use Rattle.sets.specs.Member.{none};
ghost use Rattle.scheme.specs.declared.refusals.Refusal.TheVariants.{ItemTooHigh, GivesNothing, SchemeFull};

use crate::{Refusal, Scheme};
use sets::Set;

/// Refuses an item above 63, which cannot be a member of a set.
pub fn check_item(item: usize) -> Result<(), Refusal>
    ensures { MatchResult result (λ _. item < 64) (λ e. (e ≡ ItemTooHigh) × (64 ≤ item)) }
{
    if item >= Set::LIMIT {
        return Err(Refusal::ItemTooHigh);
    }
    Ok(())
}

/// Refuses the gives of a work that gives nothing.
pub fn check_gives(gives: Set) -> Result<(), Refusal>
    ensures { MatchResult result (λ _. gives ≢ none) (λ e. (e ≡ GivesNothing) × (gives ≡ none)) }
{
    if gives.is_empty() {
        return Err(Refusal::GivesNothing);
    }
    Ok(())
}

/// Refuses to enter a work that gives nothing, or one beyond the 64 that a scheme holds; `held` works are held before it.
pub fn check_entry(gives: Set, held: usize) -> Result<(), Refusal>
    ensures { MatchResult result (λ _. (gives ≢ none) × (held < 64)) (λ e. ((e ≡ GivesNothing) × (gives ≡ none)) ⊎ ((e ≡ SchemeFull) × (gives ≢ none) × (64 ≤ held))) }
{
    check_gives(gives)?;
    if held >= Scheme::LIMIT {
        return Err(Refusal::SchemeFull);
    }
    Ok(())
}
