//! Tariffs: the values in which works are priced, how they are joined and how they are compared.
#![tactic(auto)]

mod domain;
pub mod hours_first;
pub mod longest_closure;
pub mod pounds;

pub use domain::Tariff;
