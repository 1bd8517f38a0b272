//! Random trials of the choosers against a trial of every set of works.
#![tactic(auto)]

#[cfg(test)]
mod agreeing;
#[cfg(test)]
mod capacities;
#[cfg(test)]
mod cases;
#[cfg(test)]
mod numbers;
#[cfg(test)]
mod trying;
