//! Tests of the public calls on worked junctions.
#![tactic(auto)]

#[cfg(test)]
mod files;
#[cfg(test)]
mod junctions;
#[cfg(test)]
mod refusing;
#[cfg(test)]
mod showing;
