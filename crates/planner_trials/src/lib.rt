//! Tests of a planner's calls on worked junctions.
#![tactic(auto)]

#[cfg(test)]
mod asking;
#[cfg(test)]
mod conducting;
#[cfg(test)]
mod filing;
#[cfg(test)]
mod judging;
#[cfg(test)]
mod refusing;
#[cfg(test)]
mod running;
#[cfg(test)]
mod sample;
