//! A scheme in a binary file: its works, its standing and wanted items, and beside them the names of items and works and the works' prices
//! and times.
//!
//! A record is a length of two bytes, which counts what follows it, a kind of two bytes and a body; numbers have their lowest byte first.
//! The kinds, in their order: 1 the head, with no body, once; 2 an item: its number (1 byte) and its name, in strictly rising number; 3 a
//! work: its needs (8), its gives (8), its pounds (2), its hours (2) and its name; 4 the standing set (8), once; 5 the wanted set (8), once;
//! 6 the end, with no body, once. Kinds 2 and 3 may be absent. A name has 1 to 40 bytes from 32 to 126. So a file has at most 7,008 bytes.
//!
//! - `causes`: why a file or a call is refused, and where
//! - `rows`: what a file holds beside the scheme
//! - `names`: the bytes of a name
//! - `reading`: reading a file: a checking pass, then a filling pass
//! - `checking`: the checking pass, which tests every rule and writes nothing
//! - `filling`: the filling pass, over bytes that passed the check
//! - `kinds`: the kinds of record
//! - `stages`: which kind can come next
//! - `places`: where a reading stands between two records
//! - `numbers`: numbers in bytes
//! - `writing`: writing a file
//! - `vetting`: whether rows can be written
//! - `putting`: putting records into lent bytes
//! - `rewriting`: reading a file and writing it back
#![tactic(auto)]

mod causes;
mod checking;
mod filling;
mod kinds;
mod names;
mod numbers;
mod places;
mod putting;
mod reading;
mod rewriting;
mod rows;
mod stages;
#[cfg(test)]
mod tests;
mod vetting;
mod writing;

pub use causes::{Cause, Fault};
pub use reading::{INPUT, read};
pub use rewriting::{Failure, rewrite};
pub use rows::{Counts, ItemRow, Name, WorkRow};
pub use writing::write;
