//! What is printed of a scheme and of a scheme file, and a sample junction.
#![tactic(auto)]

mod files;
mod names;
mod records;
mod sample;

pub use files::{FileNames, inspect_file};
pub use names::Names;
pub use records::record;
pub use sample::{Failure, SampleNames, junction};
pub use scheme_file::INPUT;
