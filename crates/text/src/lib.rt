// A text cut into lines, a line into fields, and a field read as a number or as a word; and numbers written.
#![tactic(auto)]

pub mod field;
pub mod line;
pub mod number;
pub mod reader;
pub mod scan;
pub mod take;
pub mod word;
pub mod write;
