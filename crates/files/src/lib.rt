// What the programs share: the words of a call, the list that they name, files by name, the lines that are printed, the check of three texts, its run, the
// move of one and the shortening of one.
#![tactic(auto)]

pub mod args;
pub mod check;
pub mod filled;
pub mod list;
pub mod moving;
pub mod print;
pub mod program;
pub mod read;
pub mod run;
pub mod shortening;
#[cfg(test)]
mod tests;
pub mod write;
