// The source events with the fates that their entries name: answers 10 to 14.
#![tactic(auto)]

pub mod source;
