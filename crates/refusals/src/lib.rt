// What refuses a room that is to be written (`room`) and a text that is to be moved to the other form (`moving`). Nothing is written here.
#![tactic(auto)]

mod loss;
pub mod moving;
pub mod room;
