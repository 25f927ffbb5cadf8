// What a run state is, and what one slot does to one row of it. Every public function takes whatever it is handed.
#![tactic(auto)]

mod acceptance;
mod rows;

pub use acceptance::{distinct, holding, in_hold, is_acceptable, row_none, row_ok};
pub use rows::{age, aged, due_in, released, served, still_free, unmoved, worked};
