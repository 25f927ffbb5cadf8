// The reseller's sheet, both ways: lines of id, cost, validity, hold, separated by commas and each ended by CR LF.
// Any bytes and any table may be handed in; what is bad is refused with its number and place.
#![tactic(auto)]

mod reading;
mod writing;

pub use reading::import;
pub use writing::export;
