// What the programs print with: lines with columns on standard output; refusals, there or on standard error, with a sentence for each; what
// came in; and how the program ended.
#![tactic(auto)]

mod ending;
mod input;
mod line;
mod refusals;
mod shortfall;
mod streams;

pub use ending::{Ending, ended, ignored};
pub use input::Input;
pub use line::Line;
pub use refusals::{
    complain, explain_plan, explain_sheet, explain_start, explain_table, refuse_file, refuse_table,
    tell,
};
pub use streams::Streams;
