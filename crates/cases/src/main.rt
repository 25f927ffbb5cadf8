// Runs the numbers of document 01 and prints the answers, a line each; the file `stdout` beside src/ has what the paper says.
#![tactic(auto)]

mod failed;
mod planning_cases;
mod reading;
mod run_cases;
mod state_cases;

use failed::Failed;
use printing::Streams;

fn cases(rt: &impl Print) -> Result<(), Failed> {
    reading::cases(rt)?;
    planning_cases::cases(rt)?;
    run_cases::cases(rt)?;
    state_cases::cases(rt)
}

// A write that failed is let go, as in the other programs.
fn main() {
    match cases(&Streams) {
        Ok(()) | Err(Failed::Unwritten(_)) => {}
        Err(Failed::Refused(refused)) => printing::tell(&Streams, refused),
    }
}
