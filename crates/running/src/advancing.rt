// Many slots of a run in one call.
ghost use Rattle.std.specs.Prelude.{◌≡◌, ◌≤◌, true};
ghost use Rattle.rules.specs.RunState.{used_rows, one_hold};
ghost use Rattle.rules.specs.Answers.{step_outcome};
ghost use Rattle.rules.specs.Run.{slots_of, advanced_of};

use super::outlook::Outlook;
use rules::{ROWS, Refusal, Run, Unstepped};

// The slots one after the other, each in the three steps of document 01, without a look at every row in each.
fn advance_rows(run: Run, stolen: &[u8]) -> Run
    requires few { run.count ≤ 64 }
    requires one { one_hold (used_rows run) ≡ true }
    ensures { result ≡ slots_of run stolen.now }
{
    let mut rows = run.rows;
    let mut lapses = [run.clock; ROWS];
    let mut ahead = Outlook::new(run);
    'slots: for byte in stolen {
        ahead.release(&mut rows, &mut lapses);
        ahead.serve(*byte != 0, &mut rows, &mut lapses);
        ahead.age(&mut rows, &mut lapses);
    }
    Run {
        clock: ahead.clock,
        count: ahead.count,
        rows,
    }
}

// One slot for each byte of `stolen`: 0, the core is ours; anything else, the slot is stolen. The state is checked once: a slot
// keeps a run state a run state. What is no run state is refused and handed back as it came in.
pub fn advance(run: Run, stolen: &[u8]) -> Result<Run, Unstepped>
    ensures { result ≡ step_outcome (advanced_of run stolen.now) }
{
    if !stepping::is_acceptable(&run) {
        let refused = Refusal::NotRunState.at(0);
        return Err(Unstepped { refused, run });
    }
    Ok(advance_rows(run, stolen))
}
