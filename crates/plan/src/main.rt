// The plan program: reads a stored table from standard input and prints its plan, or "refused N at K" and, on standard error, why.
#![tactic(auto)]

use printing::{Ending, Input, Streams};
use rules::{Plan, Table};

// "objects n", then a line for each object in priority order: id, cost, validity, deadline, period.
fn print_plan(rt: &impl Print, plan: &Plan) -> std::io::Result<()> {
    println!(rt; "objects {}", plan.count)?;
    for row in plan.used() {
        println!(rt;
            "{} {} {} {} {}",
            row.id, row.cost, row.validity, row.deadline, row.period
        )?;
    }
    Ok(())
}

// The plan of a table that reads.
fn plan(rt: &(impl Print + Eprint), table: Table) -> Ending {
    match planning::plan_table(table) {
        Ok(plan) => {
            printing::ignored(print_plan(rt, &plan));
            Ending::Done
        }
        Err(refused) => {
            printing::tell(rt, refused);
            printing::explain_plan(rt, table, refused);
            Ending::Refused
        }
    }
}

// The answer to the bytes of a stored table. These lines are alike in each program: one function for them would take what follows as a closure.
fn answer(rt: &(impl Print + Eprint), bytes: &[u8]) -> Ending {
    match tables::read(bytes) {
        Ok(stored) => plan(rt, stored.table),
        Err(refused) => printing::refuse_table(rt, bytes, refused),
    }
}

fn main() {
    let input = Input::read();
    printing::ended(answer(&Streams, input.bytes()));
}
