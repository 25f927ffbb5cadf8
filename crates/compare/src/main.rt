// The compare program: reads a stored table from standard input and prints the classic plan, Half-Half, and ours, More-Less, side by
// side with each object's share of the core, or which of the two refuses and where; why ours does, on standard error.
#![tactic(auto)]

use printing::{Ending, Input, Line, Streams};
use rules::{ObjectRow, Plan, PlanRow, Refused, Table};

// An object's share of the core in hundredths of a per cent, rounded up.
fn share(row: &PlanRow) -> u64 {
    if row.period == 0 {
        return 0;
    }
    (u64::from(row.cost) * 10000).div_ceil(u64::from(row.period))
}

// The shares of all objects of a plan.
fn total(plan: &Plan) -> u64 {
    plan.used()
        .iter()
        .map(share)
        .fold(0, |sum: u64, one| sum.wrapping_add(one))
}

// Hundredths of a per cent, as 12.34%, in 10 columns.
fn put_share(line: &mut Line, hundredths: u64) {
    line.padded(hundredths / 100, 6);
    line.put(b'.');
    line.number(hundredths / 10 % 10);
    line.number(hundredths % 10);
    line.put(b'%');
}

// Deadline, period and share of one plan; blanks where there is no plan.
fn put_planned(line: &mut Line, row: Option<&PlanRow>) {
    match row {
        Some(row) => {
            line.padded(u64::from(row.deadline), 10);
            line.padded(u64::from(row.period), 9);
            put_share(line, share(row));
        }
        None => line.blanks(29),
    }
}

// One object in both plans.
fn print_row(
    rt: &impl Print,
    object: &ObjectRow,
    classic: Option<&PlanRow>,
    ours: Option<&PlanRow>,
) -> std::io::Result<()> {
    let mut line = Line::new();
    line.padded(u64::from(object.id), 6);
    line.padded(u64::from(object.cost), 9);
    line.padded(u64::from(object.validity), 9);
    put_planned(&mut line, classic);
    put_planned(&mut line, ours);
    line.end(rt)
}

// The total of a plan, under its shares; blanks where there is no plan.
fn put_total(line: &mut Line, plan: Option<&Plan>) {
    match plan {
        Some(plan) => {
            line.blanks(19);
            put_share(line, total(plan));
        }
        None => line.blanks(29),
    }
}

fn print_totals(
    rt: &impl Print,
    classic: Option<&Plan>,
    ours: Option<&Plan>,
) -> std::io::Result<()> {
    let mut line = Line::new();
    line.text(b" total");
    line.blanks(18);
    put_total(&mut line, classic);
    put_total(&mut line, ours);
    line.end(rt)
}

// The objects in priority order, in both plans. These are handed on side by side, as they stand in the table.
fn print_plans(
    rt: &impl Print,
    ranked: &Table,
    classic: Option<&Plan>,
    ours: Option<&Plan>,
) -> std::io::Result<()> {
    print!(rt; "                                    Half-Half                    More-Less\n")?;
    print!(rt;
        "    id     cost validity  deadline   period     share  deadline   period     share\n"
    )?;
    for (at, object) in ranked.used().iter().enumerate() {
        let half = classic.and_then(|plan| plan.used().get(at));
        let less = ours.and_then(|plan| plan.used().get(at));
        print_row(rt, object, half, less)?;
    }
    print_totals(rt, classic, ours)
}

// Which object a plan refuses.
fn print_refusal(
    rt: &impl Print,
    name: &str,
    refused: Refused,
    ranked: &Table,
) -> std::io::Result<()> {
    print!(rt; "{name}: {refused}")?;
    if let Some(row) = ranked.used().get(refused.place) {
        print!(rt; ", the object with id {}", row.id)?;
    }
    println!(rt; "")
}

// What each of the plans refuses, and both side by side where there is one.
fn print_comparison(
    rt: &impl Print,
    ranked: &Table,
    classic: &Result<Plan, Refused>,
    ours: &Result<Plan, Refused>,
) -> std::io::Result<()> {
    if let Err(refused) = classic {
        print_refusal(rt, "Half-Half", *refused, ranked)?;
    }
    if let Err(refused) = ours {
        print_refusal(rt, "More-Less", *refused, ranked)?;
    }
    if classic.is_ok() || ours.is_ok() {
        print_plans(rt, ranked, classic.as_ref().ok(), ours.as_ref().ok())?;
    }
    Ok(())
}

// Both plans of a table that reads. The comparison is refused where our plan refuses: a table that fits the classic one fits ours.
fn compare(rt: &(impl Print + Eprint), table: Table) -> Ending {
    let ranked = planning::ranked(table).unwrap_or(Table::empty());
    let classic = planning::plan_classic(table);
    let ours = planning::plan_table(table);
    printing::ignored(print_comparison(rt, &ranked, &classic, &ours));
    match ours {
        Ok(_) => Ending::Done,
        Err(refused) => {
            printing::explain_plan(rt, table, refused);
            Ending::Refused
        }
    }
}

// The answer to the bytes of a stored table. These lines are alike in each program: one function for them would take what follows as a closure.
fn answer(rt: &(impl Print + Eprint), bytes: &[u8]) -> Ending {
    match tables::read(bytes) {
        Ok(stored) => compare(rt, stored.table),
        Err(refused) => printing::refuse_table(rt, bytes, refused),
    }
}

fn main() {
    let input = Input::read();
    printing::ended(answer(&Streams, input.bytes()));
}
