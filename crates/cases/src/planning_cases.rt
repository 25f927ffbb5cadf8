// Document 01's numbers for the planner, those that are run and not proved among them.
use crate::failed::Failed;
use rules::{ObjectRow, Table};

// An object row of (cost, validity), with an id and a hold.
pub(crate) fn held_row(id: u16, cost: u32, validity: u32, hold: u32) -> ObjectRow {
    ObjectRow {
        id,
        cost,
        validity,
        hold,
    }
}

// The same with a hold of 1.
pub(crate) fn row(id: u16, cost: u32, validity: u32) -> ObjectRow {
    held_row(id, cost, validity, 1)
}

// A table of these rows, three at most. Those of the three beyond the count would be refused, if they were read.
pub(crate) fn table(first: &[ObjectRow]) -> Table {
    let mut rows = [ObjectRow::empty(); 64];
    rows[..3].fill(row(9, 0, 0));
    for (place, row) in rows.iter_mut().zip(first) {
        *place = *row;
    }
    Table {
        count: first.len(),
        rows,
    }
}

// The same with another count.
fn with_count(first: &[ObjectRow], count: usize) -> Table {
    let mut counted = table(first);
    counted.count = count;
    counted
}

// One table: what it is, and its plan, " id (deadline,period)" of each object in priority order, or the refusal.
fn plan_case(rt: &impl Print, title: &str, table: Table) -> Result<(), Failed> {
    print!(rt; "{title}:")?;
    match planning::plan_table(table) {
        Ok(plan) => {
            for row in plan.used() {
                print!(rt; " {} ({},{})", row.id, row.deadline, row.period)?;
            }
        }
        Err(refused) => print!(rt; " {refused}")?,
    }
    println!(rt; "")?;
    Ok(())
}

// The tables of documents 000 and 002.
fn papers(rt: &impl Print) -> Result<(), Failed> {
    plan_case(rt, "(1,3), (2,20)", table(&[row(1, 1, 3), row(2, 2, 20)]))?;
    plan_case(
        rt,
        "(1,8), (1,10), (1,12)",
        table(&[row(1, 1, 8), row(2, 1, 10), row(3, 1, 12)]),
    )?;
    plan_case(
        rt,
        "(2,8), (2,10), (2,12)",
        table(&[row(1, 2, 8), row(2, 2, 10), row(3, 2, 12)]),
    )?;
    plan_case(
        rt,
        "(2,8), (2,10), (2,11)",
        table(&[row(1, 2, 8), row(2, 2, 10), row(3, 2, 11)]),
    )
}

// One object, two objects, and the limits of a cost.
fn limits(rt: &impl Print) -> Result<(), Failed> {
    plan_case(rt, "(1,2)", table(&[row(1, 1, 2)]))?;
    plan_case(
        rt,
        "(1,2), (1,1000000)",
        table(&[row(1, 1, 2), row(2, 1, 1000000)]),
    )?;
    plan_case(rt, "(500000,1000000)", table(&[row(1, 500000, 1000000)]))?;
    plan_case(rt, "(500001,1000000)", table(&[row(1, 500001, 1000000)]))
}

// Ties; of three objects the one in the middle, in priority order, has no deadline.
fn ties(rt: &impl Print) -> Result<(), Failed> {
    plan_case(rt, "(1,3), (1,4)", table(&[row(1, 1, 3), row(2, 1, 4)]))?;
    plan_case(rt, "(1,3), (1,3)", table(&[row(1, 1, 3), row(2, 1, 3)]))?;
    plan_case(
        rt,
        "(1,100), (1,3), (1,3)",
        table(&[row(1, 1, 100), row(2, 1, 3), row(3, 1, 3)]),
    )?;
    plan_case(
        rt,
        "id 1 (1,10), id 2 (3,10)",
        table(&[row(1, 1, 10), row(2, 3, 10)]),
    )
}

// Objects 1 (1,8) and 2 (5,20), the second with a hold.
pub(crate) fn behind(hold: u32) -> Table {
    table(&[row(1, 1, 8), held_row(2, 5, 20, hold)])
}

// Holds: one that just fits and one that just does not, the largest, and those that are refused.
fn holds(rt: &impl Print) -> Result<(), Failed> {
    plan_case(rt, "(1,8), (5,20) with hold 4", behind(4))?;
    plan_case(rt, "(1,8), (5,20) with hold 5", behind(5))?;
    plan_case(
        rt,
        "(70000,400000) with hold 65536",
        table(&[held_row(1, 70000, 400000, 65536)]),
    )?;
    plan_case(
        rt,
        "(70000,400000) with hold 65537",
        table(&[held_row(1, 70000, 400000, 65537)]),
    )?;
    plan_case(rt, "hold 0", table(&[held_row(1, 2, 8, 0)]))?;
    plan_case(rt, "hold above the cost", table(&[held_row(1, 2, 8, 3)]))
}

// Rows that are refused before they are planned.
fn refusals(rt: &impl Print) -> Result<(), Failed> {
    let three = [row(1, 1, 10), row(2, 1, 10), row(3, 1, 10)];
    plan_case(rt, "cost 0", table(&[row(1, 0, 10)]))?;
    plan_case(rt, "validity 1000001", table(&[row(1, 1, 1000001)]))?;
    plan_case(rt, "count 0", with_count(&three, 0))?;
    plan_case(rt, "count 65", with_count(&three, 65))?;
    plan_case(
        rt,
        "equal ids in the first and the third row",
        table(&[row(1, 1, 10), row(2, 1, 10), row(1, 1, 10)]),
    )
}

pub(crate) fn cases(rt: &impl Print) -> Result<(), Failed> {
    papers(rt)?;
    limits(rt)?;
    ties(rt)?;
    holds(rt)?;
    refusals(rt)
}
