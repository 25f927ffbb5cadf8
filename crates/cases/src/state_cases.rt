// Document 01's conditions of an acceptable run state, each broken by itself.
use crate::failed::Failed;
use crate::planning_cases::{held_row, table};
use crate::run_cases::print_reading;
use rules::{PlanRow, Run, RunRow, Stored, Unstepped};

// Objects 1 (2,8) and 2 (2,10) with these holds, three slots after a start at clock 100.
fn run_with(hold: u32) -> Result<Run, Failed> {
    let rows = table(&[held_row(1, 2, 8, hold), held_row(2, 2, 10, hold)]);
    let run = running::start(rows, 100, &[0, 0])?;
    Ok(running::advance(run, &[0, 0, 0])?)
}

// The good state with another row at a place.
fn with_row(good: Run, place: usize, row: RunRow) -> Run {
    let mut run = good;
    if let Some(old) = run.rows.get_mut(place) {
        *old = row;
    }
    run
}

// The first row with other planned numbers, due in one slot.
fn with_planned(good: Run, planned: PlanRow) -> Run {
    let mut first = good.rows[0];
    first.planned = planned;
    first.next = 104;
    with_row(good, 0, first)
}

// Planned numbers with a hold of 1.
fn planned(id: u16, cost: u32, validity: u32, deadline: u32, period: u32) -> PlanRow {
    PlanRow {
        id,
        cost,
        validity,
        hold: 1,
        deadline,
        period,
    }
}

// The planned numbers of object 1 with another hold.
fn planned_held(hold: u32) -> PlanRow {
    let mut row = planned(1, 2, 8, 2, 6);
    row.hold = hold;
    row
}

// The first row with another stored value.
fn with_stored(good: Run, stored: Stored) -> Run {
    let mut first = good.rows[0];
    first.stored = stored;
    with_row(good, 0, first)
}

// What a step and a reading say of the state.
fn state_case(rt: &impl Print, title: &str, run: Run) -> Result<(), Failed> {
    print!(rt; "{title}: ")?;
    let clock = match running::slot(run, false) {
        Ok(after) => {
            print!(rt; "accepted")?;
            after.clock
        }
        Err(Unstepped { refused, run: kept }) => {
            print!(rt; "{refused}")?;
            kept.clock
        }
    };
    print!(rt; ", clock {clock}, reading ")?;
    print_reading(rt, run, 1)
}

// The count and the ids.
fn counts(rt: &impl Print, good: Run) -> Result<(), Failed> {
    state_case(rt, "the good state", good)?;
    let mut none = good;
    none.count = 0;
    state_case(rt, "count 0", none)?;
    let mut many = good;
    many.count = 65;
    state_case(rt, "count 65", many)?;
    state_case(rt, "equal ids", with_planned(good, planned(2, 2, 8, 2, 6)))
}

// The planned numbers.
fn plans(rt: &impl Print, good: Run) -> Result<(), Failed> {
    state_case(rt, "cost 0", with_planned(good, planned(1, 0, 8, 2, 6)))?;
    state_case(
        rt,
        "cost above the deadline",
        with_planned(good, planned(1, 3, 8, 2, 6)),
    )?;
    state_case(
        rt,
        "deadline above the period",
        with_planned(good, planned(1, 2, 8, 5, 3)),
    )?;
    state_case(
        rt,
        "deadline plus period below the validity",
        with_planned(good, planned(1, 2, 9, 2, 6)),
    )
}

// The largest validity.
fn validities(rt: &impl Print, good: Run) -> Result<(), Failed> {
    state_case(
        rt,
        "validity 1000000",
        with_planned(good, planned(1, 2, 1000000, 2, 999998)),
    )?;
    state_case(
        rt,
        "validity 1000001",
        with_planned(good, planned(1, 2, 1000001, 2, 999999)),
    )
}

// The hold of a row, and the jobs that are in theirs.
fn holds(rt: &impl Print, good: Run, held: Run) -> Result<(), Failed> {
    state_case(rt, "hold 0", with_planned(good, planned_held(0)))?;
    state_case(
        rt,
        "hold equal to the cost",
        with_planned(good, planned_held(2)),
    )?;
    state_case(
        rt,
        "hold above the cost",
        with_planned(good, planned_held(3)),
    )?;
    state_case(rt, "a job in its hold", held)?;
    let mut first = held.rows[0];
    first.left = 1;
    first.sample = 100;
    state_case(rt, "two jobs in their hold", with_row(held, 0, first))
}

// Release and work.
fn jobs(rt: &impl Print, good: Run) -> Result<(), Failed> {
    let mut far = good.rows[0];
    far.next = 109;
    state_case(rt, "next release a period away", with_row(good, 0, far))?;
    let mut busy = good.rows[1];
    busy.left = 3;
    state_case(rt, "work left above the cost", with_row(good, 1, busy))
}

// Samples, stored and in hand.
fn samples(rt: &impl Print, good: Run) -> Result<(), Failed> {
    state_case(
        rt,
        "held sample of age 7",
        with_stored(good, Stored::Held(96)),
    )?;
    state_case(
        rt,
        "held sample of age 8",
        with_stored(good, Stored::Held(95)),
    )?;
    let mut old = good.rows[1];
    old.sample = 93;
    state_case(rt, "sample in hand of age 10", with_row(good, 1, old))?;
    old.lapsed = true;
    state_case(rt, "the same, lapsed", with_row(good, 1, old))
}

// No work left, and the rows beyond the count.
fn rests(rt: &impl Print, good: Run) -> Result<(), Failed> {
    let mut sampled = good.rows[0];
    sampled.sample = 1;
    state_case(rt, "no work left, sample 1", with_row(good, 0, sampled))?;
    let mut lapsed = good.rows[0];
    lapsed.lapsed = true;
    state_case(rt, "no work left, lapsed", with_row(good, 0, lapsed))?;
    let mut skipped = good.rows[63];
    skipped.skips = 1;
    state_case(rt, "a skip beyond the count", with_row(good, 63, skipped))?;
    let mut last = good.rows[63];
    last.planned.hold = 1;
    state_case(rt, "a hold beyond the count", with_row(good, 63, last))
}

pub(crate) fn cases(rt: &impl Print) -> Result<(), Failed> {
    let good = run_with(1)?; // object 1 holds its value, object 2 has one unit left
    let held = run_with(2)?; // object 2 is in its hold
    counts(rt, good)?;
    plans(rt, good)?;
    validities(rt, good)?;
    holds(rt, good, held)?;
    jobs(rt, good)?;
    samples(rt, good)?;
    rests(rt, good)
}
