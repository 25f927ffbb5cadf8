// Why a table has no plan, in words: which object has no deadline, and how far it is from fitting.
use crate::refusals::counted;
use rules::{ObjectRow, Plan, Table};

// The longest hold behind a place of a table in priority order, less one: so long a job there keeps the core.
fn hold_behind(ranked: Table, place: usize) -> u32 {
    ranked
        .used()
        .iter()
        .skip(counted(place))
        .map(|row| row.hold)
        .max()
        .unwrap_or(1)
        .saturating_sub(1)
}

// What the object at a place needs within its half: more slots than that has, in any case. Those ahead are planned here without the holds
// from the place on; with these their periods would be as long or shorter, so that what is told is the least that they can bring.
fn need_reason(
    rt: &impl Eprint,
    ranked: Table,
    place: usize,
    row: ObjectRow,
) -> std::io::Result<()> {
    let half = row.validity / 2;
    let behind = hold_behind(ranked, place);
    let rows = ranked.rows;
    let ahead = planning::plan_table(Table { count: place, rows });
    let plan = ahead.unwrap_or(Plan::empty());
    let own = row.cost.wrapping_add(behind);
    let all = planning::needed(plan, own, half).max(u64::from(half) + 1);
    let work = all.wrapping_sub(u64::from(behind));
    if behind == 0 {
        eprintln!(rt;
            "it and the {place} ahead of it can bring {work} slots of work. Lower costs, lengthen its validity, or take out an object ahead of it."
        )
    } else {
        eprintln!(rt;
            "{all} can be needed: a job behind it can keep the core for {behind} by its hold, and it and the {place} ahead of it can bring {work} slots of work. Lower costs or holds, lengthen its validity, or take out an object ahead of it."
        )
    }
}

// The object at a place in priority order, and what it needs.
pub(crate) fn plan_reason(rt: &impl Eprint, table: Table, place: usize) -> std::io::Result<()> {
    let Ok(ranked) = planning::ranked(table) else {
        return Ok(());
    };
    let Some(row) = ranked.used().get(place) else {
        return Ok(());
    };
    let id = row.id;
    let cost = row.cost;
    let validity = row.validity;
    let half = validity / 2;
    let which = counted(place);
    eprint!(rt;
        "The object with id {id}, cost {cost}, validity {validity}, number {which} in priority order, has no deadline: it has {half} slots, half its validity, and within these "
    )?;
    need_reason(rt, ranked, place, *row)
}
