// Whether a run state is acceptable, condition by condition.
ghost use Rattle.std.specs.Prelude.{◌≡◌};
ghost use Rattle.rules.specs.RunState.{plan_ok, stored_ok, row_ok, row_none, every, not_in, distinct, in_hold, acceptable};
ghost use Rattle.stepping.specs.Holding.{holding_of};

use super::rows::{age, due_in};
use rules::{PlanRow, ROWS, Run, RunRow, Stored};

// No early return here, in `row_ok` and `is_new`: a branch for each condition would cost more than it saves.
fn plan_ok(p: PlanRow) -> bool
    ensures { result ≡ plan_ok p }
{
    let sum = u64::from(p.deadline) + u64::from(p.period);
    (1 <= p.cost)
        & (p.cost <= p.deadline)
        & (p.deadline <= p.period)
        & (sum == u64::from(p.validity))
        & (p.validity <= rules::MOST)
        & rules::hold_ok(p.cost, p.hold)
}

// A held sample is younger than the validity. Of a clock value, a validity and a stored value, as document 01's rule is.
pub(crate) fn stored_ok(clock: u32, validity: u32, stored: Stored) -> bool
    ensures { result ≡ stored_ok clock validity stored }
{
    match stored {
        Stored::Empty | Stored::Lapsed => true,
        Stored::Held(sample) => age(clock, sample) < validity,
    }
}

// The conditions on a row in use. A row may be handed in with any sample beside no work left: so the job in hand is three fields of it, on which
// document 01 has conditions, and no option.
#[tactic(auto, using(std::proofs::lemmas::Bool::Decides::nat_tests), unfolding(rules::specs::RunState::row_ok))]
pub fn row_ok(clock: u32, row: RunRow) -> bool
    ensures { result ≡ row_ok clock row }
{
    let p = row.planned;
    let idle = row.left == 0;
    let rest = !idle | (row.sample == 0) & !row.lapsed;
    let hand = idle | row.lapsed | (age(clock, row.sample) < p.validity);
    plan_ok(p)
        & (due_in(clock, row.next) < p.period)
        & (row.left <= p.cost)
        & stored_ok(clock, p.validity, row.stored)
        & (rest & hand)
}

// The conditions on a row beyond the count.
#[tactic(auto, using(std::proofs::lemmas::Bool::Decides::nat_tests), unfolding(rules::specs::RunState::row_none))]
pub fn row_none(row: RunRow) -> bool
    ensures { result ≡ row_none row }
{
    row == RunRow::empty()
}

// Whether the job in hand has done its first unit and not yet as many as its hold. A hold of 1 holds nothing and is the common
// one: that test goes first.
#[tactic(auto, using(std::proofs::lemmas::Bool::Decides::nat_tests), unfolding(rules::specs::RunState::in_hold))]
pub fn in_hold(row: RunRow) -> bool
    ensures { result ≡ in_hold row }
{
    let hold = row.planned.hold;
    if hold < 2 {
        return false;
    }
    let done = row.planned.cost.saturating_sub(row.left);
    row.left != 0 && 1 <= done && done < hold
}

// Whether none of the ids is this one: several are compared at once.
fn is_new(id: u16, others: &[u16]) -> bool
    ensures { result ≡ not_in id others.now }
{
    let mut new = true;
    for other in others {
        new &= id != *other;
    }
    new
}

// Whether the ids differ.
pub fn distinct(ids: &[u16]) -> bool
    ensures { result ≡ distinct ids.now }
{
    let mut differ = true;
    for (i, id) in ids.iter().enumerate() {
        differ &= is_new(*id, &ids[i + 1..]);
    }
    differ
}

// The conditions on the rows beyond the count.
fn all_none(rows: &[RunRow]) -> bool
    ensures { result ≡ every row_none rows.now }
{
    rows.iter().all(|row| row_none(*row))
}

// Whether a row is in its hold; none where the run is no run state. A second row in its hold is as wrong as a row that is not in
// order.
pub fn holding(run: &Run) -> Option<bool>
    ensures { result ≡ holding_of run.now }
{
    if run.count < 1 || ROWS < run.count {
        return None;
    }
    let mut ids = [0u16; ROWS];
    let mut ok = true;
    let mut holding = false;
    for (i, row) in run.used().iter().enumerate() {
        ids[i] = row.planned.id;
        let held = in_hold(*row);
        ok &= row_ok(run.clock, *row) & !(holding & held);
        holding |= held;
    }
    let none = all_none(&run.rows[run.count..]);
    let differ = distinct(&ids[..run.count]);
    (ok & none & differ).then_some(holding)
}

// Whether the run is a run state.
pub fn is_acceptable(run: &Run) -> bool
    ensures { result ≡ acceptable run.now }
{
    holding(run).is_some()
}
