// What `advance` knows of the slots ahead, so that it looks at few rows in each: a method for each of the three steps of a slot.
ghost use Rattle.std.specs.Prelude.{◌≡◌, ◌≤◌, ◌++◌, true, take, drop, replicate, if◌then◌else◌, nat_eq};
ghost use Rattle.rules.specs.RunState.{due_in, used_rows, one_hold};
ghost use Rattle.rules.specs.Run.{tick, step_one, step_two, step_three};
ghost use Rattle.running.specs.Outlook.{Between, Within};

use super::holder::{first_after, first_now, holder};
use super::lapses::lapse_of;
use rules::{ROWS, Run, RunRow};

// Nothing is released before the clock value `due`, and nothing lapses before `lapse`, nor at a row before its own value in the array
// `lapses` beside the rows. A row in its hold is the row `first`, and where there is none, no row before `first` has work: so the first
// with work from there on gets the slot. A clock value that is reached is the farthest of all from the next slot on, so that each row
// looked at brings it nearer. `holding` is no option of `first`, which says in both cases where the search begins.
#[derive(Clone, Copy)]
pub(crate) struct Outlook {
    pub(crate) clock: u32,
    pub(crate) count: usize,
    pub(crate) due: u32,
    pub(crate) lapse: u32,
    pub(crate) holding: bool,
    pub(crate) first: usize,
}

// The nearer of two clock values, from `clock` on.
fn nearer(clock: u32, a: u32, b: u32) -> u32
    ensures { (due_in clock result ≤ due_in clock a) × (due_in clock result ≤ due_in clock b) }
{
    if stepping::due_in(clock, a) < stepping::due_in(clock, b) {
        a
    } else {
        b
    }
}

// How many rows to look at, none of which needs a look before the clock value `until`.
fn looks(clock: u32, until: u32, count: usize) -> usize
    ensures { result ≡ (if nat_eq (due_in clock until) 0 then count else 0) }
{
    if stepping::due_in(clock, until) == 0 {
        count
    } else {
        0
    }
}

// Each step is a loop over as many rows as it needs, none where nothing falls: what follows a loop is proved once, what follows an
// `if` once for each way through it. They go by place: both arrays are written at it, and a zip of two that are written, with the place
// beside, reads no plainer; the one of step 2 moves the place on from slot to slot. The loops work on local variables, and the whole is
// stored at the end: with fields that change in the loop a slot would cost up to a third more. The two arrays are lent beside it: within it
// a slot of 64 objects on short jobs would take 53 ns in place of 38.
impl Outlook {
    // Every row has to be looked at.
    pub(crate) fn new(run: Run) -> Outlook
        requires few { run.count ≤ 64 }
        requires one { one_hold (used_rows run) ≡ true }
        ensures kept { Between result run.rows (replicate 64 run.clock) }
        ensures same { (result.clock ≡ run.clock) × (result.count ≡ run.count) }
    {
        let held = holder(&run);
        Outlook {
            clock: run.clock,
            count: run.count,
            due: run.clock,
            lapse: run.clock,
            holding: held.is_some(),
            first: held.unwrap_or(0),
        }
    }

    // Step 1.
    pub(crate) fn release(&mut self, rows: &mut [RunRow; ROWS], lapses: &mut [u32; ROWS])
        requires { Between self.old rows.old lapses.old }
        ensures kept { Within self.new rows.new lapses.new }
        ensures rows { rows.new ≡ step_one self.old.clock (take self.old.count rows.old) ++ drop self.old.count rows.old }
        ensures same { (self.new.clock ≡ self.old.clock) × (self.new.count ≡ self.old.count) }
    {
        let ahead = *self;
        let clock = ahead.clock;
        let after = clock.wrapping_add(1);
        let mut due = ahead.due;
        let mut lapse = ahead.lapse;
        let mut first = ahead.first;
        let releases = looks(clock, due, ahead.count);
        'release: for i in 0..releases {
            let row = rows[i];
            if row.next != clock {
                due = nearer(after, due, row.next);
                continue;
            }
            let r = stepping::released(clock, row);
            rows[i] = r;
            due = nearer(after, due, r.next);
            let own = lapse_of(clock, r);
            lapses[i] = own;
            lapse = nearer(clock, lapse, own);
            first = first_now(ahead.holding, first, i);
        }
        *self = Outlook {
            due,
            lapse,
            first,
            ..ahead
        };
    }

    // Step 2. The job of a hold of 1 that has more work than a unit, the common case, has a way of its own.
    pub(crate) fn serve(
        &mut self,
        stolen: bool,
        rows: &mut [RunRow; ROWS],
        lapses: &mut [u32; ROWS],
    )
        requires { Within self.old rows.old lapses.old }
        ensures kept { Within self.new rows.new lapses.new }
        ensures rows { rows.new ≡ step_two stolen (take self.old.count rows.old) ++ drop self.old.count rows.old }
        ensures same { (self.new.clock ≡ self.old.clock) × (self.new.count ≡ self.old.count) }
    {
        let ahead = *self;
        let clock = ahead.clock;
        let mut lapse = ahead.lapse;
        let mut holding = ahead.holding;
        let mut first = ahead.first;
        let mut seek = if stolen { 0 } else { ahead.count };
        'serve: while first < seek {
            let row = rows[first];
            if row.left == 0 {
                first = first + 1;
                continue;
            }
            seek = 0;
            if (1 < row.left) & (row.planned.hold < 2) {
                rows[first].left = row.left - 1;
                continue;
            }
            let s = stepping::served(row);
            rows[first] = s;
            let own = lapse_of(clock, s);
            lapses[first] = own;
            lapse = nearer(clock, lapse, own);
            if holding | (1 < row.left) {
                let held = stepping::in_hold(s);
                first = first_after(holding, held, first);
                holding = held;
            }
        }
        *self = Outlook {
            lapse,
            holding,
            first,
            ..ahead
        };
    }

    // Step 3, and the clock moves on.
    pub(crate) fn age(&mut self, rows: &mut [RunRow; ROWS], lapses: &mut [u32; ROWS])
        requires { Within self.old rows.old lapses.old }
        ensures kept { Between self.new rows.new lapses.new }
        ensures rows { rows.new ≡ step_three (tick self.old.clock) (take self.old.count rows.old) ++ drop self.old.count rows.old }
        ensures same { (self.new.clock ≡ tick self.old.clock) × (self.new.count ≡ self.old.count) }
    {
        let ahead = *self;
        let clock = ahead.clock;
        let after = clock.wrapping_add(1);
        let mut lapse = ahead.lapse;
        let looked = looks(clock, lapse, ahead.count);
        'age: for i in 0..looked {
            let until = lapses[i];
            if stepping::due_in(clock, until) != 0 {
                lapse = nearer(after, lapse, until);
                continue;
            }
            let t = stepping::aged(after, rows[i]);
            rows[i] = t;
            let own = lapse_of(after, t);
            lapses[i] = own;
            lapse = nearer(after, lapse, own);
        }
        *self = Outlook {
            clock: after,
            lapse,
            ..ahead
        };
    }
}
