// The search for the smallest t that balances, over what is known of the objects ahead.
ghost use Rattle.std.specs.Prelude.{◌≡◌, ◌≤◌, length, map};
ghost use Rattle.rules.specs.Deadlines.{first_fixed};
ghost use Rattle.planning.specs.Paces.{pace_of, need_again, UpTo, no_ahead, Low, Steady, Rising, lower, Reached, found_of};
ghost use Rattle.planning.specs.Made.{ahead_of};

use rules::PlanRow;

// Paces are in parts of 2^40.
const WHOLE: u64 = 1 << 40;

// What is known of an object ahead: its pace, which is its period as a factor, the cost of a job of it, and its calm: within so many
// slots neither it nor one of those behind it that are known brings a second job.
#[derive(Clone, Copy, Default)]
pub(crate) struct Ahead {
    pace: u64,
    cost: u32,
    calm: u32,
}

impl Ahead {
    // An object with a period and the cost of a job, 0 where it brings none, and so far with nothing known behind it.
    pub(crate) fn of(period: u32, cost: u32) -> Ahead
        ensures { result ≡ record { pace = pace_of period; cost = cost; calm = period } }
    {
        Ahead {
            pace: pace_of(period),
            cost,
            calm: period,
        }
    }

    // The cost of a job.
    pub(crate) fn job(&self) -> u64
        ensures value { result ≡ self.now.cost }
        ensures fits { result ≤ 4294967295 }
    {
        u64::from(self.cost)
    }
}

// What a planned row says of itself; with a period of 0 it brings no job.
impl From<PlanRow> for Ahead {
    ghost from_gives = { λ row one. one ≡ ahead_of row };

    fn from(row: PlanRow) -> Ahead {
        Ahead::of(row.period, if row.period < 1 { 0 } else { row.cost })
    }
}

// A period as a factor: (t - 1) times it, divided by 2^40, is (t - 1) divided by the period, for t up to 1,000,000. So the search
// multiplies where it would divide, and one division serves all its rounds.
fn pace_of(period: u32) -> u64
    ensures { result ≡ pace_of period }
{
    if period < 1 {
        return 1;
    }
    WHOLE / u64::from(period.min(rules::MOST)) + 1
}

// The least period from each object ahead on, with that of an object behind them new: none from there on brings a second job within
// so many slots. They rise along the objects, so the first that is low enough ends it.
pub(crate) fn lower_calms(ahead: &mut [Ahead], period: u32)
    requires { Rising ahead.old }
    ensures { ahead.new ≡ map (lower period) ahead.old }
{
    // By index: of a walk back over `iter_mut` that may be left, a proof is not told what it wrote.
    for at in (0..ahead.len()).rev() {
        let one = &mut ahead[at];
        if one.calm <= period {
            return;
        }
        one.calm = period;
    }
}

// What is needed within t slots: `start` in any case, and what the objects ahead bring besides one job each. It is left once it is
// above the bound, since what is above the bound is the same to a search.
pub(crate) fn need_within(ahead: &[Ahead], start: u64, t: u64, bound: u64) -> u64
    requires few { length ahead.now ≤ 64 }
    requires low { Low ahead.now }
    requires from { start ≤ 1099511627776 }
    requires within { (1 ≤ t) × (t ≤ 1000000) }
    ensures { UpTo bound (need_again ahead.now start t) result }
{
    let mut need = start;
    for one in ahead {
        // Before the object is taken: behind it the test costs a plan of 64 objects up to a quarter more time.
        if bound < need {
            return need;
        }
        let again = (t - 1) * one.pace / WHOLE;
        need += again * one.job();
    }
    need
}

// How many of the objects ahead a sum within t slots has to take: those behind bring no second job. `from` is as many as it had to
// take within fewer slots.
fn reach(ahead: &[Ahead], from: usize, t: u64) -> usize
    requires { from ≤ length ahead.now }
    ensures { Reached ahead.now t result }
{
    ahead[from..]
        .iter()
        .position(|one| t <= u64::from(one.calm))
        .map_or(ahead.len(), |more| from + more)
}

// The smallest t up to the bound that balances. t goes from `start`, what is needed at least, to what is needed within t, and so on,
// until it balances or the bound is passed. Most objects ahead bring no second job within t, and those at the end are not added up.
// Document 01 names the form: a loop that yields the deadline by break.
pub(crate) fn search(ahead: &[Ahead], start: u64, bound: u64) -> Option<u32>
    requires few { length ahead.now ≤ 64 }
    requires steady { Steady ahead.now }
    requires from { (1 ≤ start) × (start ≤ 1099511627776) }
    requires within { bound ≤ 1000000 }
    ensures { result ≡ found_of (first_fixed (need_again ahead.now start) bound 1) }
{
    let mut t = start;
    let mut far = 0;
    loop {
        if bound < t {
            break None;
        }
        far = reach(ahead, far, t);
        let need = need_within(&ahead[..far], start, t, bound);
        if need == t {
            break Some(need as u32);
        }
        t = need;
    }
}
