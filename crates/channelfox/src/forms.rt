// The C forms of refusals, stored tables and runs: enums and bools as numbers. What C hands in may be anything, so whether it stands for
// a run at all is a test; a number that names no stored form is no form.
ghost use Rattle.std.specs.Prelude.{◌≡◌};
ghost use Rattle.channelfox.specs.Answered.{refused_form, run_taken};
ghost use Rattle.channelfox.specs.Forms.{form_number, form_numbered, stored_table_form, stored_table, stored_kind, stored_held, stored_of, row_form, row_of, is_form, run_form};

use super::{CRun, CRunRow, CStored, CVerdict};
use rules::{Form, ROWS, Refusal, Refused, Run, RunRow, Stored, StoredTable};

impl From<Refused> for CVerdict {
    ghost from_gives = { λ refused form. form ≡ refused_form refused };

    fn from(refused: Refused) -> CVerdict {
        CVerdict {
            number: u8::from(refused.refusal),
            place: refused.place,
        }
    }
}

// ── Stored tables ──

// Neither a form nor a number is a type of this crate, so these are no `From`.
pub(crate) fn form_number(form: Option<Form>) -> u32
    ensures { result ≡ form_number form }
{
    match form {
        None => 0,
        Some(Form::One) => 1,
        Some(Form::Two) => 2,
    }
}

pub(crate) fn form_numbered(number: u32) -> Option<Form>
    ensures { result ≡ form_numbered number }
{
    match number {
        1 => Some(Form::One),
        2 => Some(Form::Two),
        _ => None,
    }
}

impl From<StoredTable> for CStored {
    ghost from_gives = { λ stored form. form ≡ stored_table_form stored };

    fn from(stored: StoredTable) -> CStored {
        let firsts = stored.firsts;
        CStored {
            form: form_number(stored.form),
            table: stored.table,
            firsts,
        }
    }
}

impl From<CStored> for StoredTable {
    ghost from_gives = { λ form stored. stored ≡ stored_table form };

    fn from(form: CStored) -> StoredTable {
        let firsts = form.firsts;
        StoredTable {
            form: form_numbered(form.form),
            table: form.table,
            firsts,
        }
    }
}

// ── Runs ──

// The kind of a stored value, and what it holds.
fn kind_and_held(stored: Stored) -> (u32, u32)
    ensures kind { result.0 ≡ stored_kind stored }
    ensures held { result.1 ≡ stored_held stored }
{
    match stored {
        Stored::Empty => (0, 0),
        Stored::Held(sample) => (1, sample),
        Stored::Lapsed => (2, 0),
    }
}

fn stored_of(kind: u32, held: u32) -> Stored
    ensures { result ≡ stored_of kind held }
{
    match kind {
        1 => Stored::Held(held),
        2 => Stored::Lapsed,
        _ => Stored::Empty,
    }
}

impl From<RunRow> for CRunRow {
    ghost from_gives = { λ row form. form ≡ row_form row };

    fn from(row: RunRow) -> CRunRow {
        let (stored, held) = kind_and_held(row.stored);
        CRunRow {
            planned: row.planned,
            next: row.next,
            left: row.left,
            sample: row.sample,
            lapsed: u32::from(row.lapsed),
            stored,
            held,
            skips: row.skips,
        }
    }
}

impl From<CRunRow> for RunRow {
    ghost from_gives = { λ form row. row ≡ row_of form };

    fn from(form: CRunRow) -> RunRow {
        RunRow {
            planned: form.planned,
            next: form.next,
            left: form.left,
            sample: form.sample,
            lapsed: form.lapsed != 0,
            stored: stored_of(form.stored, form.held),
            skips: form.skips,
        }
    }
}

// Whether a C row stands for a row: no other number in place of a bool or an enum, and nothing held beside a value that is not.
fn is_form(form: &CRunRow) -> bool
    ensures { result ≡ is_form form.now }
{
    form.lapsed <= 1 && form.stored <= 2 && (form.held == 0 || form.stored == 1)
}

impl From<&Run> for CRun {
    ghost from_gives = { λ run form. form ≡ run_form run.now };

    fn from(run: &Run) -> CRun {
        // An array's `map` would take twice as long, and 7 KB more of the stack.
        let mut rows = [CRunRow::from(RunRow::empty()); ROWS];
        for (at, row) in run.rows.iter().enumerate() {
            rows[at] = CRunRow::from(*row);
        }
        CRun {
            clock: run.clock,
            count: run.count,
            rows,
        }
    }
}

// What C hands in as a run, where each of its rows stands for one.
impl TryFrom<&CRun> for Run {
    type Error = Refused;

    ghost try_from_gives = { λ form run. run ≡ run_taken form.now };

    fn try_from(form: &CRun) -> Result<Run, Refused> {
        if !form.rows.iter().all(is_form) {
            return Err(Refusal::NotRunState.at(0));
        }
        // No `map`, as above.
        let mut rows = [RunRow::empty(); ROWS];
        for (at, row) in form.rows.iter().enumerate() {
            rows[at] = RunRow::from(*row);
        }
        Ok(Run {
            clock: form.clock,
            count: form.count,
            rows,
        })
    }
}
