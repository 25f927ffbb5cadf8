// The C library: exported functions on numbers, byte slices and structs of numbers; include/channelfox.h is their C side.
// Each hands what it gets to a function of the libraries below and turns the answer into its C form. No export has a `requires`.
#![tactic(auto)]

mod answers;
mod forms;

ghost use Rattle.std.specs.Prelude.{◌≡◌, length};
ghost use Rattle.rules.specs.Answers.{plan_outcome};
ghost use Rattle.rules.specs.StoredTable.{read_of, door_of, chosen_part};
ghost use Rattle.rules.specs.Writing.{written_of, buffer_after, form_one};
ghost use Rattle.rules.specs.Converting.{converted_of, converted_after};
ghost use Rattle.rules.specs.Sheet.{import_of, exported_of, sheet_after};
ghost use Rattle.rules.specs.Order.{ranked_of};
ghost use Rattle.rules.specs.Deadlines.{plan_of};
ghost use Rattle.rules.specs.HalfHalf.{classic_of};
ghost use Rattle.rules.specs.Run.{start_of, start_stored_of};
ghost use Rattle.channelfox.specs.Answered.{value_taken};
ghost use Rattle.channelfox.specs.Forms.{read_form, stored_form, stored_table, form_numbered, written_form, plan_form, started_form, planned_stored, slot_form, advance_form, read_value_form, part_form};

use forms::form_numbered;
use rules::{ObjectRow, Plan, PlanRow, ROWS, Reading, Refused, Run, StoredTable, Table};

// A verdict: number 0 and place 0, or the refusal.
#[repr(C)]
#[derive(Clone, Copy)]
pub struct CVerdict {
    pub number: u8,
    pub place: usize,
}

impl CVerdict {
    // Nothing is refused.
    pub(crate) const ACCEPTED: CVerdict = CVerdict {
        number: 0,
        place: 0,
    };
}

// A run row: `lapsed` 0 or 1; `stored` 0 none, 1 held, 2 lapsed; `held` the sample instant of a held value, otherwise 0.
#[repr(C)]
#[derive(Clone, Copy)]
pub struct CRunRow {
    pub planned: PlanRow,
    pub next: u32,
    pub left: u32,
    pub sample: u32,
    pub lapsed: u32,
    pub stored: u32,
    pub held: u32,
    pub skips: u32,
}

#[repr(C)]
#[derive(Clone, Copy)]
pub struct CRun {
    pub clock: u32,
    pub count: usize,
    pub rows: [CRunRow; ROWS],
}

#[repr(C)]
#[derive(Clone, Copy)]
pub struct CReadAnswer {
    pub verdict: CVerdict,
    pub table: Table,
}

// What stored bytes hold: `form` 0 none, 1 form one, 2 form two; the first releases in the order of the records.
#[repr(C)]
#[derive(Clone, Copy)]
pub struct CStored {
    pub form: u32,
    pub table: Table,
    pub firsts: [u32; ROWS],
}

#[repr(C)]
#[derive(Clone, Copy)]
pub struct CStoredAnswer {
    pub verdict: CVerdict,
    pub stored: CStored,
}

// How many bytes were written; 0 where refused.
#[repr(C)]
#[derive(Clone, Copy)]
pub struct CWritten {
    pub verdict: CVerdict,
    pub size: usize,
}

#[repr(C)]
#[derive(Clone, Copy)]
pub struct CPlanAnswer {
    pub verdict: CVerdict,
    pub plan: Plan,
}

#[repr(C)]
#[derive(Clone, Copy)]
pub struct CRunAnswer {
    pub verdict: CVerdict,
    pub run: CRun,
}

// What a reading says: no value yet, a stale one, or a fresh one. None of these is a number of `CRunRow.stored`, so that one taken for
// the other is never equal to it.
const NEVER: u32 = 3;

const STALE: u32 = 4;

const FRESH: u32 = 5;

// A reading: which value, and the age of a fresh one; 0 and 0 where refused.
#[repr(C)]
#[derive(Clone, Copy)]
pub struct CReading {
    pub verdict: CVerdict,
    pub value: u32,
    pub age: u32,
}

// The chosen part: `source` 1 of the site bytes, 2 of the factory bytes; `form` as in `CStored`.
#[repr(C)]
#[derive(Clone, Copy)]
pub struct CPart {
    pub source: u32,
    pub form: u32,
    pub start: usize,
    pub size: usize,
}

// ── Tables and plans ──

#[unsafe(no_mangle)]
pub extern "C" fn channelfox_read(bytes: &[u8]) -> CStoredAnswer
    ensures { result ≡ stored_form (read_of bytes.now) }
{
    // Two returns: one value for both would be made beside the answer, and its 1,312 bytes copied there.
    let stored = match tables::read(bytes) {
        Ok(stored) => stored,
        Err(refused) => return CStoredAnswer::from(refused),
    };
    CStoredAnswer::from(stored)
}

#[unsafe(no_mangle)]
pub extern "C" fn channelfox_rows(rows: &[ObjectRow]) -> CReadAnswer
    ensures { result ≡ read_form (door_of rows.now) }
{
    CReadAnswer::from(tables::read_rows(rows))
}

#[unsafe(no_mangle)]
pub extern "C" fn channelfox_choose(site: &[u8], factory: &[u8]) -> CPart
    ensures { result ≡ part_form (chosen_part site.now factory.now) }
{
    CPart::from(tables::chosen_part(site, factory))
}

#[unsafe(no_mangle)]
pub extern "C" fn channelfox_write(table: Table, buffer: &mut [u8]) -> CWritten
    ensures { (buffer.new ≡ buffer_after (form_one table) buffer.old) × (result ≡ written_form (written_of (form_one table) (length buffer.old))) }
{
    CWritten::from(tables::write(table, buffer))
}

#[unsafe(no_mangle)]
pub extern "C" fn channelfox_write_stored(stored: CStored, buffer: &mut [u8]) -> CWritten
    ensures { (buffer.new ≡ buffer_after (stored_table stored) buffer.old) × (result ≡ written_form (written_of (stored_table stored) (length buffer.old))) }
{
    CWritten::from(tables::write_stored(StoredTable::from(stored), buffer))
}

#[unsafe(no_mangle)]
pub extern "C" fn channelfox_convert(bytes: &[u8], from: u32, buffer: &mut [u8]) -> CWritten
    ensures { (buffer.new ≡ converted_after (form_numbered from) bytes.now buffer.old) × (result ≡ written_form (converted_of (form_numbered from) bytes.now (length buffer.old))) }
{
    CWritten::from(tables::convert(bytes, form_numbered(from), buffer))
}

// The answer takes its C form here: `CReadAnswer::from` would clear and copy a table once more.
#[unsafe(no_mangle)]
pub extern "C" fn channelfox_import(bytes: &[u8]) -> CReadAnswer
    ensures { result ≡ read_form (import_of bytes.now) }
{
    let table = match sheets::import(bytes) {
        Ok(table) => table,
        Err(refused) => {
            return CReadAnswer {
                verdict: CVerdict::from(refused),
                table: Table::empty(),
            };
        }
    };
    CReadAnswer {
        verdict: CVerdict::ACCEPTED,
        table,
    }
}

#[unsafe(no_mangle)]
pub extern "C" fn channelfox_export(table: Table, buffer: &mut [u8]) -> CWritten
    ensures { (buffer.new ≡ sheet_after table buffer.old) × (result ≡ written_form (exported_of table (length buffer.old))) }
{
    CWritten::from(sheets::export(table, buffer))
}

#[unsafe(no_mangle)]
pub extern "C" fn channelfox_plan_table(table: Table) -> CPlanAnswer
    ensures { result ≡ plan_form (plan_of table) }
{
    CPlanAnswer::from(planning::plan_table(table))
}

#[unsafe(no_mangle)]
pub extern "C" fn channelfox_plan_classic(table: Table) -> CPlanAnswer
    ensures { result ≡ plan_form (classic_of table) }
{
    CPlanAnswer::from(planning::plan_classic(table))
}

#[unsafe(no_mangle)]
pub extern "C" fn channelfox_ranked(table: Table) -> CReadAnswer
    ensures { result ≡ read_form (ranked_of table) }
{
    CReadAnswer::from(planning::ranked(table))
}

// The plan of stored bytes, or the refusal of reading or of planning.
fn plan_stored(bytes: &[u8]) -> Result<Plan, Refused>
    ensures { result ≡ plan_outcome (planned_stored (read_of bytes.now)) }
{
    planning::plan_table(tables::read(bytes)?.table)
}

#[unsafe(no_mangle)]
pub extern "C" fn channelfox_plan_stored(bytes: &[u8]) -> CPlanAnswer
    ensures { result ≡ plan_form (planned_stored (read_of bytes.now)) }
{
    CPlanAnswer::from(plan_stored(bytes))
}

// ── Runs ──

#[unsafe(no_mangle)]
pub extern "C" fn channelfox_start(table: Table, clock: u32, firsts: &[u32]) -> CRunAnswer
    ensures { result ≡ started_form (start_of table clock firsts.now) }
{
    CRunAnswer::from(running::start(table, clock, firsts))
}

#[unsafe(no_mangle)]
pub extern "C" fn channelfox_start_stored(bytes: &[u8], clock: u32) -> CRunAnswer
    ensures { result ≡ started_form (start_stored_of bytes.now clock) }
{
    CRunAnswer::from(running::start_stored(bytes, clock))
}

// What is no run state even in form stays as it came in.
#[unsafe(no_mangle)]
pub extern "C" fn channelfox_slot(run: &mut CRun, stolen: bool) -> CVerdict
    ensures { (run.new ≡ (slot_form run.old stolen).run) × (result ≡ (slot_form run.old stolen).verdict) }
{
    match Run::try_from(&*run) {
        Ok(mut taken) => {
            let stepped = running::slot_in_place(&mut taken, stolen);
            *run = CRun::from(&taken);
            CVerdict::from(stepped)
        }
        Err(refused) => CVerdict::from(refused),
    }
}

#[unsafe(no_mangle)]
pub extern "C" fn channelfox_advance(run: CRun, stolen: &[u8]) -> CRunAnswer
    ensures { result ≡ advance_form run stolen.now }
{
    match Run::try_from(&run) {
        Ok(taken) => CRunAnswer::from(running::advance(taken, stolen)),
        Err(refused) => CRunAnswer {
            verdict: CVerdict::from(refused),
            run,
        },
    }
}

// A reading of what C hands in as a run.
fn read_value(run: CRun, id: u16) -> Result<Reading, Refused>
    ensures { result ≡ value_taken run id }
{
    running::read_value(Run::try_from(&run)?, id)
}

#[unsafe(no_mangle)]
pub extern "C" fn channelfox_read_value(run: CRun, id: u16) -> CReading
    ensures { result ≡ read_value_form run id }
{
    CReading::from(read_value(run, id))
}
