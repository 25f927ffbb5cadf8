// Both doors, the choice and the ways back: stored bytes of either form to a table, lent rows to a table, the records part of the
// site or the factory table, a table to stored bytes, and stored bytes of one form to those of the other.
// Any bytes and any rows may be handed in; what is bad is refused with the number and the place of document 01. The second door
// stands here, the others in files of their own.
#![tactic(auto)]

mod choosing;
mod converting;
mod forms;
mod numbers;
mod reading;
mod trailer;
mod writing;

ghost use Rattle.std.specs.Prelude.{◌≡◌};
ghost use Rattle.rules.specs.Answers.{read_outcome};
ghost use Rattle.rules.specs.StoredTable.{door_of};
ghost use Rattle.tables.specs.Copied.{copied_of};

pub use choosing::{choose, chosen_part};
pub use converting::convert;
pub use reading::read;
use rules::{ObjectRow, ROWS, Refused, Table};
pub use writing::{write, write_stored};

// The lent list copied into a table's array: its length is the count, also where that is above 64.
fn copy_rows(list: &[ObjectRow]) -> Table
    ensures { result ≡ copied_of list.now }
{
    let mut rows = [ObjectRow::empty(); ROWS];
    let copied = list.len().min(ROWS);
    rows[..copied].copy_from_slice(&list[..copied]);
    Table {
        count: list.len(),
        rows,
    }
}

// The second door: a lent list of object rows as a table, or the refusal. The list is never changed.
pub fn read_rows(rows: &[ObjectRow]) -> Result<Table, Refused>
    ensures { result ≡ read_outcome (door_of rows.now) }
{
    rules::check_answer(copy_rows(rows))
}
