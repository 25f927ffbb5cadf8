// Stored bytes of one form to those of the other: read, and written again.
ghost use Rattle.std.specs.Prelude.{◌≡◌, length};
ghost use Rattle.rules.specs.Answers.{checked, written_outcome};
ghost use Rattle.rules.specs.Converting.{other_form, same_form, converted_of, converted_after};
ghost use Rattle.tables.specs.Converted.{from_verdict};

use super::reading::read;
use super::trailer::{check_size, form_of};
use super::writing::write_stored;
use rules::{Form, Refusal, Refused, StoredTable};

// The form converted to.
fn other_form(form: Option<Form>) -> Option<Form>
    ensures { result ≡ other_form form }
{
    form.map(|form| match form {
        Form::One => Form::Two,
        Form::Two => Form::One,
    })
}

// Whether both are the same of the two forms; no form is the same as none.
fn same_form(a: Option<Form>, b: Option<Form>) -> bool
    ensures { result ≡ same_form a b }
{
    a.is_some() && a == b
}

// Checks 1 and 2, then 3 for the form converted from.
fn check_from(bytes: &[u8], from: Option<Form>) -> Result<(), Refused>
    ensures { result ≡ checked (from_verdict from bytes.now) }
{
    check_size(bytes)?;
    if !same_form(from, form_of(bytes)) {
        return Err(Refusal::WrongMark.at(0));
    }
    Ok(())
}

// The bytes, which are of the form `from`, in the other form at the start of the buffer: how many bytes they are then, or the refusal,
// and the buffer is untouched.
pub fn convert(bytes: &[u8], from: Option<Form>, buffer: &mut [u8]) -> Result<usize, Refused>
    ensures buffer { buffer.new ≡ converted_after from bytes.now buffer.old }
    ensures told { result ≡ written_outcome (converted_of from bytes.now (length buffer.old)) }
{
    check_from(bytes, from)?;
    let stored = read(bytes)?;
    let converted = StoredTable {
        form: other_form(from),
        ..stored
    };
    write_stored(converted, buffer)
}
