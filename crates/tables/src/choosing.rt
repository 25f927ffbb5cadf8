// The choice between the site table and the factory table.
ghost use Rattle.std.specs.Prelude.{◌≡◌};
ghost use Rattle.rules.specs.Answers.{outcome};
ghost use Rattle.rules.specs.StoredTable.{read_verdict, records_part, chosen_part, Chosen};

use super::forms::records_size;
use super::reading::read;
use super::trailer::read_trailer;
use rules::{Part, Refused};

// Where the records part of bytes lies, and its form, where they read without refusal.
fn records_part(bytes: &[u8], site: bool) -> Result<Part, Refused>
    ensures { result ≡ outcome (read_verdict bytes.now) (records_part bytes.now site) }
{
    read(bytes)?;
    let records = read_trailer(bytes)?;
    Ok(Part {
        site,
        form: Some(records.form),
        start: records.start,
        size: records_size(records.form, records.count),
    })
}

// The choice, as a place: of the site bytes or of the factory bytes, of which form, where it begins, and how many bytes it has.
pub fn chosen_part(site: &[u8], factory: &[u8]) -> Part
    ensures { result ≡ chosen_part site.now factory.now }
{
    // A part too, and no option: document 01 has the empty part at the start of the factory bytes.
    let nothing = Part {
        site: false,
        form: None,
        start: 0,
        size: 0,
    };
    records_part(site, true)
        .or_else(|_| records_part(factory, false))
        .unwrap_or(nothing)
}

// The choice: the records part of the site table if that reads, otherwise of the factory table if that one does, otherwise the
// empty part at the start of the factory bytes. It is that part of the lent bytes, and no copy.
pub fn choose<'a>(site: &'a [u8], factory: &'a [u8]) -> &'a [u8]
    ensures { Chosen result site.entry factory.entry }
{
    let part = chosen_part(site, factory);
    let bytes = if part.site { site } else { factory };
    &bytes[part.start..part.start + part.size]
}
