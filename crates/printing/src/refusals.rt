// A refusal in words, on standard error: what is wrong, where, and what to do. Records, lines and places count from 1 here, as people count.
ghost use Rattle.std.specs.Prelude.{◌≡◌};
ghost use Rattle.printing.specs.declared.ending.Ending.TheVariants as ending;

use crate::ending::{Ending, ignored};
use crate::shortfall::plan_reason;
use diagnosis::{Cause, Row, Source};
use rules::{Refusal, Refused, Table};

// "refused N at K" with its line end.
pub fn tell(rt: &impl Print, refused: Refused) {
    ignored(println!(rt; "{refused}"));
}

// The same to standard error, for programs whose output is a file. Two functions: which stream it is, is the bound on `rt`.
pub fn complain(rt: &impl Eprint, refused: Refused) {
    ignored(eprintln!(rt; "{refused}"));
}

// A stored table that was refused, by reading or by converting.
pub fn explain_table(rt: &impl Eprint, bytes: &[u8], refused: Refused) {
    ignored(table_reason(rt, bytes, refused));
}

// A refused sheet.
pub fn explain_sheet(rt: &impl Eprint, bytes: &[u8], refused: Refused) {
    ignored(sheet_reason(rt, bytes, refused));
}

// A stored table that was refused, of a program that prints: "refused N at K" on standard output, and in words.
pub fn refuse_table(rt: &(impl Print + Eprint), bytes: &[u8], refused: Refused) -> Ending
    ensures { result ≡ ending.Refused }
{
    tell(rt, refused);
    explain_table(rt, bytes, refused);
    Ending::Refused
}

// The same of a program whose output is a file, which nothing is written to then.
pub fn refuse_file(rt: &impl Eprint, bytes: &[u8], refused: Refused) -> Ending
    ensures { result ≡ ending.Refused }
{
    complain(rt, refused);
    explain_table(rt, bytes, refused);
    Ending::Refused
}

// A table that reads and has no plan: which object has no deadline, and how far it is from fitting.
pub fn explain_plan(rt: &impl Eprint, table: Table, refused: Refused) {
    ignored(plan_reason(rt, table, refused.place));
}

// A start that was refused: there is no plan, or these first releases do not fit it.
pub fn explain_start(rt: &impl Eprint, table: Table, refused: Refused, firsts: &[u32]) {
    ignored(start_reason(rt, table, refused, firsts));
}

// A place, as people count.
pub(crate) fn counted(place: usize) -> usize {
    place.wrapping_add(1)
}

// Which record or line it is, its id, and what is wrong with its numbers.
fn row_reason(
    rt: &impl Eprint,
    source: Source,
    bytes: &[u8],
    refused: Refused,
) -> std::io::Result<()> {
    let noun = match source {
        Source::Sheet => "Line",
        Source::Stored => "Record",
    };
    let row = source.row_at(bytes, refused.place);
    let which = counted(refused.place);
    let id = row.id;
    eprint!(rt; "{noun} {which} (id {id}): ")?;
    if refused.refusal == Refusal::IdRepeated {
        let earlier = counted(source.first_with(bytes, refused.place, id));
        eprintln!(rt; "number {earlier} has this id already. Give one of the two another id.")
    } else {
        range_reason(rt, row, refused.refusal)
    }
}

// Which number of a record or of a line is out of its range, and the range.
fn range_reason(rt: &impl Eprint, row: Row, refusal: Refusal) -> std::io::Result<()> {
    let cost = row.cost;
    let validity = row.validity;
    let hold = row.hold;
    let first = row.first;
    match refusal {
        Refusal::HoldRange => {
            eprintln!(rt;
                "its hold is {hold}, and a hold is from 1 to the cost, here {cost}, and at most 65536. Change it."
            )
        }
        Refusal::CostRange => {
            eprintln!(rt; "its cost is {cost}, and a cost is from 1 to 1000000. Change it.")
        }
        Refusal::ValidityRange => {
            eprintln!(rt;
                "its validity is {validity}, and a validity is from 2 to 1000000. Change it."
            )
        }
        Refusal::FirstUsed => {
            eprintln!(rt;
                "its first release is {first}, and form one has no place for it. Set it to 0, or keep form two."
            )
        }
        other => other_reason(rt, other),
    }
}

// What is wrong with a stored table.
fn table_reason(rt: &impl Eprint, bytes: &[u8], refused: Refused) -> std::io::Result<()> {
    match refused.refusal {
        Refusal::HoldRange
        | Refusal::CostRange
        | Refusal::ValidityRange
        | Refusal::IdRepeated
        | Refusal::FirstUsed => row_reason(rt, Source::Stored, bytes, refused),
        other => bytes_reason(rt, bytes, other),
    }
}

// What is wrong with the bytes of a stored table as a whole, or with its trailer.
fn bytes_reason(rt: &impl Eprint, bytes: &[u8], refusal: Refusal) -> std::io::Result<()> {
    let size = bytes.len();
    let count = diagnosis::object_count(bytes);
    let distance = diagnosis::distance(bytes);
    match refusal {
        Refusal::TooShort => {
            eprintln!(rt;
                "There are {size} bytes, and a stored table has 8 at least: the file is empty or was cut off. Take it from where it was made."
            )
        }
        Refusal::TooLong => {
            eprintln!(rt;
                "There are more than 4096 bytes, the most that a stored table may have. Is it the right file?"
            )
        }
        Refusal::WrongMark => {
            eprintln!(rt;
                "The last two bytes are neither mark of a stored table, ML of form one or M2 of form two: the end was cut off, or it is another kind of file. A sheet has to go through import first."
            )
        }
        Refusal::CountRange => {
            eprintln!(rt;
                "The trailer counts {count} objects, and a table has 1 to 64. Write the table again with the right count."
            )
        }
        Refusal::DistanceSmall => {
            let record = diagnosis::record_size(bytes);
            let needed = diagnosis::needed(bytes);
            eprintln!(rt;
                "The trailer says that the records begin {distance} bytes before the end; for the count {count} and records of {record} bytes each, as the mark has them, at least {needed} are needed. Write the table again, or give it the mark of its form: ML for records of 12 bytes, M2 for 16."
            )
        }
        Refusal::DistanceLarge => {
            eprintln!(rt;
                "The trailer says that the records begin {distance} bytes before the end, and there are {size} bytes: the beginning of the file is missing. Take it from where it was made."
            )
        }
        other => other_reason(rt, other),
    }
}

// What needs no number to be said.
fn other_reason(rt: &impl Eprint, refusal: Refusal) -> std::io::Result<()> {
    match refusal {
        Refusal::NotRunState => {
            eprintln!(rt; "What was handed in is not the state of a run. Start the run again.")
        }
        Refusal::NoSuchId => eprintln!(rt; "No object has that id."),
        Refusal::BufferSmall => {
            eprintln!(rt; "The buffer is too small for what is to be written. Lend a larger one.")
        }
        Refusal::LineForm => {
            eprintln!(rt; "A line of the sheet is not of the form id,cost,validity,hold.")
        }
        _ => Ok(()),
    }
}

// What is wrong with a sheet.
fn sheet_reason(rt: &impl Eprint, bytes: &[u8], refused: Refused) -> std::io::Result<()> {
    match refused.refusal {
        Refusal::TooLong => {
            eprintln!(rt;
                "There are more than 4096 bytes, the most that a sheet may have. Take out what is not needed."
            )
        }
        Refusal::CountRange => {
            let lines = diagnosis::line_count(bytes);
            eprintln!(rt;
                "The sheet has {lines} lines, and a table has 1 to 64 objects, a line each. Split it, or fill it in."
            )
        }
        Refusal::LineForm => {
            let which = counted(refused.place);
            let cause = words(diagnosis::fault(bytes, refused.place));
            eprintln!(rt; "Line {which} of the sheet {cause}")
        }
        _ => row_reason(rt, Source::Sheet, bytes, refused),
    }
}

// Why a line is not taken.
fn words(cause: Cause) -> &'static str {
    match cause {
        Cause::Mark => {
            "begins with a byte order mark. Save the sheet as plain text, UTF-8 without BOM."
        }
        Cause::OtherText => {
            "has letters or other signs, as a header has, and only whole numbers are taken. Take the line or the signs out."
        }
        Cause::Quotes => "has quotes. Save the sheet without quotes.",
        Cause::Separators => {
            "has semicolons or tabs. Save the sheet with commas between the fields."
        }
        Cause::Blanks => "has spaces. Take them out.",
        Cause::Sign => {
            "has a point or a sign, and only whole numbers are taken. Write the number without it."
        }
        Cause::Empty => "is empty. Take it out.",
        Cause::NoEnd => "has no line end. End the last line with CR LF as well.",
        Cause::NoReturn => {
            "ends in LF alone. Save the sheet with CR LF at the line ends, as DOS and Windows have them."
        }
        Cause::ReturnWithin => {
            "has a CR that is not at its end. Save the sheet with CR LF at the line ends, as DOS and Windows have them."
        }
        Cause::FewFields => {
            "has too few fields: a line is id,cost,validity,hold. Add what is missing."
        }
        Cause::NoHold => {
            "has three fields: the hold is missing. Add it as the fourth, 1 if the object's jobs may be set aside after any slot."
        }
        Cause::ManyFields => {
            "has too many fields: a line is id,cost,validity,hold. Take the others out."
        }
        Cause::EmptyField => "has an empty field: a line is id,cost,validity,hold. Fill it in.",
        Cause::LeadingZero => "has a number with a leading zero. Take the zero out.",
        Cause::LargeNumber => {
            "has a number that is too large: an id is at most 65535, another number at most 4294967295. Lower it."
        }
    }
}

// What is wrong with a start.
fn start_reason(
    rt: &impl Eprint,
    table: Table,
    refused: Refused,
    firsts: &[u32],
) -> std::io::Result<()> {
    match refused.refusal {
        Refusal::NoDeadline => plan_reason(rt, table, refused.place),
        Refusal::FirstsCount => {
            let given = firsts.len();
            let objects = table.count;
            eprintln!(rt;
                "There are {given} first releases and {objects} objects. Give one for each object in priority order, separated by commas, or a single 0 for all."
            )
        }
        _ => late_reason(rt, table, refused.place, firsts),
    }
}

// The object at a place in priority order has a first release that is too late.
fn late_reason(
    rt: &impl Eprint,
    table: Table,
    place: usize,
    firsts: &[u32],
) -> std::io::Result<()> {
    let Ok(plan) = planning::plan_table(table) else {
        return Ok(());
    };
    let Some(row) = plan.used().get(place) else {
        return Ok(());
    };
    let id = row.id;
    let period = row.period;
    let which = counted(place);
    let first = firsts.get(place).copied().unwrap_or(0);
    eprintln!(rt;
        "The first release of the object with id {id}, number {which} in priority order, is {first}, and must be below its period, {period}. Lower it."
    )
}
