// Document 01's numbers for the stored table and the choice, and request 7's form two of it.
use crate::failed::Failed;
use rules::Form;

// One stored table: what it is, the answer, and how many rows came back.
fn read_case(rt: &impl Print, title: &str, bytes: &[u8]) -> Result<(), Failed> {
    let read = tables::read(bytes);
    print!(rt; "{title}: ")?;
    match read {
        Ok(_) => print!(rt; "accepted")?,
        Err(refused) => print!(rt; "{refused}")?,
    }
    println!(rt; ", rows {}", read.map_or(0, |stored| stored.table.count))?;
    Ok(())
}

// One choice: how many bytes it holds, and the first of them.
fn choice_case<'a>(
    rt: &impl Print,
    title: &str,
    site: &'a [u8],
    factory: &'a [u8],
) -> Result<(), Failed> {
    let part = tables::choose(site, factory);
    print!(rt; "{title}: {} bytes", part.len())?;
    if let Some(first) = part.first() {
        print!(rt; " from {first}")?;
    }
    println!(rt; "")?;
    Ok(())
}

// The bytes there are: checks 1 to 3.
fn lengths(rt: &impl Print) -> Result<(), Failed> {
    read_case(rt, "no bytes", &[])?;
    read_case(rt, "7 bytes", &[0u8; 7])?;
    read_case(rt, "8 zero bytes", &[0u8; 8])?;
    read_case(rt, "4096 zero bytes", &[0u8; 4096])?;
    read_case(rt, "4097 zero bytes", &[0u8; 4097])
}

// A trailer alone, with this count: its low and its high byte.
fn trailer(low: u8, high: u8) -> [u8; 8] {
    [8, 0, 0, 0, low, high, b'M', b'L']
}

// Check 4.
fn counts(rt: &impl Print) -> Result<(), Failed> {
    read_case(rt, "count 0", &trailer(0, 0))?;
    read_case(rt, "count 65", &trailer(65, 0))?;
    read_case(rt, "count 65535", &trailer(255, 255))
}

// The record (1, 1, 4) and a trailer with this distance: its first byte and the three others.
fn one_record(first: u8, others: u8) -> [u8; 20] {
    [
        1, 0, 0, 0, 1, 0, 0, 0, 4, 0, 0, 0, first, others, others, others, 1, 0, b'M', b'L',
    ]
}

// The same with two bytes before the record and one behind it.
fn with_gaps() -> [u8; 23] {
    [
        9, 9, 1, 0, 0, 0, 1, 0, 0, 0, 4, 0, 0, 0, 9, 21, 0, 0, 0, 1, 0, b'M', b'L',
    ]
}

// Checks 5 and 15.
fn distances(rt: &impl Print) -> Result<(), Failed> {
    read_case(rt, "one record and distance 19", &one_record(19, 0))?;
    read_case(rt, "distance 20 in 20 bytes", &one_record(20, 0))?;
    read_case(rt, "distance 21 in 20 bytes", &one_record(21, 0))?;
    read_case(rt, "distance 4294967295", &one_record(255, 255))?;
    read_case(
        rt,
        "a gap before the record and one behind it",
        &with_gaps(),
    )
}

// The records (1, 1, 4), (2, 1, 4) and a trailer.
fn two_records() -> [u8; 32] {
    [
        1, 0, 0, 0, 1, 0, 0, 0, 4, 0, 0, 0, 2, 0, 0, 0, 1, 0, 0, 0, 4, 0, 0, 0, 32, 0, 0, 0, 2, 0,
        b'M', b'L',
    ]
}

// Check 6 at the second record, ahead of 8 and behind 7; and the largest hold. The spare field has the hold less one.
fn holds(rt: &impl Print) -> Result<(), Failed> {
    let mut hold = two_records();
    hold[14] = 1;
    hold[20] = 1;
    read_case(rt, "hold 2 and cost 1 in the second record", &hold)?;
    hold[16] = 0;
    read_case(rt, "hold 2 and cost 0 in the second record", &hold)?;
    let mut large = one_record(20, 0);
    large[2] = 255;
    large[3] = 255;
    large[4] = 0;
    large[6] = 1;
    large[8] = 0;
    large[10] = 2;
    read_case(rt, "hold 65536", &large)
}

// Checks 7 and 8, each at the second record, and with what would be refused later there as well.
fn records(rt: &impl Print) -> Result<(), Failed> {
    let mut cost = two_records();
    cost[16] = 0;
    cost[20] = 1;
    read_case(rt, "cost 0 in the second record", &cost)?;
    cost[16] = 0x41;
    cost[17] = 0x42;
    cost[18] = 0x0F;
    cost[20] = 4;
    read_case(rt, "cost 1000001 in the second record", &cost)?;
    let mut validity = two_records();
    validity[12] = 1;
    validity[20] = 1;
    read_case(rt, "validity 1 in the second record", &validity)
}

// Check 9: the records (1, 1, 4), (2, 1, 4), (1, 1, 4).
fn repeated(rt: &impl Print) -> Result<(), Failed> {
    let bytes = [
        1, 0, 0, 0, 1, 0, 0, 0, 4, 0, 0, 0, 2, 0, 0, 0, 1, 0, 0, 0, 4, 0, 0, 0, 1, 0, 0, 0, 1, 0,
        0, 0, 4, 0, 0, 0, 44, 0, 0, 0, 3, 0, b'M', b'L',
    ];
    read_case(rt, "equal ids in the first and the third record", &bytes)
}

// The record (7, 1, 4) behind a byte that is not read.
fn other_record() -> [u8; 21] {
    [
        9, 7, 0, 0, 0, 1, 0, 0, 0, 4, 0, 0, 0, 20, 0, 0, 0, 1, 0, b'M', b'L',
    ]
}

// The choice: both tables read, only one of them, none.
fn choices(rt: &impl Print) -> Result<(), Failed> {
    let good = one_record(20, 0);
    let other = other_record();
    let mut bad = one_record(20, 0);
    bad[3] = 1;
    choice_case(rt, "site and factory read", &good, &other)?;
    choice_case(rt, "only the factory reads", &bad, &other)?;
    choice_case(rt, "only the site reads", &other, &bad)?;
    choice_case(rt, "none reads", &bad, &[0u8; 7])
}

// The record (1, 1, 4) of form two with first release 2, and its trailer.
fn one_of_two() -> [u8; 24] {
    [
        1, 0, 0, 0, 1, 0, 0, 0, 4, 0, 0, 0, 2, 0, 0, 0, 24, 0, 0, 0, 1, 0, b'M', b'2',
    ]
}

// One conversion: how many bytes it gives, or the refusal.
fn convert_case(rt: &impl Print, title: &str, bytes: &[u8], from: Form) -> Result<(), Failed> {
    match tables::convert(bytes, Some(from), &mut [0u8; 24]) {
        Ok(size) => println!(rt; "{title}: {size} bytes")?,
        Err(refused) => println!(rt; "{title}: {refused}")?,
    }
    Ok(())
}

// Form two: read, chosen and converted; and form one under its mark.
fn forms(rt: &impl Print) -> Result<(), Failed> {
    let one = one_record(20, 0);
    let two = one_of_two();
    let mut mixed = one_record(20, 0);
    mixed[19] = b'2';
    read_case(rt, "form two, one record and distance 24", &two)?;
    read_case(
        rt,
        "a record of form one under the mark of form two",
        &mixed,
    )?;
    choice_case(rt, "the site table in form two", &two, &one)?;
    convert_case(rt, "form one to form two", &one, Form::One)?;
    convert_case(rt, "form two to form one, first release 2", &two, Form::Two)?;
    convert_case(rt, "form two converted as form one", &two, Form::One)
}

pub(crate) fn cases(rt: &impl Print) -> Result<(), Failed> {
    lengths(rt)?;
    counts(rt)?;
    distances(rt)?;
    holds(rt)?;
    records(rt)?;
    repeated(rt)?;
    choices(rt)?;
    forms(rt)
}
