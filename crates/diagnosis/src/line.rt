// Which of the usual causes keeps a line of a sheet from being taken.
use super::sheet::line_at;

// What a byte is to a line.
#[derive(Clone, Copy, Debug, PartialEq, Eq)]
enum Kind {
    Digit,
    Comma,
    Quote,
    Separator,
    Blank,
    Sign,
    Return,
    Other,
}

impl From<u8> for Kind {
    fn from(byte: u8) -> Kind {
        match byte {
            b'0'..=b'9' => Kind::Digit,
            b',' => Kind::Comma,
            b'"' | b'\'' => Kind::Quote,
            b';' | b'\t' => Kind::Separator,
            b' ' => Kind::Blank,
            b'.' | b'+' | b'-' => Kind::Sign,
            b'\r' => Kind::Return,
            _ => Kind::Other,
        }
    }
}

// What keeps a line from being taken.
#[derive(Clone, Copy, Debug, PartialEq, Eq)]
pub enum Cause {
    // A byte order mark ahead of the first line.
    Mark,
    // Letters or other signs.
    OtherText,
    Quotes,
    // Semicolons or tabs in place of commas.
    Separators,
    Blanks,
    // A point or the sign of a number.
    Sign,
    Empty,
    NoEnd,
    // LF alone at the end.
    NoReturn,
    // CR that is not at the end.
    ReturnWithin,
    FewFields,
    // Three of them, as before there were holds.
    NoHold,
    ManyFields,
    EmptyField,
    LeadingZero,
    LargeNumber,
}

// How many bytes of a kind there are.
fn count_of(content: &[u8], kind: Kind) -> usize {
    content
        .iter()
        .filter(|byte| Kind::from(**byte) == kind)
        .count()
}

fn has(content: &[u8], kind: Kind) -> bool {
    content.iter().any(|byte| Kind::from(*byte) == kind)
}

// Whether the bytes begin with a byte order mark, of UTF-8 or of UTF-16.
fn has_mark(bytes: &[u8]) -> bool {
    matches!(
        bytes,
        [0xEF, 0xBB, 0xBF, ..] | [0xFF, 0xFE, _, ..] | [0xFE, 0xFF, _, ..]
    )
}

// The cause that lies in single bytes. Other text goes first: a header has quotes or semicolons of its own.
fn byte_fault(content: &[u8]) -> Option<Cause> {
    if has(content, Kind::Other) {
        Some(Cause::OtherText)
    } else if has(content, Kind::Quote) {
        Some(Cause::Quotes)
    } else if has(content, Kind::Separator) {
        Some(Cause::Separators)
    } else if has(content, Kind::Blank) {
        Some(Cause::Blanks)
    } else if has(content, Kind::Sign) {
        Some(Cause::Sign)
    } else if !has(content, Kind::Digit) && !has(content, Kind::Comma) {
        Some(Cause::Empty)
    } else {
        None
    }
}

// The cause that lies in the end of the line, CR LF.
fn end_fault(content: &[u8], ended: bool) -> Option<Cause> {
    let returns = count_of(content, Kind::Return);
    if !ended {
        Some(Cause::NoEnd)
    } else if returns == 0 {
        Some(Cause::NoReturn)
    } else if 1 < returns || !content.ends_with(b"\r") {
        Some(Cause::ReturnWithin)
    } else {
        None
    }
}

// Whether a field has a digit behind a first one that is zero.
fn leads_with_zero(field: &[u8]) -> bool {
    matches!(field, [b'0', b'0'..=b'9', ..])
}

// The cause that lies in the fields. What is left, where the line was refused, is a number too large.
fn field_fault(content: &[u8]) -> Cause {
    match count_of(content, Kind::Comma) {
        0 | 1 => return Cause::FewFields,
        2 => return Cause::NoHold,
        3 => {}
        _ => return Cause::ManyFields,
    }
    let is_comma = |byte: &u8| *byte == b',';
    if content
        .split(is_comma)
        .any(|field| !has(field, Kind::Digit))
    {
        Cause::EmptyField
    } else if content.split(is_comma).any(leads_with_zero) {
        Cause::LeadingZero
    } else {
        Cause::LargeNumber
    }
}

// The cause that keeps a line from being taken.
pub fn fault(bytes: &[u8], line: usize) -> Cause {
    if line == 0 && has_mark(bytes) {
        return Cause::Mark;
    }
    let whole = line_at(bytes, line);
    let content = whole.strip_suffix(b"\n").unwrap_or(whole);
    let ended = content.len() < whole.len();
    byte_fault(content)
        .or_else(|| end_fault(content, ended))
        .unwrap_or_else(|| field_fault(content))
}
