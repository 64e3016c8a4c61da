// Writes one record into a caller's buffer.
ghost use Rattle.std.specs.Prelude.{◌≡◌, ◌+◌, ◌≤◌, [], ◌∷◌, length};
ghost use Rattle.records.specs.Buffers.{Put, line_measured, measured};
ghost use Rattle.std.specs.List.{list_all};
ghost use Rattle.records.specs.Grammar.{doubled, in_quotes, plain_byte, text_byte};
ghost use Rattle.records.specs.Writing.{Wrote, bytes_of, comma_spelled, spelled, whole};

use super::bytes;
use super::limits::{MAX_BYTES, MAX_FIELDS};

// What is counted of a line that is longer than a record may be.
const PAST_LIMIT: usize = MAX_BYTES + 1;

/// Why a record cannot be written; the first that applies, in this order, is given.
#[derive(Clone, Copy, PartialEq, Eq, Debug)]
pub enum Unwritable {
    /// There is no field.
    NoField,
    /// A byte of a field is no text.
    NotText,
    /// The record would have more than 40 fields or more than 1,024 bytes.
    TooLong,
    /// The buffer is too short.
    NoRoom,
}

// Whether a field may be written without quotes.
// This function and the next are the library's `all`, each with its own test; in a function of its own the check proves it alone.
fn is_plain(field: &[u8]) -> bool
    ensures { result ≡ list_all plain_byte field.now }
{
    field.iter().all(|b| bytes::is_plain(*b))
}

// Whether a field is text.
fn is_text(field: &[u8]) -> bool
    ensures { result ≡ list_all text_byte field.now }
{
    field.iter().all(|b| bytes::is_text(*b))
}

// How many bytes a field takes in quotes: two for each double quote in it and one for each other byte, between the two that enclose it.
fn quoted_len(field: &[u8]) -> usize
    requires { length field.now ≤ 1024 }
    ensures { result ≡ length (in_quotes field.now) }
{
    let mut len = 2;
    for b in field {
        len += if *b == b'"' { 2 } else { 1 };
    }
    len
}

// How many bytes a field takes as it is written, counted no further than one past the limit, or `None` if it is no text.
// One walk over the bytes of a plain field says both.
fn spelled_len(field: &[u8]) -> Option<usize>
    ensures { result ≡ measured field.now }
{
    if field.len() > MAX_BYTES {
        return is_text(field).then_some(PAST_LIMIT);
    }
    if is_plain(field) {
        return Some(field.len());
    }
    if !is_text(field) {
        return None;
    }
    Some(quoted_len(field).min(PAST_LIMIT))
}

// How many bytes the line of a record of a first field and the others takes, counted no further than one past the limit, or `None` if a field is no text.
fn line_len(first: &[u8], rest: &[&[u8]]) -> Option<usize>
    ensures { result ≡ line_measured (first.now ∷ bytes_of rest.now) }
{
    let mut len = spelled_len(first)?;
    for field in rest {
        len = (len + 1 + spelled_len(field)?).min(PAST_LIMIT);
    }
    Some(len)
}

// Writes bytes from a place on, and gives the place after them.
fn put(out: &mut [u8], place: usize, bytes: &[u8]) -> usize
    requires { place + length bytes.now ≤ length out.old }
    ensures { Put out.old place bytes.now result out.new }
{
    let next = place + bytes.len();
    out[place..next].copy_from_slice(bytes);
    next
}

// Writes a byte that stands between quotes.
fn put_doubled(out: &mut [u8], place: usize, byte: u8) -> usize
    requires { place + length (doubled (byte ∷ [])) ≤ length out.old }
    ensures { Put out.old place (doubled (byte ∷ [])) result out.new }
{
    match byte {
        b'"' => put(out, place, b"\"\""),
        _ => put(out, place, &[byte]),
    }
}

// Writes a field in quotes.
fn put_quoted(out: &mut [u8], place: usize, field: &[u8]) -> usize
    requires { place + length (in_quotes field.now) ≤ length out.old }
    ensures { Put out.old place (in_quotes field.now) result out.new }
{
    let mut next = put(out, place, b"\"");
    for b in field {
        next = put_doubled(out, next, *b);
    }
    put(out, next, b"\"")
}

// Writes a field, in quotes only where it must be.
fn put_field(out: &mut [u8], place: usize, field: &[u8]) -> usize
    requires { place + length (spelled field.now) ≤ length out.old }
    ensures { Put out.old place (spelled field.now) result out.new }
{
    if is_plain(field) {
        put(out, place, field)
    } else {
        put_quoted(out, place, field)
    }
}

// Writes a field after another one.
fn put_next(out: &mut [u8], place: usize, field: &[u8]) -> usize
    requires { place + length (comma_spelled field.now) ≤ length out.old }
    ensures { Put out.old place (comma_spelled field.now) result out.new }
{
    let next = put(out, place, b",");
    put_field(out, next, field)
}

// Writes the line of a record of a first field and the others, and the CRLF after it.
fn put_record(out: &mut [u8], first: &[u8], rest: &[&[u8]]) -> usize
    requires { length (whole (first.now ∷ bytes_of rest.now)) ≤ length out.old }
    ensures { Put out.old 0 (whole (first.now ∷ bytes_of rest.now)) result out.new }
{
    let mut next = put_field(out, 0, first);
    for field in rest {
        next = put_next(out, next, field);
    }
    put(out, next, b"\r\n")
}

/// Writes one record with its CRLF at the start of `out`, and gives how many bytes that took.
// Its line is measured first, so that a refusal leaves `out` alone, and then written where it is to stand: put together in a buffer of its own, a short line took up to three times as long.
pub fn write_record(fields: &[&[u8]], out: &mut [u8]) -> Result<usize, Unwritable>
    ensures { Wrote (bytes_of fields.now) out.old result out.new }
{
    let (first, rest) = fields.split_first().ok_or(Unwritable::NoField)?;
    let len = line_len(first, rest).ok_or(Unwritable::NotText)?;
    if fields.len() > MAX_FIELDS || len > MAX_BYTES {
        return Err(Unwritable::TooLong);
    }
    if out.len() < len + 2 {
        return Err(Unwritable::NoRoom);
    }
    Ok(put_record(out, first, rest))
}

#[cfg(test)]
mod tests {
    use super::*;

    #[test]
    fn quotes_only_where_it_must(rt: HostRuntime) {
        let fields: [&[u8]; 4] = [b"a", b"b,c", b"d\"e", b""];
        let mut out = [0; 17];
        assert_eq!(rt; write_record(&fields, &mut out), Ok(17));
        assert!(rt; out == *b"a,\"b,c\",\"d\"\"e\",\r\n");
    }

    #[test]
    fn refusals_leave_the_buffer(rt: HostRuntime) {
        let bell: [&[u8]; 2] = [b"a", b"\x07"];
        let long: [&[u8]; 1] = [b"abc"];
        let many: [&[u8]; 41] = [b""; 41];
        let mut out = [7; 4];
        assert_eq!(rt; write_record(&[], &mut out), Err(Unwritable::NoField));
        assert_eq!(rt; write_record(&bell, &mut out), Err(Unwritable::NotText));
        assert_eq!(rt; write_record(&many, &mut out), Err(Unwritable::TooLong));
        assert_eq!(rt; write_record(&long, &mut out), Err(Unwritable::NoRoom));
        assert!(rt; out == [7; 4]);
    }
}
