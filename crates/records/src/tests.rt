// What the reader makes of texts: within the limits and past them, in one part and in two.
use crate::fault::Fault;
use crate::reader::{Event, Reader};

// What an event comes to: how many fields the record that ended has, 0 if none ended, or the fault.
fn outcome(reader: &Reader, event: Result<Event, Fault>) -> Result<usize, Fault> {
    match event? {
        Event::More => Ok(0),
        Event::Record => Ok(reader.fields().count()),
    }
}

// Reads the first record of a text that is given in two parts.
fn read_first(reader: &mut Reader, part: &[u8], next: &[u8]) -> Result<Event, Fault> {
    for text in [part, next] {
        if reader.read(text).event? == Event::Record {
            return Ok(Event::Record);
        }
    }
    reader.finish()
}

// How many fields the first record of a text has, 0 if there is none, or the text's fault.
fn first(text: &[u8]) -> Result<usize, Fault> {
    let mut reader = Reader::new();
    let event = read_first(&mut reader, text, b"");
    outcome(&reader, event)
}

// Whether a reader holds a field at a place.
fn holds(reader: &Reader, place: usize, bytes: &[u8]) -> bool {
    reader.fields().field(place) == Some(bytes)
}

#[test]
fn keeps_the_limits(rt: HostRuntime) {
    assert_eq!(rt; first(&[b','; 39]), Ok(40));
    assert_eq!(rt; first(&[b','; 40]), Err(Fault::TooLong));
    assert_eq!(rt; first(&[b'"'; 1024]), Ok(1));
    assert_eq!(rt; first(&[b'"'; 1025]), Err(Fault::TooLong));
    let mut text = [b'x'; 1026];
    assert_eq!(rt; first(&text), Err(Fault::TooLong));
    text[1024] = b',';
    assert_eq!(rt; first(&text), Err(Fault::TooLong));
    text[1024] = b'\t';
    assert_eq!(rt; first(&text), Err(Fault::BadText));
    text[1024] = b'\r';
    assert_eq!(rt; first(&text), Err(Fault::BadText));
    text[1025] = b'\n';
    assert_eq!(rt; first(&text), Ok(1));
    text[0] = b'"';
    assert_eq!(rt; first(&text), Err(Fault::TooLong));
}

#[test]
fn refuses_bad_text(rt: HostRuntime) {
    let bad: [&[u8]; 12] = [
        b"a\tb",
        b"\x7f",
        b"a\x80",
        b"a\rb",
        b"a\nb",
        b"a\r",
        b"\"a\"b",
        b"\"a\"\n",
        b"a\"b",
        b"\"a",
        b"\"\x1f\"",
        b"\"\xff\"",
    ];
    for text in bad {
        assert_eq!(rt; first(text), Err(Fault::BadText));
    }
    let mut reader = Reader::new();
    assert_eq!(rt; reader.read(b"a,b\"\r\nc\r\n").used, 3);
    let again = reader.read(b"c\r\n");
    assert_eq!(rt; again.used, 0);
    assert_eq!(rt; outcome(&reader, again.event), Err(Fault::BadText));
    let end = reader.finish();
    assert_eq!(rt; outcome(&reader, end), Err(Fault::BadText));
}

#[test]
fn reads_empty_texts_and_fields(rt: HostRuntime) {
    assert_eq!(rt; first(b""), Ok(0));
    assert_eq!(rt; first(b"\r\n"), Ok(1));
    assert_eq!(rt; first(b"\"\""), Ok(1));
    assert_eq!(rt; first(b","), Ok(2));
    let mut reader = Reader::new();
    assert_eq!(rt; reader.read(b"\r\na").used, 2);
    assert!(rt; holds(&reader, 0, b""));
    assert!(rt; !holds(&reader, 1, b""));
}

#[test]
fn reads_the_same_in_two_parts(rt: HostRuntime) {
    let text = b"a,\"b,\"\"\r\n\",\"\",c";
    // `k` is where the text is cut
    for k in 0..text.len() {
        let mut reader = Reader::new();
        let event = read_first(&mut reader, &text[0..k], &text[k..text.len()]);
        assert_eq!(rt; outcome(&reader, event), Ok(4));
        assert!(rt; holds(&reader, 0, b"a"));
        assert!(rt; holds(&reader, 1, b"b,\"\r\n"));
        assert!(rt; holds(&reader, 2, b""));
        assert!(rt; holds(&reader, 3, b"c"));
    }
}

#[test]
fn leaves_what_follows_a_record(rt: HostRuntime) {
    let mut reader = Reader::new();
    assert_eq!(rt; reader.read(b"ab").used, 2);
    assert_eq!(rt; reader.read(b"c,d\r\ne\"\tf").used, 5);
    assert!(rt; holds(&reader, 0, b"abc"));
    assert_eq!(rt; reader.read(b"e").used, 1);
    let last = reader.finish();
    assert_eq!(rt; outcome(&reader, last), Ok(1));
    assert!(rt; holds(&reader, 0, b"e"));
    let end = reader.finish();
    assert_eq!(rt; outcome(&reader, end), Ok(0));
}
