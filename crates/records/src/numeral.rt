// Reads the number in a field, and writes a number as a field.
ghost use Rattle.std.specs.Prelude.{◌≡◌, ◌≤◌, true, length, drop, if◌then◌else◌, Some, None};
ghost use Rattle.std.specs.List.{list_all};
ghost use Rattle.records.specs.Grammar.{plain_byte};
ghost use Rattle.records.specs.Numbers.{all_digits, value_of, number_in, Writes};

use itoa::write_digits;

// The most digits that a number in a field may have.
const MOST_DIGITS: usize = 15;

// The most bytes that the numeral of a number has.
const LONGEST: usize = 20;

/// The number that a field holds, if it holds one.
pub fn number(field: &[u8]) -> Option<u64>
    ensures { result ≡ number_in field.now }
{
    if field.is_empty() || field.len() > MOST_DIGITS {
        return None;
    }
    value(field)
}

// What a field of digits alone is worth.
fn value(field: &[u8]) -> Option<u64>
    requires { length field.now ≤ 15 }
    ensures { result ≡ (if all_digits field.now then Some (value_of field.now) else None) }
{
    let mut worth = 0;
    for b in field {
        let digit = char::from(*b).to_digit(10)?;
        worth = worth * 10 + u64::from(digit);
    }
    Some(worth)
}

/// The numeral of a number, in a place of its own.
// It stands at the end of the place, since it is written from its last digit to its first.
#[derive(Clone, Copy)]
pub struct Decimal {
    bytes: [u8; LONGEST],
    start: usize,
    ghost within: { start ≤ 20 },
    ghost few: { length (drop start bytes) ≤ 20 },
    ghost plain: { list_all plain_byte (drop start bytes) ≡ true },
}

impl Decimal {
    /// The numeral of a number.
    // Straight into the place, as the text of a `Buffer` would have to be copied, and inlined, as most numbers of answers are a known 0.
    #[inline]
    pub fn new(value: i64) -> Decimal
        ensures { Writes value (drop result.start result.bytes) }
    {
        let mut bytes = [b'0'; LONGEST];
        let start = write_digits(value.unsigned_abs(), &mut bytes, LONGEST);
        if value >= 0 {
            return Decimal { bytes, start };
        }
        let start = start - 1;
        bytes[start] = b'-';
        Decimal { bytes, start }
    }

    /// The bytes of the numeral.
    pub fn as_bytes(&self) -> &[u8]
        ensures { result.now ≡ drop self.now.start self.now.bytes }
    {
        &self.bytes[self.start..]
    }
}

#[cfg(test)]
mod tests {
    use super::*;

    #[test]
    fn reads_fields_of_digits(rt: HostRuntime) {
        assert_eq!(rt; number(b"999999999999999"), Some(999_999_999_999_999));
        assert_eq!(rt; number(b"0000000000000000"), None);
        assert_eq!(rt; number(b"007"), Some(7));
        assert_eq!(rt; number(b"0"), Some(0));
    }

    #[test]
    fn refuses_other_fields(rt: HostRuntime) {
        assert_eq!(rt; number(b""), None);
        assert_eq!(rt; number(b"12a"), None);
        assert_eq!(rt; number(b"-1"), None);
    }

    #[test]
    fn writes_numerals(rt: HostRuntime) {
        assert!(rt; Decimal::new(0).as_bytes() == b"0".as_slice());
        assert!(rt; Decimal::new(-1).as_bytes() == b"-1".as_slice());
        assert!(rt; Decimal::new(i64::MIN).as_bytes() == b"-9223372036854775808".as_slice());
        assert!(rt; Decimal::new(i64::MAX).as_bytes() == b"9223372036854775807".as_slice());
        assert_eq!(rt; number(Decimal::new(1_050).as_bytes()), Some(1_050));
    }
}
