// The bytes that a field may hold, outside quotes and inside.
ghost use Rattle.std.specs.Prelude.{◌≡◌};
ghost use Rattle.records.specs.Grammar.{plain_byte, text_byte};

/// Whether a byte may stand in a field outside quotes.
pub(crate) fn is_plain(byte: u8) -> bool
    ensures { result ≡ plain_byte byte }
{
    byte >= 0x20 && byte <= 0x7e && byte != b',' && byte != b'"'
}

/// Whether a field may hold a byte at all.
pub(crate) fn is_text(byte: u8) -> bool
    ensures { result ≡ text_byte byte }
{
    byte >= 0x20 && byte <= 0x7e || byte == b'\r' || byte == b'\n'
}
