//! Letters of terrain.
ghost use Rattle.std.specs.Prelude.{◌≡◌};
ghost use Rattle.names.specs.Letters.{is_letter};

/// Whether the byte is a letter of terrain: `a` to `z`, or `.`, which a new map has everywhere.
pub fn is_letter(byte: u8) -> bool
    ensures { result ≡ is_letter byte }
{
    byte.is_ascii_lowercase() || byte == b'.'
}
