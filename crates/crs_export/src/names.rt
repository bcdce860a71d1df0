//! Texts that PROJ's tables take.

ghost use Rattle.std.specs.Prelude.{◌≡◌};
ghost use Rattle.std.specs.List.{list_any};
ghost use Rattle.crs_export.specs.Names.{starts, is_long, is_zero, is_some_text};

fn starts(byte: u8) -> bool
    ensures { result ≡ starts byte }
{
    byte < 128 || byte > 191
}

fn has_start(text: &[u8]) -> bool
    ensures { result ≡ list_any starts text.now }
{
    text.iter().any(|byte| starts(*byte))
}

/// Whether a name has a second character.
pub fn is_long(name: &[u8]) -> bool
    ensures { result ≡ is_long name.now }
{
    let Some((_, others)) = name.split_first() else {
        return false;
    };
    has_start(others)
}

fn is_zero(byte: u8) -> bool
    ensures { result ≡ is_zero byte }
{
    byte == 0
}

/// Whether a text has U+0000, where SQLite ends it.
pub fn has_zero(text: &[u8]) -> bool
    ensures { result ≡ list_any is_zero text.now }
{
    text.iter().any(|byte| is_zero(*byte))
}

/// Whether a text has bytes.
pub fn is_some_text(text: &[u8]) -> bool
    ensures { result ≡ is_some_text text.now }
{
    !text.is_empty()
}
