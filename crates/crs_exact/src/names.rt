//! Names, compared without letter case, and with underscores as blanks.

ghost use Rattle.std.specs.Prelude.{◌≡◌, drop};
ghost use Rattle.crs_exact.specs.Names.{plain, begins, is_named, is_called, has_part};

/// Whether the name is this one.
pub fn is_named(name: &[u8], wanted: &[u8]) -> bool
    ensures { result ≡ is_named wanted.now name.now }
{
    name.len() == wanted.len() && begins(name, wanted)
}

/// Whether the name is this one, perhaps with more in parentheses after it.
pub fn is_called(name: &[u8], wanted: &[u8]) -> bool
    ensures { result ≡ is_called wanted.now name.now }
{
    begins(name, wanted) && (name.len() == wanted.len() || begins(after(name, wanted.len()), b" ("))
}

/// The bytes after the first ones.
pub fn after(name: &[u8], count: usize) -> &[u8]
    ensures { result.now ≡ drop count name.now }
{
    if count >= name.len() {
        return &[];
    }
    &name[count..]
}

/// Whether the part stands somewhere in the name.
pub fn has_part(name: &[u8], part: &[u8]) -> bool
    ensures { result ≡ has_part part.now name.now }
{
    let mut rest = name;
    while let Some((_, others)) = rest.split_first() {
        if begins(rest, part) {
            return true;
        }
        rest = others;
    }
    begins(rest, part)
}

/// Whether the part begins the name.
pub fn begins(name: &[u8], part: &[u8]) -> bool
    ensures { result ≡ begins part.now name.now }
{
    let mut rest = name;
    for wanted in part {
        let Some((byte, others)) = rest.split_first() else {
            return false;
        };
        if plain(*byte) != plain(*wanted) {
            return false;
        }
        rest = others;
    }
    true
}

// A to Z as a to z, and the underscore as a blank.
fn plain(byte: u8) -> u8
    ensures { result ≡ plain byte }
{
    if byte == b'_' {
        b' '
    } else {
        byte.to_ascii_lowercase()
    }
}
