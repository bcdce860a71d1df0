//! A row of a file of names.

ghost use Rattle.std.specs.Prelude.{◌≡◌, length};

/// An office and its name.
#[derive(Debug, Drop)]
pub struct Name {
    /// The UUID as it is printed.
    pub office: Vec<u8>,
    pub name: Vec<u8>,
    ghost long: { length office.items ≡ 36 },
}
