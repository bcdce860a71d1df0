//! A node: what a reference system has in a place of its text: a part, a name or an identifier.

ghost use Rattle.std.specs.Prelude.{◌≡◌};
ghost use Rattle.std.specs.Option.{option_map};
ghost use Rattle.crs_names.specs.Nodes.{part_of, name_of};

use crs_part::{
    BaseCrs, Conversion, Datum, Ellipsoid, Geodetic, GeodeticEnsemble, Ident, Named, Parameter,
    PrimeMeridian, Text, UnitDefinition, VerticalDatum, VerticalEnsemble,
};

/// A part with its name and its identifiers, or a name or an identifier alone.
#[derive(Clone, Copy)]
pub enum Node<'a> {
    /// The name of a projected, vertical or compound system, of a member or of a geoid model.
    Name(&'a Text),
    /// It comes after all that its part contains.
    Id(&'a Ident),
    Unit(&'a UnitDefinition),
    Ellipsoid(&'a Ellipsoid),
    PrimeMeridian(&'a PrimeMeridian),
    Datum(&'a Datum),
    Ensemble(&'a GeodeticEnsemble),
    VerticalDatum(&'a VerticalDatum),
    VerticalEnsemble(&'a VerticalEnsemble),
    Method(&'a Named),
    Parameter(&'a Parameter),
    Conversion(&'a Conversion),
    Base(&'a BaseCrs),
    Geodetic(&'a Geodetic),
}

impl<'a> Node<'a> {
    /// The name, which an identifier lacks.
    pub fn name(self) -> Option<&'a Text>
        ensures { option_map (λ name. name.now) result ≡ name_of (part_of self.entry) }
    {
        match self {
            Node::Name(name) => Some(name),
            Node::Id(_) => None,
            Node::Unit(part) => Some(&part.name),
            Node::Ellipsoid(part) => Some(&part.name),
            Node::PrimeMeridian(part) => Some(&part.name),
            Node::Datum(part) => Some(&part.name),
            Node::Ensemble(part) => Some(&part.name),
            Node::VerticalDatum(part) => Some(&part.name),
            Node::VerticalEnsemble(part) => Some(&part.name),
            Node::Method(part) => Some(&part.name),
            Node::Parameter(part) => Some(&part.name),
            Node::Conversion(part) => Some(&part.name),
            Node::Base(part) => Some(&part.name),
            Node::Geodetic(part) => Some(&part.name),
        }
    }
}
