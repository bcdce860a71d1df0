//! The names of slots.

ghost use Rattle.std.specs.Prelude.{◌≡◌};
ghost use Rattle.wkt_grammar.specs.Names.{slot_name};

use crate::table::SlotName;

impl SlotName {
    /// The name that a fault prints.
    pub fn name(self) -> &'static str
        ensures { result.now ≡ slot_name self }
    {
        match self {
            SlotName::Root => "root",
            SlotName::Name => "name",
            SlotName::Datum => "datum",
            SlotName::PrimeMeridian => "primem",
            SlotName::Cs => "cs",
            SlotName::Axis => "axis",
            SlotName::Unit => "unit",
            SlotName::Usage => "usage",
            SlotName::Id => "id",
            SlotName::Remark => "remark",
            SlotName::Base => "base",
            SlotName::Conversion => "conversion",
            SlotName::GeoidModel => "geoidmodel",
            SlotName::First => "first",
            SlotName::Second => "second",
            SlotName::Ellipsoid => "ellipsoid",
            SlotName::Anchor => "anchor",
            SlotName::Member => "member",
            SlotName::Accuracy => "accuracy",
            SlotName::Value => "value",
            SlotName::Radius => "radius",
            SlotName::Flattening => "flattening",
            SlotName::Longitude => "longitude",
            SlotName::Method => "method",
            SlotName::Parameter => "parameter",
            SlotName::Factor => "factor",
            SlotName::Kind => "kind",
            SlotName::Dimension => "dimension",
            SlotName::Direction => "direction",
            SlotName::Meridian => "meridian",
            SlotName::Order => "order",
            SlotName::Position => "position",
            SlotName::Scope => "scope",
            SlotName::Area => "area",
            SlotName::BoundingBox => "bbox",
            SlotName::VerticalExtent => "verticalextent",
            SlotName::South => "south",
            SlotName::West => "west",
            SlotName::North => "north",
            SlotName::East => "east",
            SlotName::Low => "low",
            SlotName::High => "high",
            SlotName::Authority => "authority",
            SlotName::Code => "code",
            SlotName::Version => "version",
            SlotName::Citation => "citation",
            SlotName::Uri => "uri",
        }
    }
}
