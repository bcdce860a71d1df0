//! The rows of the nodes, as data.

ghost use Rattle.std.specs.Prelude.{◌≡◌};
ghost use Rattle.wkt_grammar.specs.Rows.{row_of};

use crate::table::{Edition, Keyword, Node, Often, Slot, SlotName, Takes};

/// The slots of a row: how often each is filled, its name, and the arguments that it takes.
macro_rules! slots {
    [$($often:ident $name:ident $takes:ident $(($keyword:ident, $node:ident))?,)*] => {
        [$(Slot {
            name: SlotName::$name,
            takes: Takes::$takes $((Keyword::$keyword, Node::$node))?,
            often: Often::$often,
        }),*]
    };
}

pub static ROOT: [Slot; 1] = slots![
    Once Root AnyCrs,
];

pub static GEODETIC_CRS: [Slot; 9] = slots![
    Once Name Text,
    Once Datum GeodeticDatum,
    AtMostOnce PrimeMeridian Node(PrimeMeridian, PrimeMeridian),
    Once Cs Node(CoordinateSystem, CoordinateSystem),
    AtLeastOnce Axis Node(Axis, Axis),
    AtMostOnce Unit AnyUnit,
    Any Usage Node(Usage, Usage),
    Any Id Node(Identifier, Identifier),
    AtMostOnce Remark Node(Remark, Value),
];

pub static PROJECTED_CRS: [Slot; 9] = slots![
    Once Name Text,
    Once Base BaseCrs,
    Once Conversion Node(Conversion, Conversion),
    Once Cs Node(CoordinateSystem, CoordinateSystem),
    AtLeastOnce Axis Node(Axis, Axis),
    AtMostOnce Unit AnyUnit,
    Any Usage Node(Usage, Usage),
    Any Id Node(Identifier, Identifier),
    AtMostOnce Remark Node(Remark, Value),
];

pub static FIRST_VERTICAL_CRS: [Slot; 8] = slots![
    Once Name Text,
    Once Datum VerticalDatum,
    Once Cs Node(CoordinateSystem, CoordinateSystem),
    AtLeastOnce Axis Node(Axis, Axis),
    AtMostOnce Unit AnyUnit,
    Any Usage Node(Usage, Usage),
    Any Id Node(Identifier, Identifier),
    AtMostOnce Remark Node(Remark, Value),
];

pub static SECOND_VERTICAL_CRS: [Slot; 9] = slots![
    Once Name Text,
    Once Datum VerticalDatum,
    Once Cs Node(CoordinateSystem, CoordinateSystem),
    AtLeastOnce Axis Node(Axis, Axis),
    AtMostOnce Unit AnyUnit,
    Any GeoidModel Node(GeoidModel, Named),
    Any Usage Node(Usage, Usage),
    Any Id Node(Identifier, Identifier),
    AtMostOnce Remark Node(Remark, Value),
];

pub static COMPOUND_CRS: [Slot; 6] = slots![
    Once Name Text,
    Once First SingleCrs,
    Once Second SingleCrs,
    Any Usage Node(Usage, Usage),
    Any Id Node(Identifier, Identifier),
    AtMostOnce Remark Node(Remark, Value),
];

pub static BASE_CRS: [Slot; 5] = slots![
    Once Name Text,
    Once Datum GeodeticDatum,
    AtMostOnce PrimeMeridian Node(PrimeMeridian, PrimeMeridian),
    AtMostOnce Unit AngleUnit,
    Any Id Node(Identifier, Identifier),
];

pub static DATUM: [Slot; 4] = slots![
    Once Name Text,
    Once Ellipsoid Node(Ellipsoid, Ellipsoid),
    AtMostOnce Anchor Node(Anchor, Value),
    Any Id Node(Identifier, Identifier),
];

pub static VERTICAL_DATUM: [Slot; 3] = slots![
    Once Name Text,
    AtMostOnce Anchor Node(Anchor, Value),
    Any Id Node(Identifier, Identifier),
];

pub static GEODETIC_ENSEMBLE: [Slot; 5] = slots![
    Once Name Text,
    AtLeastOnce Member Node(Member, Named),
    Once Ellipsoid Node(Ellipsoid, Ellipsoid),
    Once Accuracy Node(EnsembleAccuracy, EnsembleAccuracy),
    Any Id Node(Identifier, Identifier),
];

pub static VERTICAL_ENSEMBLE: [Slot; 4] = slots![
    Once Name Text,
    AtLeastOnce Member Node(Member, Named),
    Once Accuracy Node(EnsembleAccuracy, EnsembleAccuracy),
    Any Id Node(Identifier, Identifier),
];

pub static NAMED: [Slot; 2] = slots![
    Once Name Text,
    Any Id Node(Identifier, Identifier),
];

pub static ENSEMBLE_ACCURACY: [Slot; 1] = slots![
    Once Value Number,
];

pub static ELLIPSOID: [Slot; 5] = slots![
    Once Name Text,
    Once Radius Number,
    Once Flattening Number,
    AtMostOnce Unit LengthUnit,
    Any Id Node(Identifier, Identifier),
];

pub static PRIME_MERIDIAN: [Slot; 4] = slots![
    Once Name Text,
    Once Longitude Number,
    AtMostOnce Unit AngleUnit,
    Any Id Node(Identifier, Identifier),
];

pub static CONVERSION: [Slot; 4] = slots![
    Once Name Text,
    Once Method Node(Method, Named),
    Any Parameter Node(Parameter, Parameter),
    Any Id Node(Identifier, Identifier),
];

pub static PARAMETER: [Slot; 4] = slots![
    Once Name Text,
    Once Value Number,
    AtMostOnce Unit AnyUnit,
    Any Id Node(Identifier, Identifier),
];

pub static UNIT: [Slot; 3] = slots![
    Once Name Text,
    Once Factor Number,
    Any Id Node(Identifier, Identifier),
];

pub static COORDINATE_SYSTEM: [Slot; 3] = slots![
    Once Kind CsKind,
    Once Dimension Count,
    Any Id Node(Identifier, Identifier),
];

pub static AXIS: [Slot; 6] = slots![
    Once Name Text,
    Once Direction Direction,
    AtMostOnce Meridian Node(Meridian, Meridian),
    AtMostOnce Order Node(Order, Order),
    AtMostOnce Unit AnyUnit,
    Any Id Node(Identifier, Identifier),
];

pub static MERIDIAN: [Slot; 2] = slots![
    Once Longitude Number,
    Once Unit AngleUnit,
];

pub static ORDER: [Slot; 1] = slots![
    Once Position Count,
];

pub static FIRST_USAGE: [Slot; 3] = slots![
    Once Scope Node(Scope, Value),
    AtMostOnce Area Node(Area, Value),
    AtMostOnce BoundingBox Node(BoundingBox, BoundingBox),
];

pub static SECOND_USAGE: [Slot; 4] = slots![
    Once Scope Node(Scope, Value),
    AtMostOnce Area Node(Area, Value),
    AtMostOnce BoundingBox Node(BoundingBox, BoundingBox),
    AtMostOnce VerticalExtent Node(VerticalExtent, VerticalExtent),
];

pub static BOUNDING_BOX: [Slot; 4] = slots![
    Once South Number,
    Once West Number,
    Once North Number,
    Once East Number,
];

pub static VERTICAL_EXTENT: [Slot; 3] = slots![
    Once Low Number,
    Once High Number,
    AtMostOnce Unit LengthUnit,
];

pub static VALUE: [Slot; 1] = slots![
    Once Value Text,
];

pub static IDENTIFIER: [Slot; 5] = slots![
    Once Authority Text,
    Once Code NumberOrText,
    AtMostOnce Version NumberOrText,
    AtMostOnce Citation Node(Citation, Value),
    AtMostOnce Uri Node(Uri, Value),
];

/// The row of a node in an edition.
pub fn row_of(edition: Edition, node: Node) -> &'static [Slot]
    ensures { result.now ≡ row_of edition node }
{
    match node {
        Node::Root => &ROOT,
        Node::GeodeticCrs => &GEODETIC_CRS,
        Node::ProjectedCrs => &PROJECTED_CRS,
        Node::VerticalCrs => match edition {
            Edition::First => &FIRST_VERTICAL_CRS,
            Edition::Second => &SECOND_VERTICAL_CRS,
        },
        Node::CompoundCrs => &COMPOUND_CRS,
        Node::BaseCrs => &BASE_CRS,
        Node::Datum => &DATUM,
        Node::VerticalDatum => &VERTICAL_DATUM,
        Node::GeodeticEnsemble => &GEODETIC_ENSEMBLE,
        Node::VerticalEnsemble => &VERTICAL_ENSEMBLE,
        Node::Named => &NAMED,
        Node::EnsembleAccuracy => &ENSEMBLE_ACCURACY,
        Node::Ellipsoid => &ELLIPSOID,
        Node::PrimeMeridian => &PRIME_MERIDIAN,
        Node::Conversion => &CONVERSION,
        Node::Parameter => &PARAMETER,
        Node::Unit => &UNIT,
        Node::CoordinateSystem => &COORDINATE_SYSTEM,
        Node::Axis => &AXIS,
        Node::Meridian => &MERIDIAN,
        Node::Order => &ORDER,
        Node::Usage => match edition {
            Edition::First => &FIRST_USAGE,
            Edition::Second => &SECOND_USAGE,
        },
        Node::BoundingBox => &BOUNDING_BOX,
        Node::VerticalExtent => &VERTICAL_EXTENT,
        Node::Value => &VALUE,
        Node::Identifier => &IDENTIFIER,
    }
}
