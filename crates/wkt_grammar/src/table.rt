//! The elements of rows: keywords, arguments, slots and nodes.

/// An edition of the grammar.
#[derive(Clone, Copy, Debug, PartialEq, Eq)]
pub enum Edition {
    /// Vertical systems without geoid models, and usages without vertical extents.
    First,
    /// The first with both: any number of geoid models after the unit of a vertical system, and a vertical extent at
    /// the end of a usage.
    Second,
}

/// The meaning of a keyword.
#[derive(Clone, Copy, Debug, PartialEq, Eq)]
pub enum Keyword {
    GeodeticCrs,
    GeographicCrs,
    ProjectedCrs,
    VerticalCrs,
    CompoundCrs,
    BaseGeodeticCrs,
    BaseGeographicCrs,
    Datum,
    VerticalDatum,
    Ensemble,
    Member,
    Method,
    GeoidModel,
    EnsembleAccuracy,
    Ellipsoid,
    PrimeMeridian,
    Conversion,
    Parameter,
    LengthUnit,
    AngleUnit,
    ScaleUnit,
    Unit,
    CoordinateSystem,
    Axis,
    Meridian,
    Order,
    Usage,
    BoundingBox,
    VerticalExtent,
    Scope,
    Area,
    Anchor,
    Citation,
    Uri,
    Remark,
    Identifier,
}

/// The kind of an argument, as far as rows distinguish it.
#[derive(Clone, Copy, Debug)]
pub enum Argument {
    Text,
    Number,
    Count,
    CsKind,
    Direction,
    OtherWord,
    Node(Keyword),
    OtherNode,
}

/// How often a slot is filled.
#[derive(Clone, Copy, Debug)]
pub enum Often {
    Once,
    AtMostOnce,
    Any,
    AtLeastOnce,
}

/// The name of a slot, as a fault prints it.
#[derive(Clone, Copy, Debug, PartialEq, Eq)]
pub enum SlotName {
    Root,
    Name,
    Datum,
    PrimeMeridian,
    Cs,
    Axis,
    Unit,
    Usage,
    Id,
    Remark,
    Base,
    Conversion,
    GeoidModel,
    First,
    Second,
    Ellipsoid,
    Anchor,
    Member,
    Accuracy,
    Value,
    Radius,
    Flattening,
    Longitude,
    Method,
    Parameter,
    Factor,
    Kind,
    Dimension,
    Direction,
    Meridian,
    Order,
    Position,
    Scope,
    Area,
    BoundingBox,
    VerticalExtent,
    South,
    West,
    North,
    East,
    Low,
    High,
    Authority,
    Code,
    Version,
    Citation,
    Uri,
}

/// The arguments that a slot takes.
#[derive(Clone, Copy, Debug)]
pub enum Takes {
    Text,
    Number,
    NumberOrText,
    Count,
    CsKind,
    Direction,
    /// A node with one of several keywords.
    SingleCrs,
    AnyCrs,
    GeodeticDatum,
    VerticalDatum,
    BaseCrs,
    LengthUnit,
    AngleUnit,
    AnyUnit,
    /// A node with only this keyword, which has one row.
    Node(Keyword, Node),
}

/// One slot of a row: its name, the arguments that it takes, and how many.
#[derive(Clone, Copy, Debug)]
pub struct Slot {
    pub name: SlotName,
    pub takes: Takes,
    pub often: Often,
}

/// A row. That of the root has one slot.
#[derive(Clone, Copy, Debug)]
pub enum Node {
    Root,
    GeodeticCrs,
    ProjectedCrs,
    VerticalCrs,
    CompoundCrs,
    BaseCrs,
    Datum,
    VerticalDatum,
    GeodeticEnsemble,
    VerticalEnsemble,
    Named,
    EnsembleAccuracy,
    Ellipsoid,
    PrimeMeridian,
    Conversion,
    Parameter,
    Unit,
    CoordinateSystem,
    Axis,
    Meridian,
    Order,
    Usage,
    BoundingBox,
    VerticalExtent,
    Value,
    Identifier,
}
