//! The nodes of a reference system, in the order of its text.

ghost use Rattle.std.specs.Prelude.{◌∷◌, List};
ghost use Rattle.crs_part.specs.Slots.{items_of};
ghost use Rattle.crs_names.specs.Nodes.{Part, part_of, of_maybe, of_each, of_id, of_definition, of_length, of_angle, of_any, of_named, of_ellipsoid, of_meridian, of_datum, of_ensemble, of_frame, of_vertical_datum, of_vertical_ensemble, of_vertical_frame, of_axis_meridian, of_axis, of_parameter, of_conversion, of_extent, of_usage, of_base, of_geodetic, of_projected, of_vertical, of_single, of_both, of_parts, of_end, all_of_single, whole_of_compound};

use crate::node::Node;
use crs_exact::{angle_of, length_of, unit_of};
use crs_part::{
    AngleUnit, Axis, BaseCrs, Compound, Conversion, CrsParts, Datum, Ellipsoid, Geodetic,
    GeodeticEnsemble, GeodeticFrame, Ident, LengthUnit, Many, Meridian, Named, NonEmpty, Parameter,
    PrimeMeridian, Projected, Single, Unit, UnitDefinition, Usage, Vertical, VerticalDatum,
    VerticalEnsemble, VerticalExtent, VerticalFrame,
};

/// What looks at nodes, one after another.
pub trait Visitor<'a> {
    /// Since it was as the first, it has met all of these nodes but the rest.
    ghost has: { Self → Self → List Part → List Part → Type 0 };

    /// Looks at the next one.
    fn meet(&mut self, node: Node<'a>)
        ensures { (first : Self) (all rest : List Part) → has first self.old all (part_of node.entry ∷ rest) → has first self.new all rest };
}

/// A value that contains nodes.
pub trait HasNodes<'a, V: Visitor<'a>> {
    /// Its nodes, in front of others.
    ghost nodes: { Self → List Part → List Part };

    /// Shows them to a visitor, in order.
    fn show(&'a self, to: &mut V)
        ensures { (first : V) (all rest : List Part) → V.has first to.old all (nodes self.now rest) → V.has first to.new all rest };
}

fn show_all<'a, V: Visitor<'a>, T: HasNodes<'a, V>>(parts: &'a [T], to: &mut V)
    ensures { (first : V) (all rest : List Part) → V.has first to.old all (of_each T.nodes parts.now rest) → V.has first to.new all rest }
{
    let mut rest = parts;
    while let Some((part, others)) = rest.split_first() {
        part.show(to);
        rest = others;
    }
}

// The usages and the identifiers, which come last.
fn show_end<'a, V: Visitor<'a>>(usages: &'a Many<Usage>, ids: &'a Many<Ident>, to: &mut V)
    ensures { (first : V) (all rest : List Part) → V.has first to.old all (of_end usages.now ids.now rest) → V.has first to.new all rest }
{
    usages.show(to);
    ids.show(to);
}

/// Shows all nodes of a system that is no compound.
pub(crate) fn show_single<'a, V: Visitor<'a>>(crs: &'a Single, to: &mut V)
    ensures { (first : V) (all rest : List Part) → V.has first to.old all (all_of_single crs.now rest) → V.has first to.new all rest }
{
    match crs {
        Single::Geodetic(part) => {
            part.show(to);
            show_end(&part.usages, &part.ids, to);
        }
        Single::Projected(part) => {
            part.show(to);
            show_end(&part.usages, &part.ids, to);
        }
        Single::Vertical(part) => {
            part.show(to);
            show_end(&part.usages, &part.ids, to);
        }
    }
}

/// Shows the nodes of a compound, without those of its components.
pub(crate) fn show_whole<'a, V: Visitor<'a>>(crs: &'a Compound, to: &mut V)
    ensures { (first : V) (all rest : List Part) → V.has first to.old all (whole_of_compound crs.now rest) → V.has first to.new all rest }
{
    to.meet(Node::Name(&crs.name));
    show_end(&crs.usages, &crs.ids, to);
}

impl<'a, V: Visitor<'a>, T: HasNodes<'a, V>> HasNodes<'a, V> for Option<T> {
    ghost nodes = { of_maybe T.nodes };

    fn show(&'a self, to: &mut V) {
        if let Some(part) = self {
            part.show(to);
        }
    }
}

impl<'a, V: Visitor<'a>, T: HasNodes<'a, V>> HasNodes<'a, V> for Many<T> {
    ghost nodes = { of_each T.nodes };

    fn show(&'a self, to: &mut V) {
        show_all(self.as_slice(), to);
    }
}

impl<'a, V: Visitor<'a>, T: HasNodes<'a, V>> HasNodes<'a, V> for NonEmpty<T> {
    ghost nodes = { λ some. of_each T.nodes (items_of some) };

    fn show(&'a self, to: &mut V) {
        self.first.show(to);
        self.others.show(to);
    }
}

impl<'a, V: Visitor<'a>> HasNodes<'a, V> for Ident {
    ghost nodes = { of_id };

    fn show(&'a self, to: &mut V) {
        to.meet(Node::Id(self));
    }
}

impl<'a, V: Visitor<'a>> HasNodes<'a, V> for UnitDefinition {
    ghost nodes = { of_definition };

    fn show(&'a self, to: &mut V) {
        to.meet(Node::Unit(self));
        self.ids.show(to);
    }
}

impl<'a, V: Visitor<'a>> HasNodes<'a, V> for LengthUnit {
    ghost nodes = { of_length };

    fn show(&'a self, to: &mut V) {
        length_of(self).show(to);
    }
}

impl<'a, V: Visitor<'a>> HasNodes<'a, V> for AngleUnit {
    ghost nodes = { of_angle };

    fn show(&'a self, to: &mut V) {
        angle_of(self).show(to);
    }
}

impl<'a, V: Visitor<'a>> HasNodes<'a, V> for Unit {
    ghost nodes = { of_any };

    fn show(&'a self, to: &mut V) {
        unit_of(self).show(to);
    }
}

impl<'a, V: Visitor<'a>> HasNodes<'a, V> for Named {
    ghost nodes = { of_named };

    fn show(&'a self, to: &mut V) {
        to.meet(Node::Name(&self.name));
        self.ids.show(to);
    }
}

impl<'a, V: Visitor<'a>> HasNodes<'a, V> for Ellipsoid {
    ghost nodes = { of_ellipsoid };

    fn show(&'a self, to: &mut V) {
        to.meet(Node::Ellipsoid(self));
        self.unit.show(to);
        self.ids.show(to);
    }
}

impl<'a, V: Visitor<'a>> HasNodes<'a, V> for PrimeMeridian {
    ghost nodes = { of_meridian };

    fn show(&'a self, to: &mut V) {
        to.meet(Node::PrimeMeridian(self));
        self.unit.show(to);
        self.ids.show(to);
    }
}

impl<'a, V: Visitor<'a>> HasNodes<'a, V> for Datum {
    ghost nodes = { of_datum };

    fn show(&'a self, to: &mut V) {
        to.meet(Node::Datum(self));
        self.ellipsoid.show(to);
        self.ids.show(to);
    }
}

impl<'a, V: Visitor<'a>> HasNodes<'a, V> for GeodeticEnsemble {
    ghost nodes = { of_ensemble };

    fn show(&'a self, to: &mut V) {
        to.meet(Node::Ensemble(self));
        self.members.show(to);
        self.ellipsoid.show(to);
        self.ids.show(to);
    }
}

impl<'a, V: Visitor<'a>> HasNodes<'a, V> for GeodeticFrame {
    ghost nodes = { of_frame };

    fn show(&'a self, to: &mut V) {
        match self {
            GeodeticFrame::Datum(part) => part.show(to),
            GeodeticFrame::Ensemble(part) => part.show(to),
        }
    }
}

impl<'a, V: Visitor<'a>> HasNodes<'a, V> for VerticalDatum {
    ghost nodes = { of_vertical_datum };

    fn show(&'a self, to: &mut V) {
        to.meet(Node::VerticalDatum(self));
        self.ids.show(to);
    }
}

impl<'a, V: Visitor<'a>> HasNodes<'a, V> for VerticalEnsemble {
    ghost nodes = { of_vertical_ensemble };

    fn show(&'a self, to: &mut V) {
        to.meet(Node::VerticalEnsemble(self));
        self.members.show(to);
        self.ids.show(to);
    }
}

impl<'a, V: Visitor<'a>> HasNodes<'a, V> for VerticalFrame {
    ghost nodes = { of_vertical_frame };

    fn show(&'a self, to: &mut V) {
        match self {
            VerticalFrame::Datum(part) => part.show(to),
            VerticalFrame::Ensemble(part) => part.show(to),
        }
    }
}

impl<'a, V: Visitor<'a>> HasNodes<'a, V> for Meridian {
    ghost nodes = { of_axis_meridian };

    fn show(&'a self, to: &mut V) {
        self.unit.show(to);
    }
}

impl<'a, V: Visitor<'a>> HasNodes<'a, V> for Axis {
    ghost nodes = { of_axis };

    fn show(&'a self, to: &mut V) {
        self.meridian.show(to);
        self.unit.show(to);
        self.ids.show(to);
    }
}

impl<'a, V: Visitor<'a>> HasNodes<'a, V> for Parameter {
    ghost nodes = { of_parameter };

    fn show(&'a self, to: &mut V) {
        to.meet(Node::Parameter(self));
        self.unit.show(to);
        self.ids.show(to);
    }
}

impl<'a, V: Visitor<'a>> HasNodes<'a, V> for Conversion {
    ghost nodes = { of_conversion };

    fn show(&'a self, to: &mut V) {
        to.meet(Node::Conversion(self));
        to.meet(Node::Method(&self.method));
        self.method.ids.show(to);
        self.parameters.show(to);
        self.ids.show(to);
    }
}

impl<'a, V: Visitor<'a>> HasNodes<'a, V> for VerticalExtent {
    ghost nodes = { of_extent };

    fn show(&'a self, to: &mut V) {
        self.unit.show(to);
    }
}

impl<'a, V: Visitor<'a>> HasNodes<'a, V> for Usage {
    ghost nodes = { of_usage };

    fn show(&'a self, to: &mut V) {
        self.vertical_extent.show(to);
    }
}

impl<'a, V: Visitor<'a>> HasNodes<'a, V> for BaseCrs {
    ghost nodes = { of_base };

    fn show(&'a self, to: &mut V) {
        to.meet(Node::Base(self));
        self.datum.show(to);
        self.prime_meridian.show(to);
        self.unit.show(to);
        self.ids.show(to);
    }
}

impl<'a, V: Visitor<'a>> HasNodes<'a, V> for Geodetic {
    ghost nodes = { of_geodetic };

    fn show(&'a self, to: &mut V) {
        to.meet(Node::Geodetic(self));
        self.datum.show(to);
        self.prime_meridian.show(to);
        self.system.ids.show(to);
        self.axes.show(to);
        self.unit.show(to);
    }
}

impl<'a, V: Visitor<'a>> HasNodes<'a, V> for Projected {
    ghost nodes = { of_projected };

    fn show(&'a self, to: &mut V) {
        to.meet(Node::Name(&self.name));
        self.base.show(to);
        self.conversion.show(to);
        self.system.ids.show(to);
        self.axes.show(to);
        self.unit.show(to);
    }
}

impl<'a, V: Visitor<'a>> HasNodes<'a, V> for Vertical {
    ghost nodes = { of_vertical };

    fn show(&'a self, to: &mut V) {
        to.meet(Node::Name(&self.name));
        self.datum.show(to);
        self.system.ids.show(to);
        self.axes.show(to);
        self.unit.show(to);
        self.geoid_models.show(to);
    }
}

impl<'a, V: Visitor<'a>> HasNodes<'a, V> for Single {
    ghost nodes = { of_single };

    fn show(&'a self, to: &mut V) {
        match self {
            Single::Geodetic(part) => part.show(to),
            Single::Projected(part) => part.show(to),
            Single::Vertical(part) => part.show(to),
        }
    }
}

impl<'a, V: Visitor<'a>> HasNodes<'a, V> for CrsParts {
    ghost nodes = { of_parts };

    fn show(&'a self, to: &mut V) {
        match self {
            CrsParts::Single(crs) => crs.show(to),
            CrsParts::Compound(crs) => show_both(crs.get(), to),
        }
    }
}

fn show_both<'a, V: Visitor<'a>>(crs: &'a Compound, to: &mut V)
    ensures { (first : V) (all rest : List Part) → V.has first to.old all (of_both crs.now rest) → V.has first to.new all rest }
{
    crs.first.show(to);
    crs.second.show(to);
}
