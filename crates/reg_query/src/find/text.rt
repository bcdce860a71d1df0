//! Texts of a reference system in which a search looks: the names of its datums, ensembles, ellipsoids and methods, and its remark.

ghost use Rattle.std.specs.Prelude.{◌≡◌, ◌↔◌, ◌⊎◌, [], Bool, IsTrue, List};
ghost use Rattle.std.specs.List.{Any};
ghost use Rattle.std.specs.Option.{option_map};
ghost use Rattle.crs_names.specs.Nodes.{part_of};
ghost use Rattle.crs_value.specs.Usages.{HasOne};
ghost use Rattle.reg_query.specs.Texts.{searched_name, remark_of, HasTextPart, IsNamedWith, IsInTexts};

use crs_names::{HasNodes, Node, Visitor};
use crs_part::{CrsParts, Single, Text};
use crs_value::search::has_part;
use std::alloc::Global;

/// Whether one of these texts contains the part; letters A to Z match in either case.
pub(crate) fn is_in_texts(alloc: Global, crs: &CrsParts, part: &[u8]) -> bool
    ensures { IsTrue result ↔ IsInTexts part.now crs.now }
{
    if has_text_part(alloc, remark_of(crs), part) {
        return true;
    }
    let mut finder = Finder {
        alloc,
        part,
        found: false,
    };
    crs.show(&mut finder);
    finder.found
}

fn has_text_part(alloc: Global, text: Option<&Text>, part: &[u8]) -> bool
    ensures { IsTrue result ↔ HasTextPart part.now (option_map (λ text. text.now) text.entry) }
{
    match text {
        Some(text) => has_part(alloc, text.as_bytes(), part),
        None => false,
    }
}

/// The remark of the whole, and not those of a component.
fn remark_of(crs: &CrsParts) -> Option<&Text>
    ensures { option_map (λ text. text.now) result ≡ remark_of crs.now }
{
    match crs {
        CrsParts::Single(Single::Geodetic(crs)) => crs.remark.as_ref(),
        CrsParts::Single(Single::Projected(crs)) => crs.remark.as_ref(),
        CrsParts::Single(Single::Vertical(crs)) => crs.remark.as_ref(),
        CrsParts::Compound(compound) => compound.get().remark.as_ref(),
    }
}

fn searched_name<'a>(node: Node<'a>) -> Option<&'a Text>
    ensures { option_map (λ text. text.now) result ≡ searched_name (part_of node.entry) }
{
    match node {
        Node::Datum(_)
        | Node::Ensemble(_)
        | Node::VerticalDatum(_)
        | Node::VerticalEnsemble(_)
        | Node::Ellipsoid(_)
        | Node::Method(_) => node.name(),
        _ => None,
    }
}

/// Looks for a part of a text in the names of nodes.
#[derive(Drop)]
struct Finder<'p> {
    alloc: Global,
    part: &'p [u8],
    found: bool,
}

impl<'a, 'p> Visitor<'a> for Finder<'p> {
    ghost has = { λ first now all rest. (now.part.now ≡ first.part.now) × ((IsTrue now.found ⊎ Any (IsNamedWith first.part.now) rest) ↔ (IsTrue first.found ⊎ Any (IsNamedWith first.part.now) all)) };

    fn meet(&mut self, node: Node<'a>) {
        if !self.found {
            self.found = has_text_part(self.alloc, searched_name(node), self.part);
        }
    }
}
