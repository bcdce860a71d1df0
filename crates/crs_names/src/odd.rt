//! The first node that is odd, and what is said of it.

ghost use Rattle.std.specs.Prelude.{◌≡◌, ◌∷◌, [], List};
ghost use Rattle.std.specs.Option.{option_map};
ghost use Rattle.crs_exact.specs.Said.{sentence};
ghost use Rattle.crs_names.specs.Nodes.{part_of, all_of_single, whole_of_compound};
ghost use Rattle.crs_names.specs.Odd.{odd, odd_name, odd_id, odd_unit, first_odd};

use crate::finder::Finder;
use crate::key::{id_said, is_id_odd};
use crate::name::{is_text_odd, name_said};
use crate::node::Node;
use crate::nodes::{show_single, show_whole};
use crate::unit::{is_unit_odd, unit_said};
use crs_exact::Finding;
use crs_part::{Compound, Single};

/// What a rule looks for.
#[derive(Clone, Copy)]
pub enum Seek {
    Names,
    Ids,
    Units,
}

/// The first odd name, identifier or unit of a system that is no compound.
pub fn odd_item(crs: &Single, seek: Seek) -> Option<Finding<'_>>
    ensures { option_map sentence result ≡ first_odd seek (all_of_single crs.now []) }
{
    let mut finder = Finder { seek, found: None };
    show_single(crs, &mut finder);
    finder.found
}

/// The first one of a compound, apart from its components.
pub fn odd_whole(crs: &Compound, seek: Seek) -> Option<Finding<'_>>
    ensures { option_map sentence result ≡ first_odd seek (whole_of_compound crs.now []) }
{
    let mut finder = Finder { seek, found: None };
    show_whole(crs, &mut finder);
    finder.found
}

/// What is odd about a node.
pub(crate) fn odd(seek: Seek, node: Node<'_>) -> Option<Finding<'_>>
    ensures { option_map sentence result ≡ odd seek (part_of node.entry) }
{
    match seek {
        Seek::Names => odd_name(node),
        Seek::Ids => odd_id(node),
        Seek::Units => odd_unit(node),
    }
}

fn odd_name(node: Node<'_>) -> Option<Finding<'_>>
    ensures { option_map sentence result ≡ odd_name (part_of node.entry) }
{
    let Some(name) = node.name() else {
        return None;
    };
    if is_text_odd(name.as_bytes()) {
        return Some(name_said(name));
    }
    None
}

fn odd_id(node: Node<'_>) -> Option<Finding<'_>>
    ensures { option_map sentence result ≡ odd_id (part_of node.entry) }
{
    let Node::Id(id) = node else {
        return None;
    };
    if is_id_odd(id) {
        return Some(id_said(id));
    }
    None
}

fn odd_unit(node: Node<'_>) -> Option<Finding<'_>>
    ensures { option_map sentence result ≡ odd_unit (part_of node.entry) }
{
    let Node::Unit(unit) = node else {
        return None;
    };
    if is_unit_odd(unit) {
        return Some(unit_said(unit));
    }
    None
}
