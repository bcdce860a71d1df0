//! The arguments that a slot takes.

ghost use Rattle.std.specs.Prelude.{◌≡◌};
ghost use Rattle.wkt_grammar.specs.Rows.{enters, takes};

use crate::table::{Argument, Keyword, Node, Takes};

/// The row that a slot of this kind gives to a node with this keyword, if it takes the node.
pub fn enters(kind: Takes, keyword: Keyword) -> Option<Node>
    ensures { result ≡ enters kind keyword }
{
    match kind {
        Takes::Text => None,
        Takes::Number => None,
        Takes::NumberOrText => None,
        Takes::Count => None,
        Takes::CsKind => None,
        Takes::Direction => None,
        Takes::SingleCrs => match keyword {
            Keyword::GeodeticCrs => Some(Node::GeodeticCrs),
            Keyword::GeographicCrs => Some(Node::GeodeticCrs),
            Keyword::ProjectedCrs => Some(Node::ProjectedCrs),
            Keyword::VerticalCrs => Some(Node::VerticalCrs),
            _ => None,
        },
        Takes::AnyCrs => match keyword {
            Keyword::GeodeticCrs => Some(Node::GeodeticCrs),
            Keyword::GeographicCrs => Some(Node::GeodeticCrs),
            Keyword::ProjectedCrs => Some(Node::ProjectedCrs),
            Keyword::VerticalCrs => Some(Node::VerticalCrs),
            Keyword::CompoundCrs => Some(Node::CompoundCrs),
            _ => None,
        },
        Takes::GeodeticDatum => match keyword {
            Keyword::Datum => Some(Node::Datum),
            Keyword::Ensemble => Some(Node::GeodeticEnsemble),
            _ => None,
        },
        Takes::VerticalDatum => match keyword {
            Keyword::VerticalDatum => Some(Node::VerticalDatum),
            Keyword::Ensemble => Some(Node::VerticalEnsemble),
            _ => None,
        },
        Takes::BaseCrs => match keyword {
            Keyword::BaseGeodeticCrs => Some(Node::BaseCrs),
            Keyword::BaseGeographicCrs => Some(Node::BaseCrs),
            _ => None,
        },
        Takes::LengthUnit => match keyword {
            Keyword::LengthUnit => Some(Node::Unit),
            Keyword::Unit => Some(Node::Unit),
            _ => None,
        },
        Takes::AngleUnit => match keyword {
            Keyword::AngleUnit => Some(Node::Unit),
            Keyword::Unit => Some(Node::Unit),
            _ => None,
        },
        Takes::AnyUnit => match keyword {
            Keyword::LengthUnit => Some(Node::Unit),
            Keyword::AngleUnit => Some(Node::Unit),
            Keyword::ScaleUnit => Some(Node::Unit),
            Keyword::Unit => Some(Node::Unit),
            _ => None,
        },
        Takes::Node(own, node) => { if own == keyword { Some(node) } else { None } }
    }
}

/// Whether a slot of this kind takes the argument.
pub fn takes(kind: Takes, argument: Argument) -> bool
    ensures { result ≡ takes kind argument }
{
    match argument {
        Argument::Text => matches!(kind, Takes::Text | Takes::NumberOrText),
        Argument::Number => matches!(kind, Takes::Number | Takes::NumberOrText),
        Argument::Count => matches!(kind, Takes::Number | Takes::NumberOrText | Takes::Count),
        Argument::CsKind => matches!(kind, Takes::CsKind),
        Argument::Direction => matches!(kind, Takes::Direction),
        Argument::OtherWord => false,
        Argument::Node(keyword) => enters(kind, keyword).is_some(),
        Argument::OtherNode => false,
    }
}
