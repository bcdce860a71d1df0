//! What systems claim about the identifiers of parts.

ghost use Rattle.std.specs.Prelude.{◌≡◌, ◌++◌, map, IfOk, OnOk};
ghost use Rattle.crs_names.specs.Nodes.{part_of};
ghost use Rattle.crs_said.specs.Claims.{claim_seen};
ghost use Rattle.crs_said.specs.Parts.{ids_of, kind_of, base_content, content_of, claims_of, part_claims};

use crate::claim::Claim;
use crate::collector::Collector;
use crate::fields::push_name;
use crate::identified::push_id;
use crate::says::Says;
use crs_names::{HasNodes, Node};
use crs_part::{CrsParts, GeodeticFrame, Ident, PrimeMeridian, Text};
use std::alloc::{AllocError, Global};

/// Most systems have fewer claims than these.
const CLAIMS: usize = 8;

/// Most parts say fewer bytes than these.
const CONTENT: usize = 192;

/// For each part that has identifiers: the first one has this content, which is all that the part says but for identifiers,
/// usages, anchors and remarks. A method or a parameter has its name as its content, without letter case. A base has its name, its
/// datum and its prime meridian; a geodetic or geographic system counts as one. Members of ensembles, geoid models, axes and
/// coordinate systems are passed over.
pub fn part_claims(alloc: Global, crs: &CrsParts) -> Result<Vec<Claim>, AllocError>
    ensures { IfOk result (λ claims. map claim_seen claims.items ≡ part_claims crs.now) }
{
    let claims = Vec::with_capacity(alloc, CLAIMS)?;
    let mut collector = Collector {
        alloc,
        claims,
        failed: false,
    };
    crs.show(&mut collector);
    collector.claims()
}

/// Appends what a system claims about the first identifier of a part.
pub(crate) fn push_claims(
    alloc: Global,
    claims: &mut Vec<Claim>,
    node: Node<'_>,
) -> Result<(), AllocError>
    ensures { OnOk result (map claim_seen claims.new.items ≡ map claim_seen claims.old.items ++ claims_of (part_of node.entry)) }
{
    let Some(name) = node.name() else {
        return Ok(());
    };
    let Some(id) = ids_of(node).first() else {
        return Ok(());
    };
    let mut content = Vec::with_capacity(alloc, CONTENT)?;
    push_content(&mut content, node)?;
    content.shrink_to_fit();
    push_id(alloc, claims, kind_of(node), name, content, id)
}

// The identifiers of a part that is claimed about.
fn ids_of<'a>(node: Node<'a>) -> &'a [Ident]
    ensures { result.now ≡ ids_of (part_of node.entry) }
{
    match node {
        Node::Name(_) => &[],
        Node::Id(_) => &[],
        Node::Unit(part) => part.ids.as_slice(),
        Node::Ellipsoid(part) => part.ids.as_slice(),
        Node::PrimeMeridian(part) => part.ids.as_slice(),
        Node::Datum(part) => part.ids.as_slice(),
        Node::Ensemble(part) => part.ids.as_slice(),
        Node::VerticalDatum(part) => part.ids.as_slice(),
        Node::VerticalEnsemble(part) => part.ids.as_slice(),
        Node::Method(part) => part.ids.as_slice(),
        Node::Parameter(part) => part.ids.as_slice(),
        Node::Conversion(part) => part.ids.as_slice(),
        Node::Base(part) => part.ids.as_slice(),
        Node::Geodetic(part) => part.ids.as_slice(),
    }
}

fn kind_of(node: Node<'_>) -> &'static [u8]
    ensures { result.now ≡ kind_of (part_of node.entry) }
{
    match node {
        Node::Name(_) => b"",
        Node::Id(_) => b"",
        Node::Unit(_) => b"unit",
        Node::Ellipsoid(_) => b"ellipsoid",
        Node::PrimeMeridian(_) => b"prime meridian",
        Node::Datum(_) => b"datum",
        Node::Ensemble(_) => b"ensemble",
        Node::VerticalDatum(_) => b"datum",
        Node::VerticalEnsemble(_) => b"ensemble",
        Node::Method(_) => b"method",
        Node::Parameter(_) => b"parameter",
        Node::Conversion(_) => b"conversion",
        Node::Base(_) => b"base",
        Node::Geodetic(_) => b"base",
    }
}

fn push_content(out: &mut Vec<u8>, node: Node<'_>) -> Result<(), AllocError>
    ensures { OnOk result (out.new.items ≡ out.old.items ++ content_of (part_of node.entry)) }
{
    match node {
        Node::Name(_) => Ok(()),
        Node::Id(_) => Ok(()),
        Node::Unit(part) => part.say(true, out),
        Node::Ellipsoid(part) => part.say(true, out),
        Node::PrimeMeridian(part) => part.say(true, out),
        Node::Datum(part) => part.say(true, out),
        Node::Ensemble(part) => part.say(true, out),
        Node::VerticalDatum(part) => part.say(true, out),
        Node::VerticalEnsemble(part) => part.say(true, out),
        Node::Method(part) => part.say(false, out),
        Node::Parameter(part) => push_name(false, &part.name, out),
        Node::Conversion(part) => part.say(true, out),
        Node::Base(part) => push_base(out, &part.name, &part.datum, &part.prime_meridian),
        Node::Geodetic(part) => push_base(out, &part.name, &part.datum, &part.prime_meridian),
    }
}

fn push_base(
    out: &mut Vec<u8>,
    name: &Text,
    frame: &GeodeticFrame,
    prime: &Option<PrimeMeridian>,
) -> Result<(), AllocError>
    ensures { OnOk result (out.new.items ≡ out.old.items ++ base_content name.now frame.now prime.now) }
{
    push_name(true, name, out)?;
    frame.say(true, out)?;
    prime.say(true, out)
}
