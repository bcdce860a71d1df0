//! The links that pass on to heirs, made by an office.

ghost use Rattle.std.specs.Prelude.{◌≡◌, ◌++◌, ◌∷◌, [], ◌⊎◌, ◌↔◌, List, map, true, Contains, IfOk, OnOk, IfErr, IfSome, IfNone};
ghost use Rattle.std.specs.List.{list_any};
ghost use Rattle.reg_op.specs.Set as set;
ghost use Rattle.reg_op.specs.Rows.{rows};
ghost use Rattle.reg_office.specs.declared.fault.OfficeFault.TheVariants as fault;
ghost use Rattle.reg_disorder.specs.declared.linking.link.Link.{Link as OneLink};
ghost use Rattle.reg_disorder.specs.Links.{link_cmp};
ghost use Rattle.reg_disorder.specs.LinkHeirs.{rows_in, AreHeirs};
ghost use Rattle.reg_disorder.specs.Passing.{is_cut, is_new, Inherits, PassesTo, AreHeirLinks, bodies_of, PassesOn, IsNotPassedOn};

use crate::linking::heir::{Heirs, heir_of, heirs_among};
use crate::linking::link::{Link, stands};
use reg_office::{Office, OfficeFault};
use reg_op::{OpBody, OpId};
use reg_report::rows;
use reg_state::Register;
use std::alloc::{AllocError, Global};

/// The links that an office made for heirs, and the ids of their operations.
#[derive(Drop)]
pub struct Passed {
    pub links: Vec<Link>,
    pub ids: Vec<OpId>,
}

// Whether an end of the link is retired.
fn is_cut(register: &Register, link: &Link) -> bool
    ensures { result ≡ is_cut register.now.ops link.now }
{
    !(stands(register, link.old) && stands(register, link.newer))
}

// Whether the ends of the link differ, and the register does not have it yet.
fn is_new(register: &Register, link: &Link) -> bool
    ensures { result ≡ is_new register.now.ops link.now }
{
    !link.old.is_same(&link.newer) && !register.is_superseded_by(link.old, link.newer)
}

// The link of the heirs.
fn heir_link(register: &Register, heirs: &Heirs<'_>, link: &Link) -> Option<Link>
    requires rows { rows_in heirs.now ≡ rows register.now.ops }
    requires heirs { AreHeirs heirs.now }
    ensures some { IfSome result (Inherits register.now.ops link.now) }
    ensures none { IfNone result ((heir : OneLink) → ¬ (Inherits register.now.ops link.now heir)) }
{
    let Some(old) = heir_of(register, heirs, link.old) else {
        return None;
    };
    let Some(newer) = heir_of(register, heirs, link.newer) else {
        return None;
    };
    Some(Link { old, newer })
}

// Appends the link of the heirs, if the link is cut and that is new.
fn push_heir_link(
    made: &mut Vec<Link>,
    register: &Register,
    heirs: &Heirs<'_>,
    link: &Link,
) -> Result<(), AllocError>
    requires rows { rows_in heirs.now ≡ rows register.now.ops }
    requires heirs { AreHeirs heirs.now }
    ensures { OnOk result ((l : OneLink) → Contains made.new.items l ↔ (Contains made.old.items l ⊎ PassesTo (link.now ∷ []) register.now.ops l)) }
{
    if !is_cut(register, link) {
        return Ok(());
    }
    let Some(heir) = heir_link(register, heirs, link) else {
        return Ok(());
    };
    if !is_new(register, &heir) {
        return Ok(());
    }
    made.push(heir)?;
    Ok(())
}

// The links of heirs, in any order.
fn heir_links_of(
    alloc: Global,
    register: &Register,
    heirs: &Heirs<'_>,
    before: &[Link],
) -> Result<Vec<Link>, AllocError>
    requires rows { rows_in heirs.now ≡ rows register.now.ops }
    requires heirs { AreHeirs heirs.now }
    ensures { IfOk result (λ made. (l : OneLink) → Contains made.items l ↔ PassesTo before.now register.now.ops l) }
{
    let mut made = Vec::new(alloc);
    let mut rest = before;
    while let Some((link, others)) = rest.split_first() {
        push_heir_link(&mut made, register, heirs, link)?;
        rest = others;
    }
    Ok(made)
}

// In order, each once.
fn distinct(links: Vec<Link>) -> Vec<Link>
    ensures { result.items ≡ set.items (set.from_list {R = link_cmp} links.items) }
{
    let mut made = links;
    made.sort_unstable();
    made.dedup();
    made
}

// Whether some link is cut.
fn some_cut(register: &Register, links: &[Link]) -> bool
    ensures { result ≡ list_any (is_cut register.now.ops) links.now }
{
    links.iter().any(|link| is_cut(register, link))
}

// The links of heirs.
fn heir_links(alloc: Global, register: &Register, before: &[Link]) -> Result<Vec<Link>, AllocError>
    ensures { IfOk result (λ links. AreHeirLinks before.now register.now.ops links.items) }
{
    if !some_cut(register, before) {
        return Ok(Vec::new(alloc));
    }
    let rows = rows(alloc, register)?;
    let heirs = heirs_among(alloc, &rows)?;
    let made = heir_links_of(alloc, register, &heirs, before)?;
    Ok(distinct(made))
}

// The effect of each link.
fn bodies_of(alloc: Global, links: &[Link]) -> Result<Vec<OpBody>, AllocError>
    ensures { IfOk result (λ bodies. bodies.items ≡ bodies_of links.now) }
{
    let mut bodies = Vec::with_capacity(alloc, links.len())?;
    for link in links {
        let Link { old, newer } = *link;
        bodies.push(OpBody::Supersede { old, newer })?;
    }
    Ok(bodies)
}

/// After a command, makes the links that pass on, all with the note: for each of these links before it that is cut, the link
/// of the heirs, if it is new.
pub fn pass_on(
    alloc: Global,
    office: &mut Office,
    before: &[Link],
    note: &str,
) -> Result<Passed, OfficeFault>
    ensures passed { IfOk result (λ p. PassesOn before.now office.old.register office.old.replica note.now office.new.register p.links.items p.ids.items) }
    ensures fault { IfErr result (λ f. IsNotPassedOn before.now office.old.register office.old.replica note.now f ⊎ (f ≡ fault.Memory)) }
    ensures replica { office.new.replica ≡ office.old.replica }
{
    let Ok(links) = heir_links(alloc, office.register(), before) else {
        return Err(OfficeFault::Memory);
    };
    let Ok(bodies) = bodies_of(alloc, &links) else {
        return Err(OfficeFault::Memory);
    };
    match office.make(alloc, &bodies, note) {
        Ok(ids) => Ok(Passed { links, ids }),
        Err(fault) => Err(fault),
    }
}
