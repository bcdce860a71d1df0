//! The supersessions of entries that are not retired, by the entry that supersedes.

ghost use Rattle.std.specs.Prelude.{◌≡◌, ◌++◌, map, not, filter, IfOk, OnOk};
ghost use Rattle.std.specs.List.Sorted.{IsSorted};
ghost use Rattle.reg_op.specs.Ids.{is_before};
ghost use Rattle.reg_report.specs.Seen.{row_seen};
ghost use Rattle.reg_disorder.specs.Heirs.{link_cmp, link_to, is_of, AreLinks};

use reg_op::OpId;
use reg_report::Row;
use std::alloc::{AllocError, Global};

/// An entry, and one that it supersedes.
#[derive(Clone, Copy, PartialEq, Eq, PartialOrd, Ord)]
pub struct OlderLink {
    pub newer: OpId,
    pub old: OpId,
}

fn push_links(links: &mut Vec<OlderLink>, old: OpId, newer: &[OpId]) -> Result<(), AllocError>
    ensures { OnOk result (links.new.items ≡ links.old.items ++ map (link_to old) newer.now) }
{
    for id in newer {
        links.push(OlderLink { newer: *id, old })?;
    }
    Ok(())
}

/// The supersessions of the rows' entries, sorted.
pub fn links_of(alloc: Global, rows: &[Row]) -> Result<Vec<OlderLink>, AllocError>
    ensures sorted { IfOk result (λ links. IsSorted link_cmp links.items) }
    ensures links { IfOk result (λ links. AreLinks (map row_seen rows.now) links.items) }
{
    let mut links = Vec::new(alloc);
    for row in rows {
        push_links(&mut links, row.entry, &row.newer)?;
    }
    links.sort_unstable();
    Ok(links)
}

fn is_below(link: &OlderLink, newer: OpId) -> bool
    ensures { result ≡ is_before link.now.newer newer }
{
    link.newer.is_before(&newer)
}

fn is_up_to(link: &OlderLink, newer: OpId) -> bool
    ensures { result ≡ not (is_before newer link.now.newer) }
{
    !newer.is_before(&link.newer)
}

/// The supersessions by an entry, among sorted ones.
pub fn links_by(links: &[OlderLink], newer: OpId) -> &[OlderLink]
    requires { IsSorted link_cmp links.now }
    ensures { result.now ≡ filter (is_of newer) links.now }
{
    let low = links.partition_point(|link| is_below(link, newer));
    let rest = &links[low..];
    let count = rest.partition_point(|link| is_up_to(link, newer));
    &rest[..count]
}
