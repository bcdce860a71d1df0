//! Entries with the same text under the same key.

ghost use Rattle.std.specs.Prelude.{◌≡◌, filter, map, not, option_map, IfOk};
ghost use Rattle.std.specs.Ordering.{is_lt};
ghost use Rattle.reg_report.specs.Conflicts.{bytes_of, key_cmp};
ghost use Rattle.reg_report.specs.Contenders.{conflict_seen};
ghost use Rattle.reg_page.specs.declared.described.Described.{Described as OneDescribed};
ghost use Rattle.reg_page.specs.Descriptions.{at};
ghost use Rattle.reg_page.specs.Page.{is_in_conflict, AscendByKey};
ghost use Rattle.reg_page.specs.SameTexts.{text_cmp, has_same_text, first_id, same_text_in, AscendByText};

use crate::described::Described;
use reg_report::Conflict;
use std::alloc::AllocError;
use std::cmp::Ordering;

fn compare_texts(left: &Described, right: &Described) -> Ordering
    ensures { result ≡ text_cmp left.now right.now }
{
    let (mine, its) = (left.key.get(), right.key.get());
    left.system
        .text
        .as_slice()
        .cmp(right.system.text.as_slice())
        .then(
            mine.authority
                .as_bytes()
                .cmp(its.authority.as_bytes())
                .then(mine.code.as_bytes().cmp(its.code.as_bytes())),
        )
}

/// The entries by text. Those with the same text and key stay in their order.
pub fn by_text<'a>(entries: Vec<&'a Described>) -> Result<Vec<&'a Described>, AllocError>
    ensures sorted { IfOk result (λ made. AscendByText made.items) }
    ensures same { IfOk result (λ made. (t : OneDescribed) → filter (has_same_text t) (at made.items) ≡ filter (has_same_text t) (at entries.entry.items)) }
{
    let mut made = entries;
    made.sort_by(|left, right| compare_texts(left, right))?;
    Ok(made)
}

fn is_below(other: &Described, one: &Described) -> bool
    ensures { result ≡ is_lt (text_cmp other.now one.now) }
{
    compare_texts(other, one).is_lt()
}

fn is_up_to(other: &Described, one: &Described) -> bool
    ensures { result ≡ not (is_lt (text_cmp one.now other.now)) }
{
    !compare_texts(one, other).is_lt()
}

fn first_of<'a>(entries: &[&'a Described]) -> Option<&'a Described>
    ensures { option_map (λ t. t.now.id) result ≡ first_id (at entries.now) }
{
    match entries.split_first() {
        Some((first, _)) => Some(*first),
        None => None,
    }
}

/// The first of the entries that has the text and the key of this one.
pub fn same_text<'a>(sorted: &[&'a Described], one: &Described) -> Option<&'a Described>
    requires { AscendByText sorted.now }
    ensures { option_map (λ t. t.now.id) result ≡ same_text_in (at sorted.now) one.now }
{
    let low = sorted.partition_point(|other| is_below(other, one));
    let rest = &sorted[low..];
    let count = rest.partition_point(|other| is_up_to(other, one));
    first_of(&rest[..count])
}

fn compare_keys(each: &Conflict, one: &Described) -> Ordering
    ensures { result ≡ key_cmp (conflict_seen each.now).key (bytes_of one.now.key) }
{
    let key = one.key.get();
    each.authority
        .as_bytes()
        .cmp(key.authority.as_bytes())
        .then(each.code.as_bytes().cmp(key.code.as_bytes()))
}

/// Whether the key of an entry is in conflict.
pub fn is_in_conflict(conflicts: &[Conflict], one: &Described) -> bool
    requires { AscendByKey conflicts.now }
    ensures { result ≡ is_in_conflict (map conflict_seen conflicts.now) one.now }
{
    match conflicts.binary_search_by(|each| compare_keys(each, one)) {
        Ok(_) => true,
        Err(_) => false,
    }
}
