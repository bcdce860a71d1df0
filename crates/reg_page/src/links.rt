//! Links to other entries.

ghost use Rattle.std.specs.Prelude.{◌≡◌, option_copied, OnOk};
ghost use Rattle.html_page.specs.Pieces.{Appends};
ghost use Rattle.html_page.specs.Shown.{Entered, Awaited};
ghost use Rattle.html_page.specs.Templates.{link};
ghost use Rattle.reg_op.specs.Text.{printed};
ghost use Rattle.reg_page.specs.Descriptions.{AscendById};
ghost use Rattle.reg_page.specs.Page.{described_at, link_to, named};

use crate::described::Described;
use crate::names::read_for_id;
use csv_table::offices::Name;
use html_page::{push_awaited_link, push_link};
use reg_op::OpId;
use reg_report::printed;
use std::alloc::{AllocError, Global};

/// What the page shows of an entry, if it was entered.
pub fn described_at<'a>(described: &'a [Described], id: OpId) -> Option<&'a Described>
    requires { AscendById described.now }
    ensures { option_copied result ≡ described_at described.now id }
{
    match described.binary_search_by_key(&id, |one| one.id) {
        Ok(place) => Some(&described[place]),
        Err(_) => None,
    }
}

fn push_known(
    alloc: Global,
    page: &mut Vec<u8>,
    names: &[Name],
    one: &Described,
) -> Result<(), AllocError>
    ensures { OnOk result (Appends page.old.items page.new.items (link (named names.now) (Entered (printed one.now.id) one.now.key.authority.bytes one.now.key.code.bytes))) }
{
    let id = printed(alloc, one.id)?;
    let key = one.key.get();
    push_link(page, &id, key.authority.as_bytes(), key.code.as_bytes())?;
    Ok(())
}

fn push_unknown(
    alloc: Global,
    page: &mut Vec<u8>,
    names: &[Name],
    id: OpId,
) -> Result<(), AllocError>
    ensures { OnOk result (Appends page.old.items page.new.items (link (named names.now) (Awaited (printed id)))) }
{
    let read = read_for_id(alloc, names, id)?;
    push_awaited_link(page, &read)?;
    Ok(())
}

/// Appends a link to an entry, or its id if it was not entered.
pub fn push_link_to(
    alloc: Global,
    page: &mut Vec<u8>,
    names: &[Name],
    described: &[Described],
    id: OpId,
) -> Result<(), AllocError>
    requires { AscendById described.now }
    ensures { OnOk result (Appends page.old.items page.new.items (link (named names.now) (link_to described.now id))) }
{
    match described_at(described, id) {
        Some(one) => {
            push_known(alloc, page, names, one)?;
            Ok(())
        }
        None => {
            push_unknown(alloc, page, names, id)?;
            Ok(())
        }
    }
}
