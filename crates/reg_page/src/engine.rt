//! The command `page`.

ghost use Rattle.std.specs.Prelude.{OnOk, IfErr};
ghost use Rattle.reg_engine.specs.Store.{IsPrinted};
ghost use Rattle.reg_page.specs.Page.{IsPage};
ghost use Rattle.reg_page.specs.Writing.{IsUnpaged};

use crate::page::print_page;
use byte_io::Sink;
use csv_table::offices::Name;
use reg_engine::{CliFault, Store};
use reg_lint::Rule;
use std::alloc::Global;

/// A page of HTML of a register, with this title, these names of offices, and what is asked by these rules.
#[derive(Drop)]
pub struct Page<'a> {
    pub title: &'a [u8],
    pub names: &'a [Name],
    pub rules: &'a [Rule],
}

/// Loads the register, and writes its page to the sink, in parts.
pub fn run_page<T: Store, K: Sink>(
    alloc: Global,
    store: &mut T,
    page: &Page<'_>,
    sink: &mut K,
) -> Result<(), CliFault>
    ensures same { T.same store.old store.new }
    ensures printed { OnOk result (IsPrinted (T.around store.old store.new) (IsPage page.now.rules.now page.now.title.now page.now.names.now) (K.state sink.old) (K.state sink.new)) }
    ensures fault { IfErr result (IsUnpaged (T.around store.old store.new) (IsPage page.now.rules.now page.now.title.now page.now.names.now) (K.state sink.old) (K.state sink.new)) }
{
    let register = match store.load(alloc) {
        Ok(register) => register,
        Err(fault) => return Err(fault),
    };
    match print_page(alloc, page.rules, &register, page.title, page.names, sink) {
        Ok(()) => Ok(()),
        Err(fault) => Err(fault),
    }
}
