//! The commands `export --geojson`, `export --proj-sql`, `export --csv` and `graph`.

ghost use Rattle.std.specs.Prelude.{◌≡◌, ◌⊎◌, ℕ, List, map, IfOk, OnOk, IfErr};
ghost use Rattle.byte_io.specs.Whole.{WritesAll};
ghost use Rattle.reg_report.specs.Seen.{row_seen};
ghost use Rattle.reg_engine.specs.Store.{IsPrinted};
ghost use Rattle.reg_texts.specs.KeySheet.{IsKeySheet};
ghost use Rattle.reg_export.specs.declared.formats.Format.TheVariants as format;
ghost use Rattle.reg_export.specs.Stopped.{IsNoText, CannotHand};
ghost use Rattle.reg_export.specs.Kept.{row_at};
ghost use Rattle.reg_export.specs.Handed.{IsTextIn, IsHanded, HandsText, StopsIn, IsHalfHanded, StopsHanding, IsUnhanded};

use crate::choice::{Choice, found_for};
use crate::chosen::uncontested;
use crate::geojson::write_geojson;
use crate::graph::graph_text;
use crate::keep::pass;
use crate::proj_sql::write_proj_sql;
use byte_io::{Sink, write_all};
use csv_table::offices::Name;
use reg_engine::{CliFault, OutFault, Print, Store};
use reg_op::OpId;
use reg_report::Row;
use reg_state::Register;
use reg_texts::sheet_of_keys;
use std::alloc::{AllocError, Global};

/// How entries are handed on.
#[derive(Clone, Copy, Debug, PartialEq, Eq)]
pub enum Format {
    /// As a collection of features.
    Geojson,
    /// As statements for an auxiliary database of PROJ; those for entries of EPSG only with `all`.
    ProjSql { all: bool },
    /// As a row for each key.
    Csv,
}

// Writes the sheet of the keys of these rows.
fn write_sheet<K: Sink>(
    alloc: Global,
    register: &Register,
    rows: &[&Row],
    sink: &mut K,
) -> Result<(), CliFault>
    ensures written { OnOk result ((text : List ℕ) × IsKeySheet register.now (map row_at rows.now) text × WritesAll text (K.state sink.old) (K.state sink.new)) }
    ensures fault { IfErr result (StopsIn format.Csv register.now (map row_at rows.now) (K.state sink.old) (K.state sink.new)) }
{
    let text = match sheet_of_keys(alloc, register, rows) {
        Ok(text) => text,
        Err(_) => return Err(CliFault::Memory),
    };
    match write_all(sink, &text) {
        Ok(()) => Ok(()),
        Err(fault) => Err(CliFault::Out(OutFault::WriteFailed(fault.written))),
    }
}

// Writes the text of these rows.
fn write_in<K: Sink>(
    alloc: Global,
    format: Format,
    register: &Register,
    rows: &[&Row],
    sink: &mut K,
) -> Result<(), CliFault>
    ensures written { OnOk result ((text : List ℕ) × IsTextIn format register.now (map row_at rows.now) text × WritesAll text (K.state sink.old) (K.state sink.new)) }
    ensures fault { IfErr result (StopsIn format register.now (map row_at rows.now) (K.state sink.old) (K.state sink.new)) }
{
    match format {
        Format::Geojson => match write_geojson(alloc, rows, sink) {
            Ok(()) => Ok(()),
            Err(fault) => Err(fault),
        },
        Format::ProjSql { all } => match write_proj_sql(alloc, rows, all, sink) {
            Ok(()) => Ok(()),
            Err(fault) => Err(fault),
        },
        Format::Csv => match write_sheet(alloc, register, rows, sink) {
            Ok(()) => Ok(()),
            Err(fault) => Err(fault),
        },
    }
}

// Writes the text of the rows whose keys have one text. If there are other keys, it is refused, unless they may be left out. The answer
// is the least entry of the least of these keys.
fn write_found<K: Sink>(
    alloc: Global,
    format: Format,
    register: &Register,
    found: &[Row],
    keep_going: bool,
    sink: &mut K,
) -> Result<Option<OpId>, CliFault>
    ensures ok { IfOk result (λ taken. (text : List ℕ) × IsHanded format register.now keep_going (map row_seen found.now) taken text × WritesAll text (K.state sink.old) (K.state sink.new)) }
    ensures fault { IfErr result (λ f. (IsNoText keep_going (map row_seen found.now) f × (K.state sink.new ≡ K.state sink.old))
        ⊎ IsHalfHanded format register.now keep_going (map row_seen found.now) (K.state sink.old) (K.state sink.new) f) }
{
    let chosen = match uncontested(alloc, found) {
        Ok(chosen) => chosen,
        Err(_) => return Err(CliFault::Memory),
    };
    if let Err(fault) = pass(keep_going, chosen.taken) {
        return Err(fault);
    }
    match write_in(alloc, format, register, &chosen.rows, sink) {
        Ok(()) => Ok(chosen.taken),
        Err(fault) => Err(fault),
    }
}

// Writes the text of the chosen entries.
fn write_chosen<K: Sink>(
    alloc: Global,
    format: Format,
    register: &Register,
    choice: &Choice<'_>,
    keep_going: bool,
    sink: &mut K,
) -> Result<Option<OpId>, CliFault>
    ensures ok { IfOk result (λ taken. (text : List ℕ) × HandsText format choice.now keep_going taken register.now text × WritesAll text (K.state sink.old) (K.state sink.new)) }
    ensures fault { IfErr result (λ f. (CannotHand choice.now keep_going register.now f × (K.state sink.new ≡ K.state sink.old))
        ⊎ StopsHanding format choice.now keep_going register.now (K.state sink.old) (K.state sink.new) f) }
{
    let found = match found_for(alloc, register, choice) {
        Ok(found) => found,
        Err(_) => return Err(CliFault::Memory),
    };
    match write_found(alloc, format, register, &found, keep_going, sink) {
        Ok(taken) => Ok(taken),
        Err(fault) => Err(fault),
    }
}

/// Loads the register, and writes the text of the chosen entries to the sink. With `keep_going`, keys with two texts are left out,
/// and the answer names the least entry of the least such key. Features and statements are made and written in turn.
pub fn run_handed<T: Store, K: Sink>(
    alloc: Global,
    store: &mut T,
    format: Format,
    choice: &Choice<'_>,
    keep_going: bool,
    sink: &mut K,
) -> Result<Option<OpId>, CliFault>
    ensures same { T.same store.old store.new }
    ensures printed { IfOk result (λ taken. IsPrinted (T.around store.old store.new) (HandsText format choice.now keep_going taken) (K.state sink.old) (K.state sink.new)) }
    ensures fault { IfErr result (IsUnhanded (T.around store.old store.new) format choice.now keep_going (K.state sink.old) (K.state sink.new)) }
{
    let register = match store.load(alloc) {
        Ok(register) => register,
        Err(fault) => return Err(fault),
    };
    match write_chosen(alloc, format, &register, choice, keep_going, sink) {
        Ok(taken) => Ok(taken),
        Err(fault) => Err(fault),
    }
}

/// Prints the graph of a register: of all its entries, or of those that have an edge or are in conflict, with names of offices.
#[derive(Drop)]
pub struct Graph<'a> {
    pub all: bool,
    pub names: &'a [Name],
}

impl Print for Graph<'_> {
    ghost use Rattle.reg_engine.specs.Store.{Never};
    ghost use Rattle.reg_export.specs.Graph.{IsGraph};

    ghost prints = { λ c. λ x. λ text. IsGraph c.all c.names.now x text };

    ghost refuses = { λ c. λ x. λ f. Never x f };

    fn text(&self, alloc: Global, register: &Register) -> Result<Vec<u8>, CliFault> {
        match graph_text(alloc, register, self.all, self.names) {
            Ok(text) => Ok(text),
            Err(_) => Err(CliFault::Memory),
        }
    }
}
