//! The laws of trees and values.

ghost use Rattle.std.specs.Prelude.{◌≡◌};
ghost use Rattle.crs_part.specs.declared.crs.CrsParts.{CrsParts};
ghost use Rattle.wkt_grammar.specs.declared.table.Takes.TheVariants as kinds;
ghost use Rattle.wkt_grammar.specs.Bare.{Bare};
ghost use Rattle.wkt_grammar.specs.SecondEdition.{Fitting};
ghost use Rattle.wkt_grammar.specs.Denotes.{DenotesParts};
ghost use Rattle.wkt_grammar.specs.FirstEdition.{FirstDenotesParts, NothingAdded};
ghost use Rattle.wkt_grammar.specs.Trees.{parts_tree};

/// A tree denotes at most one value.
pub fn one_value()
    ensures { (x : Bare) (v w : CrsParts) → DenotesParts x v → DenotesParts x w → v ≡ w }
{}

/// A tree that denotes a value has arguments that fit the rows of the second edition, at every level.
pub fn denoted_fits()
    ensures { (x : Bare) (v : CrsParts) → DenotesParts x v → Fitting kinds.AnyCrs x }
{}

/// The canonical tree of a value denotes it.
pub fn tree_denotes()
    ensures { (v : CrsParts) → DenotesParts (parts_tree v) v }
{}

/// A value that a tree denotes by the first edition it also denotes by the second, and the value uses nothing that the second
/// adds. Conversely, a value that uses nothing of that is denoted by the first edition too.
pub fn first_edition()
    ensures still { (x : Bare) (v : CrsParts) → FirstDenotesParts x v → DenotesParts x v × NothingAdded v }
    ensures before { (x : Bare) (v : CrsParts) → DenotesParts x v → NothingAdded v → FirstDenotesParts x v }
{}
