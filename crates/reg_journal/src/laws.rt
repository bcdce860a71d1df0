//! The laws of office files. The functions do nothing: their contracts are the laws.

ghost use Rattle.std.specs.Prelude.{◌≡◌, ◌≢◌, ◌+◌, ℕ, Bool, true, List, Some, Ok, length, slice_get};
ghost use Rattle.reg_op.specs.Set as set;
ghost use Rattle.reg_op.specs.Operations.{Op};
ghost use Rattle.reg_op.specs.declared.operation.OpBody.{OpBody as Body};
ghost use Rattle.reg_op.specs.Contents.{Content, IsContent, state, joined, merged};
ghost use Rattle.reg_op.specs.Lists.{has};
ghost use Rattle.reg_office.specs.Making.{greatest, made};
ghost use Rattle.reg_journal.specs.Journal.{Journal, IsOffice};
ghost use Rattle.reg_journal.specs.Text.{HoldsOffice, IsTextOf};
ghost use Rattle.reg_journal.specs.Standing.{IsHonest};
ghost use Rattle.reg_journal.specs.Adding.{added};
ghost use Rattle.reg_journal.specs.Journals.{Copy, Event, Makes, Takes, start, base, both, new_ops, happens, after, IsWithin};

/// Any number of offices, each with its own UUID and office file, after any list of events. A command may begin with any
/// register that was ever in a file, and may be stopped between its two writes. Nobody replaces an office file.
pub fn office_files_keep()
    // A register is the state of all operations that it reached, and so is the register in an office file.
    ensures content { (events : List Event) (place : ℕ) (c : Copy) →
        slice_get (after events start).copies place ≡ Some c → c.content ≡ state c.reached }
    ensures file { (events : List Event) (i : List ℕ) → ((after events start).files i).content ≡ state ((after events start).files i).reached }
    // What a register has of an office is in its office file, each operation as it was made: no command is refused as forged.
    ensures known { (events : List Event) (place : ℕ) (c : Copy) (o : Op) → let w = after events start in
        slice_get w.copies place ≡ Some c → set.contains c.reached o ≡ true → set.contains (w.files o.id.replica).reached o ≡ true }
    // So nobody's numbers are refused as forged, while nobody makes numbers in another's name.
    ensures honest { (events : List Event) (place : ℕ) (c : Copy) (f : Journal) → let w = after events start in
        slice_get w.copies place ≡ Some c → IsOffice f → f.made ≡ (w.files f.replica).content → IsHonest f c.content }
    // Any two registers join, and so does any register with any office file: no command ends in a clash.
    ensures no_clash { (events : List Event) (place other : ℕ) (c d : Copy) → let w = after events start in
        slice_get w.copies place ≡ Some c → slice_get w.copies other ≡ Some d → joined c.content d.content ≡ Ok (state (both c d)) }
    ensures goes_on { (events : List Event) (place : ℕ) (c : Copy) (i : List ℕ) → let w = after events start in
        slice_get w.copies place ≡ Some c → base w i c ≡ Ok (state (both c (w.files i))) }
    // An office gives only numbers that no register and no office file has, so it gives none twice, stopped commands included.
    ensures new_ids { (events : List Event) (place : ℕ) (c : Copy) (y : Content) (i j note : List ℕ) (effects : List Body) (os : List Op) (o p : Op) → let w = after events start in
        slice_get w.copies place ≡ Some c → base w i c ≡ Ok y → made y i note effects ≡ Ok os → has os o ≡ true
        → set.contains (w.files j).reached p ≡ true → p.id ≢ o.id }
    // A command that is not refused adds its operations to the office file, wherever it is stopped.
    ensures noted { (events : List Event) (place : ℕ) (c : Copy) (y : Content) (i note : List ℕ) (effects : List Body) (lands : Bool) (os : List Op) → let w = after events start in
        slice_get w.copies place ≡ Some c → base w i c ≡ Ok y → made y i note effects ≡ Ok os
        → ((happens w (Makes i place effects note lands)).files i).reached ≡ set.union (w.files i).reached (new_ops os) }
    // The register that it leaves has all that the office ever made.
    ensures left { (events : List Event) (place : ℕ) (c : Copy) (y : Content) (i note : List ℕ) (effects : List Body) (os : List Op) → let w = after events start in
        slice_get w.copies place ≡ Some c → base w i c ≡ Ok y → made y i note effects ≡ Ok os
        → let v = happens w (Makes i place effects note true) in
        (d : Copy) × (slice_get v.copies 0 ≡ Some d) × (d.content ≡ state d.reached) × IsWithin (v.files i).reached d.reached × IsWithin c.reached d.reached }
    // So has the register that an office leaves by taking another: what a stopped command made arrives.
    ensures caught_up { (events : List Event) (place other : ℕ) (c d : Copy) (i : List ℕ) → let w = after events start in
        slice_get w.copies place ≡ Some c → slice_get w.copies other ≡ Some d
        → (e : Copy) × (slice_get (happens w (Takes i place other)).copies 0 ≡ Some e) × (e.content ≡ state e.reached) × IsWithin (w.files i).reached e.reached × IsWithin c.reached e.reached }
    // What is in an office file stays in it.
    ensures grows { (events more : List Event) (i : List ℕ) → let w = after events start in
        IsWithin (w.files i).reached ((after more w).files i).reached }
{}

/// A text is the file of at most one office, and an office has exactly one text, of whatever length.
pub fn one_text()
    ensures one_office { (text : List ℕ) (f g : Journal) → HoldsOffice text f → HoldsOffice text g → f ≡ g }
    ensures one_text { (f : Journal) (text other : List ℕ) → IsTextOf f text → IsTextOf f other → text ≡ other }
    ensures each { (f : Journal) → IsOffice f → (text : List ℕ) × IsTextOf f text }
{}

/// An office with this file works on a register in which nobody gave a number in its name.
pub fn what_is_made_is_added()
    // That register joins the office's operations without a clash, and has then seen the last number, and none above it. So new
    // operations are numbered from the next one.
    ensures joins { (f : Journal) (x : Content) → IsOffice f → IsContent x → IsHonest f x → joined x f.made ≡ Ok (merged x f.made) }
    ensures next { (f : Journal) (x y : Content) → IsOffice f → IsContent x → IsHonest f x → joined x f.made ≡ Ok y → greatest f.replica y.seen ≡ f.last }
    // The office file gets exactly the operations of the command, each as it was made, and their numbers.
    ensures added { (f : Journal) (x y z : Content) (note : List ℕ) (effects : List Body) (os : List Op) → IsOffice f → IsContent x → IsHonest f x
        → joined x f.made ≡ Ok y → made y f.replica note effects ≡ Ok os → joined y (state (new_ops os)) ≡ Ok z
        → ((added f z).made ≡ merged f.made (state (new_ops os))) × ((added f z).last ≡ f.last + length effects) }
{}
