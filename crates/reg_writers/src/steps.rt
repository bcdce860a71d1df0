//! Each call of a place is an event of the model. The functions do nothing: their contracts are the laws.

ghost use Rattle.std.specs.Prelude.{◌≡◌, ℕ, List, ◌∷◌, [], Some, None, Ok, Err, length};
ghost use Rattle.std.specs.declared.result.Result.{Result};
ghost use Rattle.byte_io.specs.declared.fault.DeviceFault.{DeviceFault};
ghost use Rattle.byte_io.specs.declared.fault.NotOpened.{NotOpened};
ghost use Rattle.byte_io.specs.declared.fault.WriteFault.{WriteFault};
ghost use Rattle.byte_out.specs.declared.fault.MakeFault.{MakeFault};
ghost use Rattle.byte_out.specs.declared.fault.CompareFault.{CompareFault};
ghost use Rattle.byte_out.specs.declared.fault.PutFault.{PutFault};
ghost use Rattle.byte_out.specs.Place.{Files, IsMade, IsFilled, IsSynced as IsSyncedBy, IsCompared, IsPut, IsLanded, IsRemoved};
ghost use Rattle.reg_writers.specs.Path.{Content, World, HasRead, Writes, IsSynced, FoundSame, Withdraws, Replaced, Ended, Goes, Fails, Fills, happens, after};
ghost use Rattle.reg_writers.specs.Steps.{IsAt, IsReached, make_event, make_stage, compare_event, compare_stage};

/// A command that has read OUT makes OUT.new, or ends without a change.
pub fn making_is_a_step<T>()
    ensures { (change : ℕ → Content → List ℕ) (w : World) (k : ℕ) (x : Content) (f g : Files) (r : Result T MakeFault) →
        IsAt w k (HasRead x) f → IsMade r f g → IsAt (happens change w (make_event k r)) k (make_stage x r) g }
{}

/// It writes all its bytes to the empty OUT.new.
pub fn writing_is_a_step<T>()
    ensures { (change : ℕ → Content → List ℕ) (w : World) (k : ℕ) (x : Content) (f g : Files) (t : T) →
        IsReached change w → IsAt w k (Writes x) f → f.beside ≡ Some [] → IsFilled (Ok t) (change k x) f g →
        IsAt (happens change w (Fills k (length (change k x)))) k (Writes x) g }
{}

/// It syncs OUT.new, which has all its bytes.
pub fn syncing_is_a_step<T, E>()
    ensures { (change : ℕ → Content → List ℕ) (w : World) (k : ℕ) (x : Content) (f g : Files) (r : Result T E) (t : T) →
        IsReached change w → IsAt w k (Writes x) f → f.beside ≡ Some (change k x) → r ≡ Ok t → IsSyncedBy r f g →
        IsAt (happens change w (Goes k)) k (IsSynced x) g }
{}

/// It compares OUT with the bytes that it read; if it cannot, it still has to remove the new file.
pub fn comparing_is_a_step<T>()
    ensures { (change : ℕ → Content → List ℕ) (w : World) (k : ℕ) (read : List ℕ) (f g : Files) (r : Result T CompareFault) →
        IsAt w k (IsSynced (Some read)) f → IsCompared r read f g →
        IsAt (happens change w (compare_event k r)) k (compare_stage (Some read) r) g }
{}

/// It renames OUT.new to OUT; if that fails, it still has to remove OUT.new.
pub fn putting_is_a_step<T>()
    ensures ok { (change : ℕ → Content → List ℕ) (w : World) (k : ℕ) (x : Content) (f g : Files) (r : Result T PutFault) (t : T) →
        IsReached change w → IsAt w k (FoundSame x) f → r ≡ Ok t → IsPut r f g → IsAt (happens change w (Goes k)) k (Replaced x) g }
    ensures fault { (change : ℕ → Content → List ℕ) (w : World) (k : ℕ) (x : Content) (f g : Files) (r : Result T PutFault) (e : PutFault) →
        IsAt w k (FoundSame x) f → r ≡ Err e → IsPut r f g → IsAt (happens change w (Fails k)) k Withdraws g }
{}

/// To sync the folder is no event.
pub fn landing_is_no_step<T, E>()
    ensures { (w : World) (k : ℕ) (x : Content) (f g : Files) (r : Result T E) →
        IsAt w k (Replaced x) f → IsLanded r f g → IsAt w k (Replaced x) g }
{}

/// It removes OUT.new.
pub fn removing_is_a_step()
    ensures { (change : ℕ → Content → List ℕ) (w : World) (k : ℕ) (f g : Files) →
        IsAt w k Withdraws f → IsRemoved f g → g.beside ≡ None → IsAt (happens change w (Goes k)) k Ended g }
{}

/// If its bytes cannot be written, it removes OUT.new.
pub fn failing_is_two_steps<T>()
    ensures { (change : ℕ → Content → List ℕ) (w : World) (k : ℕ) (x : Content) (f g h : Files) (r : Result T WriteFault) (e : WriteFault) →
        IsAt w k (Writes x) f → r ≡ Err e → IsFilled r (change k x) f g → IsRemoved g h → h.beside ≡ None →
        IsAt (after change (Fails k ∷ Goes k ∷ []) w) k Ended h }
{}
