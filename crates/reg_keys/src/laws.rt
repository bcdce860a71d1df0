//! The laws of words. The functions do nothing: their contracts are the laws.

ghost use Rattle.std.specs.Prelude.{◌≡◌, ℕ, List};
ghost use Rattle.reg_op.specs.Ids.{Id};
ghost use Rattle.reg_op.specs.Rows.{Row};
ghost use Rattle.reg_keys.specs.declared.fault.KeyFault.{KeyFault};
ghost use Rattle.reg_keys.specs.declared.fault.KeyFault.TheVariants.{Memory};
ghost use Rattle.reg_keys.specs.Named.{StandFor, Object};
ghost use Rattle.reg_keys.specs.Told.{TellOf, AreUntold};
ghost use Rattle.reg_keys.specs.Every.{StandForEvery, StandForEach, FailsAt};

/// Words name at most one list of entries. If they name one, they are refused only if memory runs out.
pub fn one_meaning()
    ensures entries { (rs : List Row) (words : List (List ℕ)) (es fs : List Id) → StandFor rs words es → StandFor rs words fs → es ≡ fs }
    ensures objection { (rs : List Row) (words : List (List ℕ)) (es : List Id) (f : KeyFault) → StandFor rs words es → Object rs words f → f ≡ Memory }
{}

/// The same for the entries that words select.
pub fn one_telling()
    ensures entries { (rs : List Row) (words : List (List ℕ)) (es fs : List Id) → TellOf rs words es → TellOf rs words fs → es ≡ fs }
    ensures untold { (rs : List Row) (words : List (List ℕ)) (es : List Id) (f : KeyFault) → TellOf rs words es → AreUntold rs words f → f ≡ Memory }
{}

/// The same for the entries that words stand for in commands that change entries.
pub fn one_standing()
    ensures every { (rs : List Row) (words : List (List ℕ)) (es fs : List Id) → StandForEvery rs words es → StandForEvery rs words fs → es ≡ fs }
    ensures each { (rs : List Row) (words : List (List ℕ)) (es fs : List Id) → StandForEach rs words es → StandForEach rs words fs → es ≡ fs }
    ensures every_fault { (rs : List Row) (words : List (List ℕ)) (es : List Id) (k : ℕ) (f : KeyFault) → StandForEvery rs words es → FailsAt rs 0 words k f → f ≡ Memory }
    ensures each_fault { (rs : List Row) (words : List (List ℕ)) (es : List Id) (k : ℕ) (f : KeyFault) → StandForEach rs words es → FailsAt rs 0 words k f → f ≡ Memory }
{}
