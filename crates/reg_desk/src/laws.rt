//! The laws of settling, of imports and of logs. The functions do nothing: their contracts are the laws.

ghost use Rattle.std.specs.Prelude.{◌≡◌, ◌≢◌, ◌↔◌, ◌⊎◌, ℕ, true, List, [], ◌∷◌, Contains, Option, Some, Ok};
ghost use Rattle.byte_io.specs.Device.{SourceState};
ghost use Rattle.reg_op.specs.Ids.{Id};
ghost use Rattle.reg_op.specs.Contents.{Content, joined, nothing, IsContent};
ghost use Rattle.reg_op.specs.Rows.{Row, rows, IsInConflict};
ghost use Rattle.reg_op.specs.declared.status.Status.TheVariants.{Superseded, Retired};
ghost use Rattle.reg_op.specs.Status.{enters, retires, status};
ghost use Rattle.reg_office.specs.declared.fault.OfficeFault.TheVariants as office;
ghost use Rattle.reg_report.specs.Conflicts.{KeyBytes, HasKey};
ghost use Rattle.reg_report.specs.Exports.{export};
ghost use Rattle.reg_disorder.specs.Links.{is_linked};
ghost use Rattle.reg_disorder.specs.LinkHeirs.{IsHeir};
ghost use Rattle.reg_disorder.specs.Law.{IsHeirOfBoth, WasAwaited};
ghost use Rattle.reg_disorder.specs.declared.linking.link.Link.{Link};
ghost use Rattle.reg_import.specs.declared.reading.ReadText.{ReadText};
ghost use Rattle.reg_import.specs.declared.action.TextAction.{TextAction};
ghost use Rattle.reg_desk.specs.ImportLinks.{ImportsLinked};
ghost use Rattle.reg_disorder.specs.Retiring.{RetiresFor};
ghost use Rattle.reg_disorder.specs.Settling.{IsSettled};
ghost use Rattle.reg_disorder.specs.Doubles.{AreDoubles, HasLesser};
ghost use Rattle.reg_import.specs.declared.action.Differs.TheVariants.{Beside};
ghost use Rattle.reg_import.specs.Again.{HasStanding, RetiresNoneAhead};
ghost use Rattle.reg_keys.specs.Told.{TellOf};
ghost use Rattle.reg_engine.specs.declared.fault.Refusal.TheVariants as refusal;
ghost use Rattle.reg_engine.specs.declared.fault.CliFault.{CliFault};
ghost use Rattle.reg_engine.specs.declared.fault.CliFault.TheVariants as cli;
ghost use Rattle.reg_desk.specs.declared.import.options.ImportOptions.{ImportOptions};
ghost use Rattle.reg_desk.specs.declared.import.fault.Unimported.{Unimported};
ghost use Rattle.reg_desk.specs.ImportFiles.{GiveAll};
ghost use Rattle.reg_import.specs.declared.reading.FileText.{FileText};
ghost use Rattle.reg_desk.specs.ImportTexts.{TextAt, HaveTexts};
ghost use Rattle.reg_desk.specs.Import.{IsPlain, IsUnmadeOf, IsUnmade, IsReady};
ghost use Rattle.reg_desk.specs.Logged.{LogsOf, CannotLog, LogsFor, CannotLogFor};

/// After an office has retired the entries that settling lists, no key of a kept entry is in conflict.
pub fn kept_keys_are_settled()
    ensures { (x y : Content) (replica note : List ℕ) (keeps ids made : List Id) (keep : Row) (key : KeyBytes) → IsContent x
        → IsSettled (rows x.ops) keeps ids → RetiresFor x replica note ids y made
        → Contains (rows x.ops) keep → Contains keeps keep.entry → HasKey keep.definition key → ¬ (IsInConflict HasKey (rows y.ops) key) }
{}

/// After an office has retired all doubles, no two entries that are not retired have the same text.
pub fn texts_stand_once()
    ensures { (x y : Content) (replica note : List ℕ) (ids made : List Id) (one other : Row) → IsContent x
        → AreDoubles (rows x.ops) ids → RetiresFor x replica note ids y made
        → Contains (rows y.ops) one → Contains (rows y.ops) other → one.status ≢ Some Retired → other.status ≢ Some Retired
        → one.definition ≡ other.definition → one.entry ≡ other.entry }
{}

/// Two offices that have retired the same entries retire the doubles of their registers, each without the other, and then
/// join. An entry of both registers together that is not retired, and is the least of its text, is not retired then.
pub fn the_least_stays()
    ensures { (x y both xs ys z : Content) (replica other note remark : List ℕ) (ids others made more : List Id) (one : Row) → IsContent x → IsContent y
        → joined x y ≡ Ok both → ((e : Id) → retires x.ops e ≡ retires y.ops e)
        → AreDoubles (rows x.ops) ids → RetiresFor x replica note ids xs made
        → AreDoubles (rows y.ops) others → RetiresFor y other remark others ys more → joined xs ys ≡ Ok z
        → Contains (rows both.ops) one → one.status ≢ Some Retired → ¬ (HasLesser (rows both.ops) one)
        → (enters z.ops one.entry ≡ true) × (status z.ops one.entry ≢ Some Retired) }
{}

/// After settling, one entry that is not retired is superseded by another exactly if they are the heirs of two entries for which this
/// was so before; and the heir of an entry that was superseded is superseded, unless both had one heir.
pub fn settling_keeps_links()
    ensures same { (x y : Content) (replica note : List ℕ) (ids made : List Id) (a b : Id) (s : RetiresFor x replica note ids y made)
        → IsContent x → a ≢ b → (is_linked y.ops a b ≡ true) ↔ IsHeirOfBoth x s.between a b }
    ensures superseded { (x y : Content) (replica note : List ℕ) (ids made : List Id) (old newer a b : Id) (s : RetiresFor x replica note ids y made)
        → is_linked x.ops old newer ≡ true → IsHeir s.between.ops old a → IsHeir s.between.ops newer b → a ≢ b → status y.ops a ≡ Some Superseded }
{}

/// An import makes the links of heirs: one entry that was not retired is superseded by another; then this is so of their heirs
/// afterwards, unless both have one heir. No other link is there, apart from those whose entries came with the import.
pub fn importing_keeps_links()
    ensures passes { (o : ImportOptions) (x y : Content) (readings : List ReadText) (ts : List TextAction) (links : List Link) (old newer a b : Id) (l : ImportsLinked o x readings y ts links)
        → is_linked x.ops old newer ≡ true → IsHeir l.between.ops old a → IsHeir l.between.ops newer b → a ≢ b → is_linked y.ops a b ≡ true }
    ensures superseded { (o : ImportOptions) (x y : Content) (readings : List ReadText) (ts : List TextAction) (links : List Link) (old newer a b : Id) (l : ImportsLinked o x readings y ts links)
        → is_linked x.ops old newer ≡ true → IsHeir l.between.ops old a → IsHeir l.between.ops newer b → a ≢ b → status y.ops a ≡ Some Superseded }
    ensures no_other { (o : ImportOptions) (x y : Content) (readings : List ReadText) (ts : List TextAction) (links : List Link) (a b : Id) (l : ImportsLinked o x readings y ts links)
        → is_linked y.ops a b ≡ true → IsHeirOfBoth x l.between a b ⊎ WasAwaited x a b }
{}

/// The same files, imported again in the same mode into the register that their import made, make nothing: whatever the office,
/// the note and the other options are. The second import is refused only for a long note or for memory.
pub fn the_same_files_make_nothing()
    ensures nothing { (o p : ImportOptions) (m n : ℕ) (x y z : Content) (a b c d : List SourceState) (files : List (List ℕ)) (lines others : List ℕ) (passed skipped : Option Unimported)
        → IsContent x → RetiresNoneAhead x o.replica → p.differs ≡ o.differs → p.keep_going ≡ o.keep_going → GiveAll a b files → GiveAll c d files
        → IsReady o m x a b y lines passed → IsReady p n y c d z others skipped → z ≡ y }
    ensures passes { (o p : ImportOptions) (m n : ℕ) (x y : Content) (a b : List SourceState) (files : List (List ℕ)) (lines : List ℕ) (passed : Option Unimported) (u : Unimported)
        → IsContent x → RetiresNoneAhead x o.replica → p.differs ≡ o.differs → p.keep_going ≡ o.keep_going → GiveAll a b files
        → IsReady o m x a b y lines passed → IsUnmade p n y files u
        → IsPlain (λ f. (f ≡ cli.Refused (refusal.Office office.NoteTooLong)) ⊎ (f ≡ cli.Memory)) u }
{}

/// The texts after the first refused one need not be read: whatever their readings are, the fault is that of all texts of the files.
pub fn the_first_refused_text_is_told()
    ensures { (o : ImportOptions) (first : ℕ) (x : Content) (files : List (List ℕ)) (cuts : List TextAt) (texts : List FileText) (u : Unimported) → HaveTexts files cuts texts
        → IsUnmade o first x files u → IsPlain (λ f. f ≡ cli.Memory) u ⊎ IsUnmadeOf o first x files cuts texts u }
{}

/// The file that `Export` prints of a register, imported in mode `beside` into an empty one, gives a register with the same texts.
/// No text is refused.
pub fn an_exported_file_is_imported()
    ensures same { (o : ImportOptions) (first : ℕ) (x y : Content) (a b : List SourceState) (lines : List ℕ) (passed : Option Unimported) → IsContent x → o.differs ≡ Beside
        → GiveAll a b (export x.ops ∷ []) → IsReady o first nothing a b y lines passed → (text : List ℕ) → HasStanding y.ops text ↔ HasStanding x.ops text }
    ensures passes { (o : ImportOptions) (first : ℕ) (x : Content) (u : Unimported) → IsContent x → o.differs ≡ Beside → IsUnmade o first nothing (export x.ops ∷ []) u
        → IsPlain (λ f. (f ≡ cli.Refused (refusal.Office office.NoteTooLong)) ⊎ ((f ≡ cli.Refused (refusal.Office office.CountSpent)) ⊎ (f ≡ cli.Memory))) u }
{}

/// With words that select entries, the log is that of the entries, and it is refused for the reasons for which that of the
/// entries is refused.
pub fn a_log_of_words_is_that_of_their_entries()
    ensures logs { (words : List (List ℕ)) (x : Content) (entries : List Id) (text : List ℕ) → TellOf (rows x.ops) words entries
        → LogsFor words x text ↔ LogsOf entries x text }
    ensures refuses { (words : List (List ℕ)) (x : Content) (entries : List Id) (fault : CliFault) → TellOf (rows x.ops) words entries
        → CannotLogFor words x fault ↔ CannotLog entries x fault }
{}
