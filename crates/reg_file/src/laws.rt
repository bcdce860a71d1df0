//! The laws of files and their contents. The functions do nothing: their contracts are the laws.

ghost use Rattle.std.specs.Prelude.{◌≡◌, ◌↔◌, ℕ, List, Some, None};
ghost use Rattle.reg_op.specs.Ids.{Id, Ids};
ghost use Rattle.reg_op.specs.Operations.{Ops};
ghost use Rattle.reg_op.specs.Contents.{Content, IsContent};
ghost use Rattle.reg_op.specs.Pieces.{Piece, IsPiece};
ghost use Rattle.reg_state.specs.Runs.{AllIds};
ghost use Rattle.reg_file.specs.declared.fault.FileFault.{FileFault};
ghost use Rattle.reg_file.specs.Reading.{HasFault, HasPartFault, HasPieceFault, HasSeenFault};
ghost use Rattle.reg_file.specs.Files.{AreUnnoted, Holds, HoldsFirst, HoldsFirstPiece, HoldsFirstSeen, HoldsPiece, HoldsSeen, IsFileIn, IsLeastNoted, IsPieceFileIn, IsSeenFileIn, ReadsAs, ReadsAsPiece, ReadsAsSeen, first_noted};

/// A file of either version has one content, a summary one set of ids, and a piece's file one piece.
pub fn one_content()
    ensures register { (bytes : List ℕ) (x y : Content) → ReadsAs bytes x → ReadsAs bytes y → x ≡ y }
    ensures seen { (bytes : List ℕ) (x y : Ids) → ReadsAsSeen bytes x → ReadsAsSeen bytes y → x ≡ y }
    ensures piece { (bytes : List ℕ) (p q : Piece) → ReadsAsPiece bytes p → ReadsAsPiece bytes q → p ≡ q }
{}

/// No bytes are files of both versions.
pub fn one_version()
    ensures register { (bytes : List ℕ) (x y : Content) → Holds bytes x → HoldsFirst bytes y → ⊥ }
    ensures seen { (bytes : List ℕ) (x y : Ids) → HoldsSeen bytes x → HoldsFirstSeen bytes y → ⊥ }
    ensures piece { (bytes : List ℕ) (p q : Piece) → HoldsPiece bytes p → HoldsFirstPiece bytes q → ⊥ }
{}

/// A content has one file in a version, and so have the ids that were seen, and a piece.
pub fn one_file()
    ensures register { (version : ℕ) (x : Content) (bytes others : List ℕ) → IsFileIn version x bytes → IsFileIn version x others → bytes ≡ others }
    ensures seen { (version : ℕ) (ids : Ids) (bytes others : List ℕ) → IsSeenFileIn version ids bytes → IsSeenFileIn version ids others → bytes ≡ others }
    ensures piece { (version : ℕ) (p : Piece) (bytes others : List ℕ) → IsPieceFileIn version p bytes → IsPieceFileIn version p others → bytes ≡ others }
{}

/// Each content has a file in a version, and so have all ids, and each piece.
pub fn each_has_a_file()
    ensures register { (version : ℕ) (x : Content) → IsContent x → (bytes : List ℕ) × IsFileIn version x bytes }
    ensures seen { (version : ℕ) (ids : Ids) → AllIds ids → (bytes : List ℕ) × IsSeenFileIn version ids bytes }
    ensures piece { (version : ℕ) (p : Piece) → IsPiece p → (bytes : List ℕ) × IsPieceFileIn version p bytes }
{}

/// Bytes that are a file of a kind have no fault of that kind.
pub fn held_or_fault()
    ensures register { (bytes : List ℕ) (x : Content) (f : FileFault) (place : ℕ) → ReadsAs bytes x → HasFault bytes f place → ⊥ }
    ensures seen { (bytes : List ℕ) (ids : Ids) (f : FileFault) (place : ℕ) → ReadsAsSeen bytes ids → HasSeenFault bytes f place → ⊥ }
    ensures piece { (bytes : List ℕ) (p : Piece) (f : FileFault) (place : ℕ) → ReadsAsPiece bytes p → HasPieceFault bytes f place → ⊥ }
    // Bytes that are read as a register or as a piece, whichever they are, have no fault as a part either.
    ensures part_register { (bytes : List ℕ) (x : Content) (f : FileFault) (place : ℕ) → ReadsAs bytes x → HasPartFault bytes f place → ⊥ }
    ensures part_piece { (bytes : List ℕ) (p : Piece) (f : FileFault) (place : ℕ) → ReadsAsPiece bytes p → HasPartFault bytes f place → ⊥ }
{}

/// Bytes have at most one first fault of a kind, at one place.
pub fn one_first_fault()
    ensures register { (bytes : List ℕ) (f g : FileFault) (m n : ℕ) → HasFault bytes f m → HasFault bytes g n → (f ≡ g) × (m ≡ n) }
    ensures seen { (bytes : List ℕ) (f g : FileFault) (m n : ℕ) → HasSeenFault bytes f m → HasSeenFault bytes g n → (f ≡ g) × (m ≡ n) }
    ensures piece { (bytes : List ℕ) (f g : FileFault) (m n : ℕ) → HasPieceFault bytes f m → HasPieceFault bytes g n → (f ≡ g) × (m ≡ n) }
    ensures part { (bytes : List ℕ) (f g : FileFault) (m n : ℕ) → HasPartFault bytes f m → HasPartFault bytes g n → (f ≡ g) × (m ≡ n) }
{}

/// No bytes are files of two kinds.
pub fn one_kind()
    ensures register_or_seen { (bytes : List ℕ) (x : Content) (ids : Ids) → ReadsAs bytes x → ReadsAsSeen bytes ids → ⊥ }
    ensures register_or_piece { (bytes : List ℕ) (x : Content) (p : Piece) → ReadsAs bytes x → ReadsAsPiece bytes p → ⊥ }
    ensures seen_or_piece { (bytes : List ℕ) (ids : Ids) (p : Piece) → ReadsAsSeen bytes ids → ReadsAsPiece bytes p → ⊥ }
{}

/// `first_noted` is the least id of an operation with a note. If there is none, no operation has a note.
pub fn noted_is_least()
    ensures least { (s : Ops) (i : Id) → (first_noted s ≡ Some i) ↔ IsLeastNoted s i }
    ensures none { (s : Ops) → (first_noted s ≡ None) ↔ AreUnnoted s }
{}
