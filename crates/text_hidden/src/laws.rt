//! The laws of hidden characters. The functions do nothing: their contracts are the laws.

ghost use Rattle.std.specs.Prelude.{◌≡◌, ◌++◌, ◌-◌, ℕ, List, Bool, true};
ghost use Rattle.std.specs.Char.{IsScalar, encode_utf8, len_utf8};
ghost use Rattle.std.specs.Str.{all_scalars};
ghost use Rattle.text_hidden.specs.Bytes.{first_hidden, hidden_if};
ghost use Rattle.text_hidden.specs.Marks.{Marks, shown_all, hides_only};

/// The bytes of a character begin with a hidden character exactly if the character is hidden, whatever follows them.
pub fn bytes_are_read()
    ensures { (c : ℕ) (rest : List ℕ) → IsScalar c → first_hidden (encode_utf8 c ++ rest) ≡ hidden_if c (len_utf8 c - 1) }
{}

/// If each hidden character is shown as its mark, no character of what is shown is hidden, but those that are kept.
pub fn marks_hide_nothing()
    ensures { (marks kept : ℕ → Bool) (cs : List ℕ) → Marks marks kept → all_scalars cs ≡ true → hides_only kept (shown_all marks cs) ≡ true }
{}
