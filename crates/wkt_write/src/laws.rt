//! The laws of tokens, and of reading back written texts.

ghost use Rattle.std.specs.Prelude.{◌≡◌, ℕ, ◌<◌, ◌^◌, List, true, decimal};
ghost use Rattle.crs_number.specs.Canonical.{canonical};
ghost use Rattle.crs_number.specs.declared.decimals.Decimal.{Decimal};
ghost use Rattle.crs_part.specs.declared.text.Text.{Text};
ghost use Rattle.wkt_tree.specs.declared.token.TokenKind.TheVariants.{Word, Number};
ghost use Rattle.wkt_tree.specs.Tokens.{quoted};
ghost use Rattle.wkt_grammar.specs.Bare.{Bare};
ghost use Rattle.wkt_grammar.specs.Render.{render, indented};
ghost use Rattle.wkt_write.specs.Reads.{ReadsAs};
ghost use Rattle.wkt_write.specs.WellFormed.{IsToken, IsText, WellFormed, is_name};

/// The laws of tokens: names, the canonical texts of decimals and counts, and quoted texts are tokens.
pub fn token_laws()
    ensures word { (name : List ℕ) → is_name name ≡ true → IsToken Word name }
    ensures number { (d : Decimal) → IsToken Number (canonical d.coefficient d.exponent) }
    ensures count { (n : ℕ) → n < 2 ^ 32 → IsToken Number (decimal n) }
    ensures text { (t : Text) → IsText (quoted t.bytes) }
{}

/// The laws of the texts of a tree whose leaves are tokens: each is read back as that tree.
pub fn reading_laws()
    ensures canonical { (t : Bare) → WellFormed 16 t → ReadsAs (render t) t }
    ensures indented { (t : Bare) → WellFormed 16 t → ReadsAs (indented t) t }
{}
