ghost use Rattle.std.specs.Prelude.{◌≡◌, ℕ, List};
ghost use Rattle.gs_linktext_grammar.specs.Lexemes.{Lexed};
ghost use Rattle.gs_linktext_grammar.specs.declared.lexeme.Lexeme.{Lexeme};

/// States that a text has at most one list of lexemes.
pub fn one_lexing()
    ensures { (xs ys : List Lexeme) (text : List ℕ) → Lexed xs text → Lexed ys text → xs ≡ ys }
{}
