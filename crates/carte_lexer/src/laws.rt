//! What is true of texts and their tokens at large. Each law is the contract of a function that does nothing.
ghost use Rattle.std.specs.Prelude.{◌≡◌, ℕ, List, [], ◌∷◌, true, Ok};
ghost use Rattle.std.specs.List.{list_all};
ghost use Rattle.carte_name.specs.declared.kind.Kind.{Kind};
ghost use Rattle.carte_lexer.specs.Tokens.{Placed};
ghost use Rattle.carte_lexer.specs.Lexer.{is_blank, idle, lexed};
ghost use Rattle.carte_lexer.specs.Longest.{Begins};

/// A text's first token stands behind blanks alone and is the longest that fits, and what follows it is lexed anew.
#[tactic(auto, using(crate::proofs::Longest::first_token))]
pub fn lexes_longest()
    ensures { (q : Kind) (at : ℕ) (bytes : List ℕ) (p : Placed) (later : List Placed) → lexed q idle at bytes ≡ Ok (p ∷ later) → Begins q at bytes p later }
{}

/// A text without tokens is blank.
#[tactic(auto, using(crate::proofs::Longest::none_blank))]
pub fn lexes_blanks()
    ensures { (q : Kind) (at : ℕ) (bytes : List ℕ) → lexed q idle at bytes ≡ Ok [] → list_all is_blank bytes ≡ true }
{}
