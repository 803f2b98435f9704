//! The laws of tokens.

ghost use Rattle.std.specs.Prelude.{◌≡◌, List, ℕ};
ghost use Rattle.sap_lex.specs.Lexing.{AreTokens, IsLexFault};
ghost use Rattle.sap_lex.specs.declared.fault.ReadFault.{ReadFault};
ghost use Rattle.sap_lex.specs.declared.token.Token.{Token};

/// A text has one list of tokens at most, or one fault, E1, and not both. Want of memory is no fault of a text.
pub fn one_lexing()
    ensures one_list { (text : List ℕ) (one other : List Token) → AreTokens text one → AreTokens text other → one ≡ other }
    ensures one_fault { (text : List ℕ) (one other : ReadFault) → IsLexFault text one → IsLexFault text other → one ≡ other }
    ensures not_both { (text : List ℕ) (tokens : List Token) (fault : ReadFault) → AreTokens text tokens → IsLexFault text fault → ⊥ }
{}
