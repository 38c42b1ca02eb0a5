//! A law of the lexer's definitions: bytes have one list of tokens or one fault, and never both.
ghost use Rattle.std.specs.Prelude.{◌≡◌, ℕ, List, ◌⊎◌};
ghost use Rattle.aidl_syntax.specs.declared.token.Token.{Token};
ghost use Rattle.aidl_syntax.specs.Tokens.{Tokens};
ghost use Rattle.aidl_syntax.specs.Faults as faults;

/// A law of the definitions: bytes have either one list of tokens or one fault, of one number and at one offset.
pub fn law_one_lexing(bytes: &[u8])
    ensures some { ((tokens : List Token) × Tokens bytes.now tokens)
        ⊎ ((number offset : ℕ) × faults.LexFault bytes.now number offset) }
    ensures one_list { (first second : List Token)
        → Tokens bytes.now first → Tokens bytes.now second → first ≡ second }
    ensures one_fault { (first second from to : ℕ) → faults.LexFault bytes.now first from
        → faults.LexFault bytes.now second to → (first ≡ second) × (from ≡ to) }
    ensures never_both { (tokens : List Token) (number offset : ℕ)
        → Tokens bytes.now tokens → faults.LexFault bytes.now number offset → ⊥ }
{}
