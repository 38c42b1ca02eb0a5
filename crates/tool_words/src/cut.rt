//! Cutting a text at the first of its bytes that is a given mark.
ghost use Rattle.std.specs.Prelude.{◌≡◌, ◌≤◌, ◌<◌, ◌==◌, ◌∷◌, IfSome, length};
ghost use Rattle.std.specs.List.{position_or_len};
ghost use Rattle.std.specs.Option.{option_map};
ghost use Rattle.tool_words.specs.Cut.{cut_at, pieces_left};

/// The first piece of a text, and what stands after its mark, where one stands.
#[tactic(auto, using(crate::proofs::Cuts::cut_none))]
pub fn first_piece(text: &[u8], mark: u8) -> (&[u8], Option<&[u8]>)
    ensures pieces { cut_at mark text.now
        ≡ result.0.now ∷ pieces_left mark (option_map (λ others. others.now) result.1) }
    ensures shorter { IfSome result.1 (λ others. length others.now < length text.now) }
{
    let len = first_len(text, mark);
    if len == text.len() {
        return (text, None);
    }
    (&text[..len], Some(&text[len + 1..]))
}

// The length of the first piece.
fn first_len(text: &[u8], mark: u8) -> usize
    ensures value { result ≡ position_or_len (λ b. b == mark) text.now }
    ensures within { result ≤ length text.now }
{
    text.iter().take_while(|b| **b != mark).count()
}
