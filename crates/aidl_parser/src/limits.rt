//! The limits on tokens: `nesting` and `run-length`.
ghost use Rattle.std.specs.Prelude.{◌≡◌, max};
ghost use Rattle.aidl_syntax.specs.Measures as measure;
ghost use Rattle.aidl_parser.specs.Limits.{passed};

use aidl_base::LimitName;
use aidl_syntax::{Symbol, Token, TokenKind};

// The limit that the tokens pass, `nesting` before `run-length`.
pub fn limit_of(tokens: &[Token]) -> Option<LimitName>
    ensures { result ≡ passed tokens.now }
{
    let (nesting, run_length) = measured(tokens);
    if 16 < nesting {
        Some(LimitName::Nesting)
    } else if 256 < run_length {
        Some(LimitName::RunLength)
    } else {
        None
    }
}

// The greatest number of `{` minus `}` before or at a token, and that of neighbouring tokens without `;`, `,`, `{` or `}`.
fn measured(tokens: &[Token]) -> (usize, usize)
    ensures nesting { result.0 ≡ measure.nesting tokens.now }
    ensures run_length { result.1 ≡ measure.run_length tokens.now }
{
    let mut opened: usize = 0;
    let mut closed: usize = 0;
    let mut nesting: usize = 0;
    let mut run: usize = 0;
    let mut longest: usize = 0;
    for t in tokens {
        opened += usize::from(is_open_brace(&t.kind));
        closed += usize::from(is_close_brace(&t.kind));
        nesting = nesting.max(opened.saturating_sub(closed));
        if ends_run(&t.kind) {
            longest = longest.max(run);
            run = 0;
        } else {
            run += 1;
        }
    }
    (nesting, longest.max(run))
}

fn is_open_brace(kind: &TokenKind) -> bool
    ensures { result ≡ measure.is_open_brace kind.now }
{
    match kind {
        TokenKind::Mark(Symbol::OpenBrace) => true,
        _ => false,
    }
}

fn is_close_brace(kind: &TokenKind) -> bool
    ensures { result ≡ measure.is_close_brace kind.now }
{
    match kind {
        TokenKind::Mark(Symbol::CloseBrace) => true,
        _ => false,
    }
}

fn ends_run(kind: &TokenKind) -> bool
    ensures { result ≡ measure.ends_run kind.now }
{
    match kind {
        TokenKind::Mark(Symbol::Semicolon) => true,
        TokenKind::Mark(Symbol::Comma) => true,
        TokenKind::Mark(Symbol::OpenBrace) => true,
        TokenKind::Mark(Symbol::CloseBrace) => true,
        _ => false,
    }
}
