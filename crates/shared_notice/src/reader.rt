// What has to stand at a place of a text: each call answers the place after it, or the fault of the first wrong token.
// The place goes in and comes out, as in the rules' reads; a reader that moves its own place would say no more, and need a
// loan in each clause.
ghost use Rattle.std.specs.Prelude.{◌≡◌, ◌≤◌, Bool, drop, IfOk};
ghost use Rattle.shared.specs.Forms.{pass_at, tok_at, toks_at, num_at, lead};
ghost use Rattle.shared.specs.Notice.{small, gap, line_end, opening};
ghost use Rattle.shared.specs.Tokens.{mark, word, token_of, is_end};
ghost use Rattle.shared_text.specs.declared.token.Token.{Token};
ghost use Rattle.shared_text.specs.Views.{seen, mark_of};

use shared::refusal::Fault;
use shared_text::token::{Mark, Token, next_token};

// A token that passes `test`.
fn expect<F: FnOnce(Token) -> bool>(text: &[u8], at: usize, test: F) -> Result<usize, Fault>
    requires { F.IsAlwaysCallable test }
    ensures { (token : Token) × (passes : Bool) × (seen token ≡ token_of (drop at text.now)) × F.post test token passes × (result ≡ pass_at (λ _. passes) text.now at) }
{
    let token = next_token(text, at);
    if test(token) {
        Ok(at + token.len())
    } else {
        Err(token.fault())
    }
}

// The mark `want`.
pub(crate) fn expect_mark(text: &[u8], at: usize, want: Mark) -> Result<usize, Fault>
    ensures { result ≡ tok_at (mark (mark_of want)) text.now at }
{
    expect(text, at, |token| token.is_mark(want))
}

// The word `want`.
pub(crate) fn expect_word(text: &[u8], at: usize, want: &[u8]) -> Result<usize, Fault>
    ensures { result ≡ tok_at (word want.now) text.now at }
{
    expect(text, at, |token| token.is_word(want))
}

// The text's end.
pub(crate) fn expect_end(text: &[u8], at: usize) -> Result<usize, Fault>
    ensures { result ≡ pass_at is_end text.now at }
{
    expect(text, at, |token| token.is_end())
}

// A space.
pub(crate) fn expect_gap(text: &[u8], at: usize) -> Result<usize, Fault>
    ensures { result ≡ toks_at gap text.now at }
{
    expect_mark(text, at, Mark::Space)
}

// An opening bracket and the word `name`.
pub(crate) fn expect_opening(text: &[u8], at: usize, name: &[u8]) -> Result<usize, Fault>
    ensures { result ≡ toks_at (opening name.now) text.now at }
{
    let at = expect_mark(text, at, Mark::Open)?;
    expect_word(text, at, name)
}

// A closing bracket and the end of its line.
pub(crate) fn expect_line_end(text: &[u8], at: usize) -> Result<usize, Fault>
    ensures { result ≡ toks_at line_end text.now at }
{
    let at = expect_mark(text, at, Mark::Close)?;
    expect_mark(text, at, Mark::Line)
}

// A number of `low..=high`, with the place after it.
pub(crate) fn read_between(
    text: &[u8],
    at: usize,
    low: u32,
    high: u32,
) -> Result<(u32, usize), Fault>
    ensures reads { result ≡ num_at low high text.now at }
    ensures at_least { IfOk result (λ x. low ≤ x.0) }
    ensures at_most { IfOk result (λ x. x.0 ≤ high) }
    ensures behind { IfOk result (λ x. at ≤ x.1) }
{
    let token = next_token(text, at);
    let n = token.number(low, high).ok_or(token.fault())?;
    Ok((n, at + token.len()))
}

// A number of 0 to 65,535.
pub(crate) fn read_small(text: &[u8], at: usize) -> Result<(u16, usize), Fault>
    ensures { result ≡ small.reads text.now at }
{
    let (n, at) = read_between(text, at, 0, 65535)?;
    Ok((n as u16, at))
}

// A space and a number of 0 to 65,535.
pub(crate) fn read_next_small(text: &[u8], at: usize) -> Result<(u16, usize), Fault>
    ensures { result ≡ (lead gap small).reads text.now at }
{
    let at = expect_gap(text, at)?;
    read_small(text, at)
}
