// Lines and the forms in them, as the programs of this repository read and print them.
#![tactic(auto)]

ghost use Rattle.std.specs.Prelude.{◌≡◌, ◌+◌, ◌<◌, ◌≤◌, [], ◌∷◌, ◌++◌, length, position, ◌==◌, codes, take, drop, MatchOption, IfNone, IfSome, OnSome, OnOk};
ghost use Rattle.std.proofs.Math.Option.{none, some};
ghost use Rattle.line_forms.specs.Fronts.{inside_of, first_index};

use std::alloc::AllocError;

// What stands between `front` and the line's closing bracket.
pub fn inside<'a>(line: &'a [u8], front: &[u8]) -> Option<&'a [u8]>
    ensures { MatchOption result (inside_of front.now line.now ≡ none) (λ x. inside_of front.now line.now ≡ some x.now) }
{
    line.strip_prefix(front)?.strip_suffix(b")")
}

// Where the byte first stands, or the length.
pub fn first_of(text: &[u8], byte: u8) -> usize
    ensures { result ≡ first_index byte text.now }
{
    place_of(text, byte).unwrap_or(text.len())
}

// That place, if it stands there.
fn place_of(text: &[u8], byte: u8) -> Option<usize>
    ensures { result ≡ position (λ b. b == byte) text.now }
{
    text.iter().position(|each| *each == byte)
}

// What stands before the byte where it first stands, and what stands behind it.
pub fn split_once<'a>(text: &'a [u8], byte: u8) -> Option<(&'a [u8], &'a [u8])>
    ensures none { IfNone result (length text.now ≤ first_index byte text.now) }
    ensures some { OnSome result (first_index byte text.now < length text.now) }
    ensures before { IfSome result (λ x. x.0.now ≡ take (first_index byte text.now) text.now) }
    ensures behind { IfSome result (λ x. x.1.now ≡ drop (first_index byte text.now + 1) text.now) }
{
    let at = place_of(text, byte)?;
    Some((&text[..at], &text[at + 1..]))
}

// `text` and the end of its line, put behind what `out` holds. Only want of memory is an error.
pub fn push_line(text: &[u8], out: &mut Vec<u8>) -> Result<(), AllocError>
    ensures { OnOk result (out.new.items ≡ out.old.items ++ (text.now ++ (10 ∷ []))) }
{
    out.extend_from_slice(text)?;
    out.push(b'\n')?;
    Ok(())
}

// The line that answers a form that is not allowed.
pub fn push_refused(out: &mut Vec<u8>) -> Result<(), AllocError>
    ensures { OnOk result (out.new.items ≡ out.old.items ++ (codes "(refused 14)" ++ (10 ∷ []))) }
{
    push_line(b"(refused 14)", out)
}
