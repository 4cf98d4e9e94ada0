// Tokens: a text is cut into brackets, spaces, line ends and words, whatever its forms are. Nothing is copied: a word
// borrows the text.
ghost use Rattle.std.specs.Prelude.{◌≡◌, ◌-◌, ◌≤◌, length, drop};
ghost use Rattle.std.specs.List.{prefix_len};
ghost use Rattle.shared.specs.Answers.{optional};
ghost use Rattle.shared.specs.Forms.{token_number};
ghost use Rattle.shared.specs.Tokens.{word_byte, run, token_of, size, is_mark, is_word, is_end};
ghost use Rattle.shared_text.specs.Views.{seen, place_of, mark_of, fault_of};

use crate::number::read_number;
use shared::refusal::{Cause, Fault};

// The tokens of one byte each.
#[derive(Clone, Copy, PartialEq, Eq, Debug)]
pub enum Mark {
    Open,
    Close,
    Space,
    Line,
}

// A token with the index of its first byte: a mark, a word, a byte that begins no token, or the end of the text.
// Each case carries its place, so that a token is one value.
#[derive(Clone, Copy, PartialEq, Eq, Debug)]
pub enum Token<'a> {
    Mark(usize, Mark),
    Word(usize, &'a [u8]),
    Stray(usize),
    End(usize),
}

// Small letters and digits.
fn is_word_byte(byte: u8) -> bool
    ensures { result ≡ word_byte byte }
{
    byte.is_ascii_lowercase() || byte.is_ascii_digit()
}

// How many word bytes `text` begins with.
fn word_len(text: &[u8]) -> usize
    ensures len { result ≡ prefix_len word_byte text.now }
    ensures within { result ≤ length text.now }
{
    text.iter().take_while(|byte| is_word_byte(**byte)).count()
}

// The longest run of word bytes in front of `text`.
#[tactic(auto, using(crate::proofs::Toks::run_front))]
fn leading_word(text: &[u8]) -> &[u8]
    ensures run { result.now ≡ run text.now }
    ensures within { length result.now ≤ length text.now }
{
    &text[..word_len(text)]
}

// The token that begins at `at`; past the text's last byte that is its end. Inlined, so that a caller that asks for a mark
// measures no word.
#[inline]
pub fn next_token(text: &[u8], at: usize) -> Token<'_>
    ensures place { place_of result ≡ at }
    ensures token { seen result ≡ token_of (drop at text.now) }
    ensures within { size (seen result) ≤ length text.now - at }
{
    let Some(&byte) = text.get(at) else {
        return Token::End(at);
    };
    match byte {
        b'(' => Token::Mark(at, Mark::Open),
        b')' => Token::Mark(at, Mark::Close),
        b' ' => Token::Mark(at, Mark::Space),
        b'\n' => Token::Mark(at, Mark::Line),
        byte if is_word_byte(byte) => Token::Word(at, leading_word(&text[at..])),
        _ => Token::Stray(at),
    }
}

impl Token<'_> {
    // The index of its first byte.
    pub fn place(self) -> usize
        ensures { result ≡ place_of self.entry }
    {
        match self {
            Token::Mark(place, _)
            | Token::Stray(place)
            | Token::End(place)
            | Token::Word(place, _) => place,
        }
    }

    // The fault of a token that is not allowed where it stands.
    pub fn fault(self) -> Fault
        ensures { result ≡ fault_of (seen self.entry) (place_of self.entry) }
    {
        let cause = match self {
            Token::Stray(_) => Cause::Byte,
            _ => Cause::Word,
        };
        Fault {
            place: self.place(),
            cause,
        }
    }

    // How many bytes it has.
    pub fn len(self) -> usize
        ensures { result ≡ size (seen self.entry) }
    {
        match self {
            Token::Mark(..) => 1,
            Token::Word(_, word) => word.len(),
            Token::Stray(_) | Token::End(_) => 0,
        }
    }

    // Whether it is the mark `want`.
    pub fn is_mark(self, want: Mark) -> bool
        ensures { result ≡ is_mark (mark_of want) (seen self.entry) }
    {
        matches!(self, Token::Mark(_, mark) if mark == want)
    }

    // Whether it is the word `want`.
    #[tactic(auto, using(crate::proofs::Toks::same_list_is))]
    pub fn is_word(self, want: &[u8]) -> bool
        ensures { result ≡ is_word want.now (seen self.entry) }
    {
        matches!(self, Token::Word(_, word) if want == word)
    }

    // Whether the text ends here.
    pub fn is_end(self) -> bool
        ensures { result ≡ is_end (seen self.entry) }
    {
        matches!(self, Token::End(_))
    }

    // The number that it is, if it is one of `low..=high`.
    pub fn number(self, low: u32, high: u32) -> Option<u32>
        ensures { optional result ≡ token_number low high (seen self.entry) }
    {
        match self {
            Token::Word(_, word) => read_number(word, low, high),
            _ => None,
        }
    }
}
