// The three kinds that every rule is written over. A ghost member says what a value means, and the laws say what the
// rules ask of that meaning.
ghost use Rattle.std.specs.Prelude.{◌≡◌, ℕ, ◌+◌, ◌*◌, ◌^◌, ◌<◌, ◌≤◌, Bool, true, List, length, slice_index};
ghost use Rattle.shared.specs.Kinds.{setting_read, setting_asked, four_hashes};

use crate::refusal::SettingFault;
use std::array;

// A kind of part (the keys of the table): each part has one fixed list of 1 to 16 bytes, and two parts are the same
// exactly when their lists are.
pub trait PartKind: Copy {
    ghost bytes: { Self → List ℕ };

    // The part's bytes.
    fn as_bytes(&self) -> &[u8]
        ensures { result.now ≡ bytes self.now };

    ghost some: { (p : Self) → 1 ≤ length (bytes p) };

    ghost few: { (p : Self) → length (bytes p) ≤ 16 };

    ghost low: { (p : Self) (i : ℕ) → slice_index (bytes p) i < 256 };

    ghost apart: { (p q : Self) → bytes p ≡ bytes q → p ≡ q };
}

// A kind of setting (the values of the table): each setting has one fixed list of numbers from 0 to 65,535, all equally
// many, 1 to 4; two settings are the same exactly when their lists are. `lawful` tells which lists are settings, and
// `blanks` is the list of the blank.
pub trait SettingKind: Copy {
    ghost numbers: { Self → List ℕ };

    ghost lawful: { List ℕ → Bool };

    ghost count: { ℕ };

    ghost blanks: { List ℕ };

    // How many numbers each setting has.
    fn width() -> usize
        ensures { result ≡ count };

    // The setting of a slot that holds none.
    fn blank() -> Self
        ensures { numbers result ≡ blanks };

    // The number at `i`, 0 past the last. By index and no slice: a trim's numbers are three fields.
    fn number_at(&self, i: usize) -> u16
        ensures { result ≡ slice_index (numbers self.now) i };

    // The setting that has these numbers; a list that no setting has is the kind's fault.
    fn read(values: &[u16]) -> Result<Self, SettingFault>
        ensures { setting_read numbers result ≡ setting_asked (lawful values.now) values.now };

    ghost some: { 1 ≤ count };

    ghost few: { count ≤ 4 };

    ghost even: { (s : Self) → length (numbers s) ≡ count };

    ghost low: { (s : Self) (i : ℕ) → slice_index (numbers s) i < 65536 };

    ghost apart: { (s t : Self) → numbers s ≡ numbers t → s ≡ t };

    ghost own: { (s : Self) → lawful (numbers s) ≡ true };

    ghost blank_lawful: { lawful blanks ≡ true };

    ghost read_back: { (vs : List ℕ) → lawful vs ≡ true → (s : Self) × (numbers s ≡ vs) };
}

// A hash family: each seed from 0 to 319 and each list of bytes have one fixed number below 2^32.
// What a family answers at a larger seed is its own; no rule asks for it.
pub trait HashFamily {
    ghost hash: { Self → ℕ → List ℕ → ℕ };

    // The part's number under the seed.
    fn hash_of<P: PartKind>(&self, seed: u16, part: &P) -> u32
        ensures { result ≡ hash self.now seed (P.PartKind.bytes part.now) };

    // The part's numbers under the four consecutive seeds 256 + 4·turn to 259 + 4·turn, which place it.
    fn hash_four<P: PartKind>(&self, turn: u8, part: &P) -> [u32; 4]
        ensures { result ≡ four_hashes (hash self.now) turn (P.PartKind.bytes part.now) }
    {
        array::from_fn(|i| self.hash_of(256 + 4 * u16::from(turn) + i as u16, part))
    }

    ghost low: { (f : Self) (s : ℕ) (bytes : List ℕ) → s < 320 → hash f s bytes < 2 ^ 32 };
}
