// Which places each step of an enter turns over, found without touching the rows: a word for each place has its bit as the
// steps so far leave it, and above that a flag for each step that turns it over.
#![tactic(auto)]

ghost use Rattle.std.specs.Prelude.{◌≡◌, ℕ, ◌+◌, ◌/◌, ◌%◌, ◌^◌, ◌<◌, length, ◌==◌, slice_index};
ghost use Rattle.book_flips.specs.Words.{stamped_word, stamped_at};

// The word of a place that the step turns over. A number and no struct of flags: the workspace is lent as words of 32 bits.
fn stamped(word: u32, step: usize) -> u32
    requires low { word < 2 ^ 16 }
    requires few { step < 5 }
    ensures { result ≡ stamped_word word step }
{
    let turned = if word % 2 == 0 { word + 1 } else { word - 1 };
    turned + (2 << step)
}

// Lets the step turn over every marked place.
pub fn stamp(words: &mut [u32], marks: &[u32], step: usize)
    requires long { length marks.now ≡ length words.old }
    requires few { step < 5 }
    requires low { (p : ℕ) → p < length words.old → slice_index words.old p < 2 ^ 16 }
    ensures { (p : ℕ) → p < length words.old → slice_index words.new p ≡ stamped_at words.old marks.now step p }
{
    // Tried as `words.iter_mut().zip(marks)`, and the proof did not close: it knows no word that such a loop leaves.
    for (p, word) in words.iter_mut().enumerate() {
        if marks[p] == 1 {
            *word = stamped(*word, step);
        }
    }
}

// Whether the step turns over the place that has this word.
pub fn turned_by(word: u32, step: usize) -> bool
    requires { step < 5 }
    ensures { result ≡ (word / 2 / 2 ^ step % 2 == 1) }
{
    (word >> (step + 1)) & 1 == 1
}
