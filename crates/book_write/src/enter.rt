// An enter into a book's memory: planned whole, then written.
ghost use Rattle.std.specs.Prelude.{◌≡◌, ◌<◌, [], ◌∷◌, length};
ghost use Rattle.shared.specs.Answers.{answer};
ghost use Rattle.shared.specs.Book.{enter};
ghost use Rattle.shared_notice.specs.Walks.{text_kind};
ghost use Rattle.book_turns.specs.Spaces.{Cut, SameSpace};
ghost use Rattle.book_enter.specs.Views.{book_of, SameMemory};
ghost use Rattle.book_write.specs.Writes.{CallLeft, SameIf};

use crate::rows::store_rows;
use crate::seeds::store_seeds;
use crate::slots::store_slots;
use book_enter::enter::plan_enter;
use book_enter::memory::Memory;
use book_notice::write_notice;
use book_slots::Held;
use book_turns::Workspace;
use shared::kinds::{HashFamily, PartKind, SettingKind};
use shared::refusal::Refusal;

// Enters the part with its setting and puts the notice at the front of `notice`, whose filled length it answers; where a check
// fails, nothing but the workspace is written.
pub fn enter_in<F: HashFamily, P: PartKind, S: SettingKind>(
    family: &F,
    book: &mut Memory<'_, P, S>,
    held: Held<P, S>,
    notice: &mut [u8],
    space: &mut Workspace<'_>,
) -> Result<usize, Refusal>
    requires entries { length book.old.overflow.now ≡ book.old.sizes.overflow }
    requires cut { Cut book.old.sizes space.old }
    requires few { book.old.number < 4000000000 }
    ensures left { CallLeft book.old.sizes (F.HashFamily.hash family.now) (text_kind S.SettingKind) (book_of P.PartKind.bytes S.SettingKind.numbers book.old) (enter (P.PartKind.bytes held.part) (S.SettingKind.numbers held.setting)) notice.old (answer (λ n. n ∷ []) result) (book_of P.PartKind.bytes S.SettingKind.numbers book.new) notice.new }
    ensures entries { length book.new.overflow.now ≡ book.new.sizes.overflow }
    ensures sizes { book.new.sizes ≡ book.old.sizes }
    ensures same { SameIf result book.new book.old }
    ensures memory { SameMemory book.new book.old }

    // the workspace may be used again
    ensures cut { Cut book.new.sizes space.new }
    ensures space { SameSpace space.new space.old }
{
    let plan = plan_enter(family, &book.reading(), notice.len(), held, space)?;
    let number = book.number + 1;
    // borrowed by itself, so that it is known to stay as it is while it is read
    let words = &mut *space.words;
    // the notice was measured before, and fits
    let Some(len) = write_notice(family, &book.shelf(), &plan, held, words, number, notice) else {
        return Err(Refusal::BufferTooShort);
    };
    store_rows(book.sizes, book.row_a, book.row_b, words);
    store_seeds(book.sizes, book.seeds, book.overflow, &plan);
    store_slots(book.sizes, book.slots, &plan, held);
    book.number = number;
    Ok(len)
}
