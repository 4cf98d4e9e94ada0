// A short list that lies in the value itself, and is copied as a number is.
#![tactic(auto)]

ghost use Rattle.std.specs.Cmp.{on_equiv, on_per};
ghost use Rattle.std.specs.Cmp.Lexicographic.{pointwise, lists_per, lists_equiv};
ghost use Rattle.std.specs.Prelude.{⊤, ◌≡◌, ◌<◌, ◌≤◌, [], ◌∷◌, ◌++◌, length};

use std::alloc::AllocError;
use std::fmt;
use std::marker::Model;
use std::ops::DerefSlice;

// A value that fills the unused places.
pub trait Blank: Copy {
    ghost blank_is: { Self };

    fn blank() -> Self
        ensures { result ≡ blank_is };
}

// At most `CAP` items. The unused places behind them are blank, so that a list is its items and nothing else.
#[derive(Copy)]
pub struct ShortList<T: Blank, const CAP: usize> {
    places: [T; CAP],
    len: usize,
}

impl<T: Blank, const CAP: usize> Model for ShortList<T, CAP> {
    ghost use Rattle.std.specs.Prelude.{◌≡◌, ◌-◌, ◌≤◌, ◌++◌, length, take, drop, replicate};
    ghost use Rattle.short_list.specs.Lists.{ShortList as Items};
    ghost use Rattle.short_list.specs.Places.{places_given_back, length_given_back};

    ghost Value = { Items T };

    ghost view = { λ v. record { items = take v.len v.places } };

    ghost invariant = { λ v. (v.len ≤ CAP) × (length v.places ≡ CAP) × (drop v.len v.places ≡ replicate (CAP - v.len) T.Blank.blank_is) };

    ghost inverse = { λ v. record { places = v.items ++ replicate (CAP - length v.items) T.Blank.blank_is; len = length v.items } };

    ghost inverse_ok = { λ v h i. record { places = places_given_back v.len CAP T.Blank.blank_is v.places h.0 h.1 h.2 i; len = length_given_back v.len CAP T.Blank.blank_is v.places h.0 h.1 i } };
}

impl<T: Blank, const CAP: usize> Clone for ShortList<T, CAP> {
    ghost is_clone = { λ v w. v ≡ w };

    ghost is_infallible = { λ _. ⊤ };

    fn clone(&self) -> Result<Self, AllocError> {
        Ok(*self)
    }
}

impl<T: Blank, const CAP: usize> ShortList<T, CAP> {
    // A list of no item.
    pub fn new() -> Self
        ensures { result.items ≡ [] }
    {
        ShortList {
            places: [T::blank(); CAP],
            len: 0,
        }
    }

    // The items.
    pub fn as_slice(&self) -> &[T]
        ensures value { result.now ≡ self.now.items }
        ensures fits { length result.now ≤ CAP }
    {
        &self.places[..self.len]
    }

    // Puts an item behind the others. There must be room.
    pub fn push(&mut self, item: T)
        requires { length self.old.items < CAP }
        ensures items { self.new.items ≡ self.old.items ++ (item ∷ []) }
    {
        self.places[self.len] = item;
        self.len += 1;
    }
}

impl<T: Blank, const CAP: usize> DerefSlice for ShortList<T, CAP> {
    type Elem = T;

    ghost deref_gives = { λ v xs. (xs ≡ v.items) × (length xs ≤ CAP) };

    fn deref(&self) -> &[T] {
        self.as_slice()
    }
}

// Two lists are equal when their items are, one by one.
impl<T: Blank + PartialEq, const CAP: usize> PartialEq for ShortList<T, CAP> {
    ghost eq = { λ v w. pointwise T.eq v.items w.items };

    ghost laws = { on_per (λ v. v.items) (lists_per T.laws) };

    fn eq(&self, other: &Self) -> bool {
        self.as_slice() == other.as_slice()
    }
}

impl<T: Blank + Eq, const CAP: usize> Eq for ShortList<T, CAP> {
    ghost laws = { on_equiv (λ v. v.items) (lists_equiv T.Eq.laws) };
}

impl<T: Blank + fmt::Debug, const CAP: usize> fmt::Debug for ShortList<T, CAP> {
    fn fmt<W: fmt::Write>(&self, f: &mut fmt::Formatter<W>) -> fmt::Result {
        f.debug_list().entries(self.as_slice()).finish()
    }
}

impl Blank for u8 {
    ghost blank_is = { 0 };

    fn blank() -> u8 {
        0
    }
}

impl Blank for u32 {
    ghost blank_is = { 0 };

    fn blank() -> u32 {
        u32::MIN
    }
}
