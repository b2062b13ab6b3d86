// Rows in their order, in a value that lies where it stands and is copied as plain numbers are. A contract sees the rows alone, as
// it does those of an `ArrayVec`, which is no `Copy`: here blanks stand behind the rows, so that the rows tell all of the value.

ghost use Rattle.std.specs.Prelude.{⊤, ◌≡◌, ◌+◌, ◌<◌, ◌≤◌, ◌++◌, ◌∷◌, [], length, get_or, slice_set};
ghost use Rattle.arrayvec.specs.ArrayVec.{array_vec_len};

use std::alloc::AllocError;
use std::marker::Model;
use std::ops::DerefSlice;

// What may be a row.
pub trait Blank: Clone + Copy {
    ghost blank: { Self };

    // What stands behind the rows.
    fn blank() -> Self
        ensures { result ≡ blank };
}

// At most `CAP` rows.
#[derive(Copy)]
pub struct Rows<T: Blank, const CAP: usize> {
    places: [T; CAP],
    count: usize, // rows
}

impl<T: Blank, const CAP: usize> Model for Rows<T, CAP> {
    ghost use Rattle.std.specs.Prelude.{◌≡◌, ◌≤◌, length, take};
    ghost use Rattle.std.proofs.Common.{sym, ap, ◌∙◌};
    ghost use Rattle.std.proofs.lemmas.List.{length-take-le};
    ghost use Rattle.arrayvec.specs.ArrayVec.{ArrayVec};
    ghost use Rattle.tables.specs.Padded.{padded};

    ghost Value = { ArrayVec T };

    ghost view = { λ v. record { items = take v.count v.places } };

    ghost inverse = { λ v. record { places = padded CAP T.blank v.items; count = length v.items } };

    ghost inverse_ok = { λ v h.
        ap (λ ps. record { places = ps; count = length (take v.count v.places) }) (sym h.2)
        ∙ ap (λ n. record { places = v.places; count = n }) (length-take-le v.count v.places h.0) };

    ghost invariant = { λ v.
        (v.count ≤ length v.places) × (length v.places ≡ CAP) × (v.places ≡ padded CAP T.blank (take v.count v.places)) };
}

impl<T: Blank, const CAP: usize> Clone for Rows<T, CAP> {
    ghost is_clone = { λ v w. v ≡ w };

    ghost is_infallible = { λ _. ⊤ };

    fn clone(&self) -> Result<Self, AllocError> {
        Ok(*self)
    }
}

impl<T: Blank, const CAP: usize> Rows<T, CAP> {
    // No rows.
    pub fn new() -> Self
        ensures { result.items ≡ [] }
    {
        Rows {
            places: [T::blank(); CAP],
            count: 0,
        }
    }

    // How many rows there are.
    #[inline]
    pub fn len(&self) -> usize
        ensures value { result ≡ array_vec_len self.now }
        ensures fits { result ≤ CAP }
    {
        self.count // those in front
    }

    // The rows.
    #[inline]
    pub fn as_slice(&self) -> &[T]
        ensures value { result.now ≡ self.now.items }
        ensures fits { length result.now ≤ CAP }
    {
        &self.places[..self.count]
    }

    // A row by its place, or what stands where there is none. No `Option` of a reference, which 32-bit code reads otherwise
    // (docs/DECISIONS.md).
    #[inline]
    pub fn at(
        &self,
        index: usize, // of the row, from 0
    ) -> T
        ensures { result ≡ get_or self.now.items index T.blank }
    {
        if index < self.count {
            self.places[index]
        } else {
            T::blank()
        }
    }

    // A row behind the others. There must be room.
    #[inline]
    pub fn push(&mut self, row: T)
        requires { array_vec_len self.old < CAP }
        ensures items { self.new.items ≡ self.old.items ++ row ∷ [] }
        ensures len { array_vec_len self.new ≡ array_vec_len self.old + 1 }
    {
        let count = self.count; // rows
        self.places[count] = row;
        self.count = count + 1;
    }

    // Another row in the place of one.
    #[inline]
    pub fn set(
        &mut self,
        index: usize, // of the row, from 0
        row: T,
    )
        requires { index < array_vec_len self.old }
        ensures { self.new.items ≡ slice_set self.old.items index row }
    {
        let places: &mut [T] = &mut self.places; // as a slice: a proof is told its length
        places[index] = row;
    }
}

impl<T: Blank, const CAP: usize> DerefSlice for Rows<T, CAP> {
    type Elem = T;

    ghost deref_gives = { λ v rows. (rows ≡ v.items) × (length rows ≤ CAP) };

    #[inline]
    fn deref(&self) -> &[T] {
        self.as_slice()
    }
}
