// Offsetting: the long and short positions of the classes in one currency, taken down row by row of the priority list.
#![tactic(auto)]

ghost use Rattle.std.specs.Prelude.{◌≡◌, map, ◌≤◌};
ghost use Rattle.paper.specs.Offsetting.{share as share_of, offset as offset_by, offset_row, offset_all};
ghost use Rattle.paper.specs.Lists.{Each};
ghost use Rattle.paper.specs.Bounds.{PriorityFacts, most_position, BookFacts};
ghost use Rattle.offsetting.specs.Books.{book_of, row_of};

use tables::{Factor, PriorityRow};

pub type Whole = u64; // whole units

// Positions of the classes in one currency, at the places of their numbers, 0..40: two columns, as the paper's book has two lists.
// Its bound (`BookFacts`) is no invariant: nets are added one by one, and only their sum keeps it.
#[derive(Clone, Copy, Default)]
pub struct Book {
    pub long: [Whole; 41],
    pub short: [Whole; 41],
}

// A factor's share of an amount.
pub fn share(factor: Factor, amount: Whole) -> Whole
    requires { (factor ≤ 10_000) × (amount ≤ most_position) }
    ensures { result ≡ share_of factor amount }
{
    whole::nearest(factor * amount, 10000)
}

impl Book {
    // The factor's share of the smaller of one class's long and another's short, off both.
    fn offset(
        &mut self,
        n: usize, // class
        m: usize, // class
        factor: Factor,
    )
        requires { (n ≤ 40) × (m ≤ 40) × (factor ≤ 10_000) × BookFacts (book_of self.old) }
        ensures { book_of self.new ≡ offset_by factor n m (book_of self.old) }
    {
        let amount = share(factor, whole::least(self.long[n], self.short[m])); // whole units
        self.long[n] -= amount;
        self.short[m] -= amount;
    }

    // A row of the list: one class against itself, or the long of each class against the short of the other.
    pub fn offset_row(&mut self, row: PriorityRow)
        requires { PriorityFacts (row_of row) × BookFacts (book_of self.old) }
        ensures { book_of self.new ≡ offset_row (row_of row) (book_of self.old) }
    {
        let n = row.first as usize; // class
        let m = row.second as usize; // class
        self.offset(n, m, row.factor);
        if n != m {
            self.offset(m, n, row.factor);
        }
    }

    // All rows of a lent table in their order, each from what the one before left.
    pub fn offset_all(&mut self, rows: &[PriorityRow])
        requires { Each (λ r. PriorityFacts (row_of r)) rows.now × BookFacts (book_of self.old) }
        ensures { book_of self.new ≡ offset_all (map row_of rows.now) (book_of self.old) }
    {
        for row in rows {
            self.offset_row(*row);
        }
    }
}
