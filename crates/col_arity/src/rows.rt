//! The rows of one array and of two, in one form: what the loops of this crate go over.
ghost use Rattle.std.specs.Prelude.{List, Option, option_map};
ghost use Rattle.std.specs.Iterator.{IsFinite, YieldsFirstBy};
ghost use Rattle.col_flat.specs.Parts.{pair_numbers};

use col_flat::{SlotIter, SlotPairs};
use col_types::NativeType;

// The rows that are left of one array or of two: null, or what a closure is called for.
pub(crate) trait Rows<X>: Iterator<Item = Option<X>> {
    // What a closure is called for, as contracts see it: its numbers.
    ghost Seen: { Type 0 };

    ghost seen: { X → Seen };

    // The rows that are left, as contracts see them.
    ghost left: { Self → List (Option Seen) };

    // A row can be asked for at any time.
    ghost can: { (s : Self) → Self.can_next s };

    // What comes is the first of the rows that are left.
    ghost gives: { (s : Self) (r : Option (Option X)) (t : Self)
        → Self.next_gives s r t → YieldsFirstBy (option_map seen) left s r t };

    // The rows come to an end.
    ghost ends: { (s : Self) → IsFinite (Self.remaining s) };
}

impl<'a, T: NativeType> Rows<T> for SlotIter<'a, T> {
    ghost use Rattle.std.specs.Prelude.{List, ℤ};

    ghost Seen = { List ℤ };

    ghost seen = { T.numbers };

    ghost left = { λ s. s };

    ghost can = { λ s. tt };

    ghost gives = { λ s r t h. h };

    ghost ends = { λ s. tt };
}

impl<'a, T: NativeType, D: NativeType> Rows<(T, D)> for SlotPairs<'a, T, D> {
    ghost use Rattle.std.specs.Prelude.{List, ℤ};

    ghost Seen = { List ℤ × List ℤ };

    ghost seen = { pair_numbers T.numbers D.numbers };

    ghost left = { λ s. s };

    ghost can = { λ s. tt };

    ghost gives = { λ s r t h. h };

    ghost ends = { λ s. tt };
}
