//! The slots of arrays, row by row.
ghost use Rattle.std.specs.Prelude.{[], ◌≡◌, ◌-◌, ◌%◌, ◌<◌, ◌≤◌, ◌^◌, Some, drop, is_some, length};
ghost use Rattle.std.specs.Prelude.{map, option_map, slice_index_or, take, unwrap_or, true};
ghost use Rattle.std.specs.Iterator.{YieldsFirstBy, item_count};
ghost use Rattle.std.specs.Option.{ForSome, option_copied};
ghost use Rattle.col_buf.specs.Bitmap.{number_of};
ghost use Rattle.col_flat.specs.Flags.{IsReading};
ghost use Rattle.col_types.specs.Column.{row_count};
ghost use Rattle.col_flat.specs.Parts.{HasFlags, IsMaskOf, column_of, masked_slots, pair_numbers};
ghost use Rattle.col_flat.specs.Parts.{slot_pairs, zipped_slots};

use crate::primitive::PrimitiveArray;
use col_buf::Bitmap;
use col_types::NativeType;
use std::marker::Model;

// The flags that are left of a mask; none without a mask.
#[derive(Drop)]
struct FlagsLeft<'a> {
    mask: Option<&'a Bitmap>,
    // how many flags were read
    row: usize,
    // the flags that are left of those that were read from the mask last, the next one lowest
    word: u64,
}

impl<'a> Model for FlagsLeft<'a> {
    ghost use Rattle.std.specs.Prelude.{Bool, List, Option, drop, option_map};
    ghost use Rattle.std.specs.Option.{ForSome};
    ghost use Rattle.col_flat.specs.Flags.{IsReading};

    ghost Value = { Option (List Bool) };

    ghost view = { λ f. option_map (λ mask. drop f.row mask.now) f.mask };

    ghost invariant = { λ f. ForSome f.mask (λ mask. IsReading mask.now f.row f.word) };
}

impl<'a> FlagsLeft<'a> {
    // All flags of a mask that has fewer than 2^64 of them.
    fn new(mask: Option<&'a Bitmap>) -> FlagsLeft<'a>
        requires { ForSome mask (λ mask. length mask.now < 2 ^ 64) }
        ensures { result ≡ option_copied mask.entry }
    {
        FlagsLeft {
            mask,
            row: 0,
            word: 0,
        }
    }

    // The next flag; without a mask all are true.
    #[inline]
    fn next(&mut self) -> bool
        requires { ForSome self.old (λ flags. 0 < length flags) }
        ensures value { result ≡ slice_index_or (unwrap_or self.old []) 0 true }
        ensures rest { self.new ≡ option_map (drop 1) self.old }
    {
        let Some(mask) = self.mask else {
            return true;
        };
        let word = word_from(mask, self.row, self.word);
        self.word = word >> 1;
        self.row += 1;
        word % 2 == 1
    }
}

// The flags from a row on up to the end of its 64, the row's own lowest. They are read from the
// mask where the row is the first of its 64, and else they are the given ones.
#[inline]
fn word_from(mask: &Bitmap, row: usize, word: u64) -> u64
    requires { IsReading mask.now row word }
    ensures { result ≡ number_of (take (64 - row % 64) (drop row mask.now)) }
{
    if row % 64 == 0 {
        mask.chunk(row / 64)
    } else {
        word
    }
}

/// The slots of an array that are left, in their order.
#[derive(Drop)]
pub struct SlotIter<'a, T: NativeType> {
    values: &'a [T],
    flags: FlagsLeft<'a>,
}

impl<'a, T: NativeType> Model for SlotIter<'a, T> {
    ghost use Rattle.std.specs.Prelude.{[], List, Option, ℤ, length, map, unwrap_or};
    ghost use Rattle.col_flat.specs.Parts.{IsMaskOf, masked_slots};

    ghost Value = { List (Option (List ℤ)) };

    ghost view = { λ s. masked_slots (map T.numbers s.values.now) (unwrap_or s.flags []) };

    ghost invariant = { λ s. IsMaskOf s.flags (length s.values.now) };
}

impl<'a, T: NativeType> SlotIter<'a, T> {
    // The slots of the values beneath the mask.
    pub(super) fn new(values: &'a [T], mask: Option<&'a Bitmap>) -> SlotIter<'a, T>
        requires { IsMaskOf (option_copied mask) (length values.now) }
        ensures { result ≡ masked_slots (map T.numbers values.now)
            (unwrap_or (option_copied mask.entry) []) }
    {
        SlotIter {
            values,
            flags: FlagsLeft::new(mask),
        }
    }
}

impl<'a, T: NativeType> Iterator for SlotIter<'a, T> {
    type Item = Option<T>;

    ghost next_gives = { YieldsFirstBy (option_map T.numbers) (λ s. s) };

    ghost remaining = { item_count (λ s. s) };

    #[inline]
    fn next(&mut self) -> Option<Option<T>> {
        let (value, rest) = self.values.split_first()?;
        self.values = rest;
        if self.flags.next() {
            Some(Some(*value))
        } else {
            Some(None)
        }
    }
}

/// The rows that are left of two arrays: both values, or `None` where one of the two is null or
/// both are.
#[derive(Drop)]
pub struct SlotPairs<'a, T: NativeType, D: NativeType> {
    lhs: &'a [T],
    rhs: &'a [D],
    // for each row whether both slots are valid
    flags: FlagsLeft<'a>,
}

impl<'a, T: NativeType, D: NativeType> Model for SlotPairs<'a, T, D> {
    ghost use Rattle.std.specs.Prelude.{[], List, Option, ℤ, length, map, unwrap_or};
    ghost use Rattle.col_flat.specs.Parts.{IsMaskOf, masked_slots, zipped_slots};

    ghost Value = { List (Option (List ℤ × List ℤ)) };

    ghost view = { λ s. zipped_slots
        (masked_slots (map T.numbers s.lhs.now) (unwrap_or s.flags []))
        (masked_slots (map D.numbers s.rhs.now) (unwrap_or s.flags [])) };

    ghost invariant = { λ s. IsMaskOf s.flags (length s.lhs.now) };
}

impl<'a, T: NativeType, D: NativeType> SlotPairs<'a, T, D> {
    // The rows of both lists of values beneath one mask.
    fn new(lhs: &'a [T], rhs: &'a [D], mask: Option<&'a Bitmap>) -> SlotPairs<'a, T, D>
        requires { IsMaskOf (option_copied mask) (length lhs.now) }
        ensures { result ≡ zipped_slots
            (masked_slots (map T.numbers lhs.now) (unwrap_or (option_copied mask.entry) []))
            (masked_slots (map D.numbers rhs.now) (unwrap_or (option_copied mask.entry) [])) }
    {
        SlotPairs {
            lhs,
            rhs,
            flags: FlagsLeft::new(mask),
        }
    }
}

impl<'a, T: NativeType, D: NativeType> Iterator for SlotPairs<'a, T, D> {
    type Item = Option<(T, D)>;

    ghost next_gives = { YieldsFirstBy (option_map (pair_numbers T.numbers D.numbers)) (λ s. s) };

    ghost remaining = { item_count (λ s. s) };

    #[inline]
    fn next(&mut self) -> Option<Option<(T, D)>> {
        let (left, lhs) = self.lhs.split_first()?;
        let (right, rhs) = self.rhs.split_first()?;
        self.lhs = lhs;
        self.rhs = rhs;
        if self.flags.next() {
            Some(Some((*left, *right)))
        } else {
            Some(None)
        }
    }
}

/// The rows of two arrays of one length, beneath a mask that tells which rows are valid in both, as
/// `combine_validities` makes it.
pub fn pairs<'a, T: NativeType, D: NativeType>(
    lhs: &'a PrimitiveArray<T>,
    rhs: &'a PrimitiveArray<D>,
    mask: Option<&'a Bitmap>,
) -> SlotPairs<'a, T, D>
    requires one_length { row_count (column_of lhs.now) ≡ row_count (column_of rhs.now) }
    requires combined { HasFlags (option_copied mask)
        (map is_some (slot_pairs lhs.now rhs.now)) }
    ensures { result ≡ slot_pairs lhs.now rhs.now }
{
    SlotPairs::new(lhs.values.as_slice(), rhs.values.as_slice(), mask)
}
