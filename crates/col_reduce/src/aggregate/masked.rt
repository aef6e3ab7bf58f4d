//! Sums beneath a mask, 64 slots at a time.
ghost use Rattle.std.specs.Prelude.{◌≡◌, ◌≤◌, ◌*◌, ◌/◌, if◌then◌else◌, length, map, pos};
ghost use Rattle.col_model.specs.Whole.{wrapped_number};
ghost use Rattle.col_buf.specs.Cut.{cut};
ghost use Rattle.col_flat.specs.Parts.{masked_slots, native_cell, slot_cell};
ghost use Rattle.col_reduce.specs.Chosen.{chosen_sum};
ghost use Rattle.col_reduce.specs.Total.{total_of};

use super::sum::sum_slice;
use crate::native::Summable;
use col_buf::Bitmap;

// The sum modulo 2^w of the values whose flag is true; `None` where no flag is.
pub(super) fn sum_masked<T: Summable>(values: &[T], mask: &Bitmap) -> Option<T>
    requires { length mask.now ≡ length values.now }
    ensures { native_cell T.numbers result ≡ total_of T.whole_type
        (map slot_cell (masked_slots (map T.numbers values.now) mask.now)) }
{
    let mut total = T::zero();
    let mut found = false;
    for i in 0..values.len().div_ceil(64) {
        let chosen = mask.chunk(i);
        if chosen != 0 {
            total = total.add_modulo(sum_chunk(chunk_of(values, i), chosen));
            found = true;
        }
    }
    if found { Some(total) } else { None }
}

// The values of the 64 slots from the slot `64 * i` on, or of as many as there are.
fn chunk_of<T>(values: &[T], i: usize) -> &[T]
    requires { i ≤ length values.now / 64 }
    ensures { result.now ≡ cut values.now (64 * i) 64 }
{
    let rest = &values[64 * i..];
    &rest[..rest.len().min(64)]
}

// The sum modulo 2^w of the values whose bit is 1, the first one's bit being the least.
fn sum_chunk<T: Summable>(values: &[T], chosen: u64) -> T
    requires { length values.now ≤ 64 }
    ensures { T.value result
        ≡ wrapped_number T.whole_type (chosen_sum (map T.value values.now) chosen) }
{
    if chosen == u64::MAX {
        sum_slice(values)
    } else {
        sum_chosen(values, chosen)
    }
}

// The same, bit by bit.
fn sum_chosen<T: Summable>(values: &[T], chosen: u64) -> T
    ensures { T.value result
        ≡ wrapped_number T.whole_type (chosen_sum (map T.value values.now) chosen) }
{
    let mut total = T::zero();
    let mut left = chosen;
    for value in values {
        total = total.add_modulo(value_or_zero(left % 2 == 1, *value));
        left /= 2;
    }
    total
}

// The value where it is chosen, else 0.
fn value_or_zero<T: Summable>(is_chosen: bool, value: T) -> T
    ensures { T.value result ≡ (if is_chosen then T.value value else pos 0) }
{
    if is_chosen { value } else { T::zero() }
}
