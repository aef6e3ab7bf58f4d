//! Truth values packed into bytes.
ghost use Rattle.std.specs.Prelude.{◌≡◌, ◌+◌, ◌-◌, ◌*◌, ◌/◌, ◌%◌, ◌^◌, ◌<◌, ◌≤◌, ◌↔◌, min, not};
ghost use Rattle.std.specs.Prelude.{take, length, slice_index, slice_index_or, count_by, IfOk};
ghost use Rattle.std.specs.Prelude.{IfErr, IsOk, false};
ghost use Rattle.col_types.specs.Answer.{FailsByMemory};
ghost use Rattle.col_buf.specs.Bitmap.{bits_from, HasBits, IsPacked, number_of, chunk_at, both};
ghost use Rattle.col_buf.specs.Cut.{IsWithin, cut};

use crate::buffer::Buffer;
use col_types::Error;
use std::alloc::Global;
use std::marker::Model;

/// A list of truth values, stored as bits of bytes that several holders may share.
///
/// Source: the Arrow columnar format, "Validity bitmaps".
#[derive(Drop)]
pub struct Bitmap {
    bytes: Buffer<u8>,
    // the first value's bit in the first byte, below 8
    start: usize,
    count: usize,
}

impl Model for Bitmap {
    ghost use Rattle.std.specs.Prelude.{List, Bool};
    ghost use Rattle.col_buf.specs.Bitmap.{bits_from, IsPacked};

    ghost Value = { List Bool };

    ghost view = { λ b. bits_from b.bytes b.start b.count };

    ghost invariant = { λ b. IsPacked b.bytes b.start b.count };
}

impl Bitmap {
    /// The `length` bits of the bytes from bit `offset` on, the least bit of a byte first. They
    /// stay in their buffer.
    ///
    /// Refused: `OutOfSpec` where the bytes have fewer bits.
    pub fn try_new(bytes: Buffer<u8>, offset: usize, length: usize) -> Result<Bitmap, Error>
        ensures value { IfOk result (λ bitmap. bitmap ≡ bits_from bytes offset length) }
        ensures range { IsOk result ↔ HasBits bytes offset length }
        ensures refused { IfErr result (λ e. e ≡ Error.OutOfSpec) }
    {
        let bits = 8 * bytes.len() as u128;
        if offset as u128 + length as u128 > bits {
            return Err(Error::OutOfSpec);
        }
        Ok(bits_of(bytes, offset / 8, offset % 8, length))
    }

    /// A bitmap of the values.
    pub fn from_bools(alloc: Global, values: &[bool]) -> Result<Bitmap, Error>
        ensures value { IfOk result (λ bitmap. bitmap ≡ values.now) }
        ensures refused { FailsByMemory result }
    {
        let bytes = packed(alloc, values)?;
        of_bytes(alloc, bytes, values.len())
    }

    /// The number of values.
    pub fn len(&self) -> usize
        ensures { result ≡ length self.now }
    {
        self.count
    }

    /// The value at the place `i`.
    pub fn get_bit(&self, i: usize) -> bool
        requires { i < length self.now }
        ensures { result ≡ slice_index_or self.now i false }
    {
        let bit = self.start + i % 8;
        let byte = self.bytes.as_slice()[i / 8 + bit / 8];
        byte >> (bit % 8) & 1 == 1
    }

    /// How many values are false.
    pub fn unset_bits(&self) -> usize
        ensures { result ≡ count_by not self.now }
    {
        let mut set = 0;
        for i in 0..self.count.div_ceil(64) {
            set += self.chunk(i).count_ones() as usize;
        }
        self.count - set
    }

    /// Another holder of the same values.
    pub fn share(&self) -> Result<Bitmap, Error>
        ensures value { IfOk result (λ bitmap. bitmap ≡ self.now) }
        ensures refused { FailsByMemory result }
    {
        let bytes = self.bytes.share()?;
        Ok(Bitmap {
            bytes,
            start: self.start,
            count: self.count,
        })
    }

    /// The `length` values from the place `offset` on, in the same bytes.
    pub fn sliced(self, offset: usize, length: usize) -> Self
        requires { IsWithin self offset length }
        ensures { result ≡ cut self offset length }
    {
        bits_of(self.bytes, offset / 8, self.start + offset % 8, length)
    }

    /// The 64 values from the place `64 * i` on, as the bits of a number: bit j is the value at the
    /// place `64 * i + j`, and 0 past the end.
    pub fn chunk(&self, i: usize) -> u64
        requires { i ≤ length self.now / 64 }
        ensures { result ≡ chunk_at self.now i }
    {
        chunk_of(self.bytes.as_slice(), self.start, self.count, i)
    }

    /// Place by place, whether both values are true.
    pub fn and(&self, alloc: Global, rhs: &Bitmap) -> Result<Bitmap, Error>
        requires { length self.now ≡ length rhs.now }
        ensures value { IfOk result (λ bitmap. bitmap ≡ both self.now rhs.now) }
        ensures refused { FailsByMemory result }
    {
        let bytes = both_bytes(alloc, self, rhs)?;
        of_bytes(alloc, bytes, self.len())
    }
}

// So many bits of the bytes, from a bit on that is counted from a byte on.
fn bits_of(bytes: Buffer<u8>, byte: usize, bit: usize, count: usize) -> Bitmap
    requires { HasBits bytes (8 * byte + bit) count }
    ensures { result ≡ bits_from bytes (8 * byte + bit) count }
{
    let whole = byte + bit / 8;
    let rest = bytes.len() - whole;
    Bitmap {
        bytes: bytes.sliced(whole, rest),
        start: bit % 8,
        count,
    }
}

// The first bits of the bytes.
fn of_bytes(alloc: Global, bytes: Vec<u8>, count: usize) -> Result<Bitmap, Error>
    requires { HasBits bytes.items 0 count }
    ensures value { IfOk result (λ bitmap. bitmap ≡ bits_from bytes.items 0 count) }
    ensures refused { FailsByMemory result }
{
    match Buffer::from_vec(alloc, bytes) {
        Ok(bytes) => Ok(Bitmap {
            bytes,
            start: 0,
            count,
        }),
        Err(refused) => Err(refused.0),
    }
}

// The values as bits of bytes; the spare bits are 0.
fn packed(alloc: Global, values: &[bool]) -> Result<Vec<u8>, Error>
    ensures value { IfOk result
        (λ bytes. bits_from bytes.items 0 (length values.now) ≡ values.now) }
    ensures bits { IfOk result (λ bytes. HasBits bytes.items 0 (length values.now)) }
    ensures refused { FailsByMemory result }
{
    let size = values.len().div_ceil(8);
    let mut bytes = Vec::with_capacity(alloc, size)?;
    for k in 0..size {
        bytes.push(packed_byte(&values[8 * k..]))?;
    }
    Ok(bytes)
}

// The first eight values as a byte.
fn packed_byte(values: &[bool]) -> u8
    ensures { result ≡ number_of (take 8 values.now) }
{
    let mut byte = 0;
    for j in 0..values.len().min(8) {
        byte |= u8::from(values[j]) << j;
    }
    byte
}

// Place by place whether both are true, as bits of bytes; the spare bits are 0.
fn both_bytes(alloc: Global, lhs: &Bitmap, rhs: &Bitmap) -> Result<Vec<u8>, Error>
    requires { length lhs.now ≡ length rhs.now }
    ensures value { IfOk result
        (λ bytes. bits_from bytes.items 0 (length lhs.now) ≡ both lhs.now rhs.now) }
    ensures bits { IfOk result (λ bytes. HasBits bytes.items 0 (length lhs.now)) }
    ensures refused { FailsByMemory result }
{
    let words = lhs.len().div_ceil(64);
    let mut bytes = Vec::with_capacity(alloc, 8 * words)?;
    for i in 0..words {
        let word = lhs.chunk(i) & rhs.chunk(i);
        bytes.extend_from_slice(&word.to_le_bytes())?;
    }
    Ok(bytes)
}

// The 64 bits from place `64 * i` on of so many bits of the bytes, 0 past the last of them.
fn chunk_of(bytes: &[u8], start: usize, count: usize, i: usize) -> u64
    requires packed { IsPacked bytes.now start count }
    requires within { i ≤ count / 64 }
    ensures { result ≡ chunk_at (bits_from bytes.now start count) i }
{
    let low = word_at(bytes, 8 * i);
    let high = byte_or_zero(bytes, 8 * i + 8);
    joined(low, high, start) & low_ones(count - 64 * i)
}

// The 64 bits from a byte on, 0 past the end of the bytes.
fn word_at(bytes: &[u8], at: usize) -> u64
    requires { at ≤ length bytes.now }
    ensures { result ≡ number_of (bits_from bytes.now (8 * at) 64) }
{
    if bytes.len() - at >= 8 {
        whole_word(&bytes[at..])
    } else {
        last_word(&bytes[at..])
    }
}

// The 64 bits of the first eight bytes.
fn whole_word(bytes: &[u8]) -> u64
    requires { 8 ≤ length bytes.now }
    ensures { result ≡ number_of (bits_from bytes.now 0 64) }
{
    u64::from_le_bytes([
        bytes[0], bytes[1], bytes[2], bytes[3], bytes[4], bytes[5], bytes[6], bytes[7],
    ])
}

// The 64 bits of the first bytes, 0 past their end.
fn last_word(bytes: &[u8]) -> u64
    ensures { result ≡ number_of (bits_from bytes.now 0 64) }
{
    u64::from_le_bytes([
        byte_or_zero(bytes, 0),
        byte_or_zero(bytes, 1),
        byte_or_zero(bytes, 2),
        byte_or_zero(bytes, 3),
        byte_or_zero(bytes, 4),
        byte_or_zero(bytes, 5),
        byte_or_zero(bytes, 6),
        byte_or_zero(bytes, 7),
    ])
}

// The byte at a place, 0 past the end.
fn byte_or_zero(bytes: &[u8], at: usize) -> u8
    ensures { result ≡ slice_index bytes.now at }
{
    if at < bytes.len() { bytes[at] } else { 0 }
}

// The 64 bits from bit `start` on of a word and the byte above it.
fn joined(low: u64, high: u8, start: usize) -> u64
    requires { start < 8 }
    ensures { result ≡ (high * 2 ^ 64 + low) / 2 ^ start % 2 ^ 64 }
{
    (low >> start) | ((high as u64) << 1 << (63 - start))
}

// A number whose lowest bits are 1: as many as there are places left, and at most 64.
fn low_ones(left: usize) -> u64
    ensures { result ≡ 2 ^ min left 64 - 1 }
{
    if left < 64 { (1 << left) - 1 } else { u64::MAX }
}
