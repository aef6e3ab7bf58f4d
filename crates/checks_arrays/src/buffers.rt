//! Checks of `col_buf`: bits stand where the Arrow format has them.
use col_buf::{Bitmap, Buffer};
use col_types::Error;
use std::alloc::Global;

// The bytes in a buffer.
fn buffer_of(alloc: Global, bytes: &[u8]) -> Result<Buffer<u8>, Error> {
    Buffer::from_vec(alloc, Vec::from_slice(alloc, bytes)?).map_err(|refused| refused.0)
}

// A bitmap of a text of 0s and 1s.
fn bitmap_of(alloc: Global, bits: &str) -> Result<Bitmap, Error> {
    let mut values = Vec::new(alloc);
    for bit in bits.bytes() {
        values.push(bit == b'1')?;
    }
    Bitmap::from_bools(alloc, values.as_slice())
}

// Whether the values of a bitmap are these 0s and 1s, one by one, in words and in number.
fn has_bits(bitmap: &Bitmap, bits: &[u8]) -> bool {
    if bitmap.len() != bits.len() {
        return false;
    }
    let mut unset: usize = 0;
    let mut same = true;
    for i in 0..bitmap.len() {
        let wanted = bits[i] == b'1';
        let bit = bitmap.chunk(i / 64) >> (i % 64) & 1 == 1;
        same = same && bitmap.get_bit(i) == wanted && bit == wanted;
        if !wanted {
            unset = unset.wrapping_add(1);
        }
    }
    same && bitmap.unset_bits() == unset
}

// Ten bytes, and their bits as the format counts them: the least bit of each byte first.
const BYTES: [u8; 10] = [
    0b10110010, 0b00000000, 0b11111111, 0b01011010, 0b10100101, 0b01001101, 0b11001010, 0b00011000,
    0b00100101, 0b10110110,
];

const BITS: &str =
    "01001101000000001111111101011010101001011011001001010011000110001010010001101101";

// Whether the bits of a part of the bytes are those of the text.
fn reads_part(alloc: Global, offset: usize, count: usize) -> Result<bool, Error> {
    let bitmap = Bitmap::try_new(buffer_of(alloc, &BYTES)?, offset, count)?;
    let rest = BITS.as_bytes().get(offset..).unwrap_or(&[]);
    Ok(has_bits(&bitmap, rest.get(..count).unwrap_or(&[])))
}

#[test]
fn bits_are_counted_from_the_least_of_each_byte(rt: HostRuntime) -> Result<(), Error> {
    for offset in [0, 1, 7, 8, 9, 13, 16] {
        for count in [0, 1, 3, 8, 60, 63, 64] {
            assert!(rt;
                reads_part(rt.alloc(), offset, count)?,
                "{count} bits from bit {offset} on"
            );
        }
    }
    Ok(())
}

// The refusal of a part of one byte.
fn refusal_of(alloc: Global, offset: usize, count: usize) -> Result<Option<Error>, Error> {
    Ok(Bitmap::try_new(buffer_of(alloc, &[178])?, offset, count).err())
}

#[test]
fn bits_past_the_bytes_are_refused(rt: HostRuntime) -> Result<(), Error> {
    let cases = [
        (3, 0, None),
        (3, 5, None),
        (8, 0, None),
        (3, 6, Some(Error::OutOfSpec)),
        (9, 0, Some(Error::OutOfSpec)),
        (3, usize::MAX, Some(Error::OutOfSpec)),
        (usize::MAX, 1, Some(Error::OutOfSpec)),
    ];
    for (offset, count, wanted) in cases {
        let refusal = refusal_of(rt.alloc(), offset, count)?;
        assert_eq!(rt; refusal, wanted, "{count} bits from bit {offset} on");
    }
    Ok(())
}

// Whether both of two bitmaps are these 0s and 1s.
fn is_both(alloc: Global, lhs: &Bitmap, rhs: &str, wanted: &str) -> Result<bool, Error> {
    let rhs = bitmap_of(alloc, rhs)?;
    if lhs.len() != rhs.len() {
        return Ok(false);
    }
    Ok(has_bits(&lhs.and(alloc, &rhs)?, wanted.as_bytes()))
}

#[test]
fn both_are_true_where_each_is(rt: HostRuntime) -> Result<(), Error> {
    let cases = [
        ("", "", ""),
        ("0011", "0101", "0001"),
        ("111111111", "100000001", "100000001"),
    ];
    for (lhs, rhs, wanted) in cases {
        let bitmap = bitmap_of(rt.alloc(), lhs)?;
        assert!(rt;
            is_both(rt.alloc(), &bitmap, rhs, wanted)?,
            "{lhs} and {rhs}"
        );
    }
    Ok(())
}

// Whether a cut of another holder's values has the last two of three.
fn cuts_buffer(buffer: &Buffer<u8>, wanted: &[u8; 2]) -> Result<bool, Error> {
    let copy = buffer.share()?;
    if copy.len() != 3 {
        return Ok(false);
    }
    Ok(copy.sliced(1, 2).as_slice() == wanted.as_slice())
}

// Whether a cut of another holder's values has three of five.
fn cuts_bitmap(bitmap: &Bitmap, wanted: &[u8]) -> Result<bool, Error> {
    let copy = bitmap.share()?;
    if copy.len() != 5 {
        return Ok(false);
    }
    Ok(has_bits(&copy.sliced(1, 3), wanted))
}

#[test]
fn each_call_of_col_buf_answers_with_ample_memory(rt: HostRuntime) -> Result<(), Error> {
    let buffer = buffer_of(rt.alloc(), &[5, 7, 9])?;
    assert!(rt; cuts_buffer(&buffer, &[7, 9])?, "a cut of a buffer");
    assert!(rt;
        buffer.as_slice() == [5, 7, 9].as_slice(),
        "its other holder"
    );
    let bitmap = bitmap_of(rt.alloc(), "10110")?;
    assert!(rt; cuts_bitmap(&bitmap, b"011")?, "a cut of a bitmap");
    assert!(rt; has_bits(&bitmap, b"10110"), "its other holder");
    Ok(())
}
