//! Bytes written as hexadecimal digits.

use std::alloc::{AllocError, Global};

/// The value of a hexadecimal digit, 0 for other bytes.
fn digit_of(byte: u8) -> u8 {
    match byte {
        b'0'..=b'9' => byte - b'0',
        b'a'..=b'f' => byte - b'a' + 10,
        _ => 0,
    }
}

/// The bytes of a text of hexadecimal digits; spaces may stand between two bytes.
pub fn bytes_of(alloc: Global, text: &str) -> Result<Vec<u8>, AllocError> {
    let mut bytes = Vec::new(alloc);
    let mut high = None;
    for byte in text.as_bytes() {
        if *byte == b' ' {
            continue;
        }
        match high {
            None => high = Some(digit_of(*byte)),
            Some(first) => {
                bytes.push(first.wrapping_mul(16) | digit_of(*byte))?;
                high = None;
            }
        }
    }
    Ok(bytes)
}
