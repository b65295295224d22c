//! The notation of texts in the table: `\n`, `\t`, `\r` and `\x00` are bytes, and `[3:a%]` is a0a1a2.
ghost use Rattle.std.specs.Prelude.{◌<◌};

use std::alloc::{AllocError, Global};

/// Adds the bytes that the notation stands for.
pub fn push_text(heap: Global, bytes: &mut Vec<u8>, notation: &str) -> Result<(), AllocError> {
    for piece in notation.split('[') {
        match piece.split_once(']') {
            None => push_piece(heap, bytes, piece, 0)?,
            Some((repeated, rest)) => {
                push_repeated(heap, bytes, repeated)?;
                push_piece(heap, bytes, rest, 0)?;
            }
        }
    }
    Ok(())
}

/// Adds a piece as often as the number in front of it says.
fn push_repeated(heap: Global, bytes: &mut Vec<u8>, repeated: &str) -> Result<(), AllocError> {
    let Some((times, piece)) = repeated.split_once(':') else {
        return Ok(());
    };
    for n in 0..times.parse::<u32>().unwrap_or(0) {
        push_piece(heap, bytes, piece, n)?;
    }
    Ok(())
}

/// Adds a piece, in which `%` stands for the number.
fn push_piece(heap: Global, bytes: &mut Vec<u8>, piece: &str, n: u32) -> Result<(), AllocError> {
    let mut parts = piece.split('\\');
    if let Some(plain) = parts.next() {
        push_plain(heap, bytes, plain.as_bytes(), n)?;
    }
    for part in parts {
        push_escaped(heap, bytes, part.as_bytes(), n)?;
    }
    Ok(())
}

/// Adds what stands behind a backslash.
fn push_escaped(heap: Global, bytes: &mut Vec<u8>, part: &[u8], n: u32) -> Result<(), AllocError> {
    let (byte, rest) = match part {
        [b'n', rest @ ..] => (b'\n', rest),
        [b't', rest @ ..] => (b'\t', rest),
        [b'r', rest @ ..] => (b'\r', rest),
        [b'x', high, low, rest @ ..] => (digit(*high) * 16 + digit(*low), rest),
        _ => (b'\\', part),
    };
    bytes.push(byte)?;
    push_plain(heap, bytes, rest, n)
}

fn push_plain(heap: Global, bytes: &mut Vec<u8>, part: &[u8], n: u32) -> Result<(), AllocError> {
    for byte in part {
        if *byte == b'%' {
            bytes.extend_from_slice(n.to_string(heap)?.as_bytes())?;
        } else {
            bytes.push(*byte)?;
        }
    }
    Ok(())
}

/// The value of a hexadecimal digit.
fn digit(byte: u8) -> u8
    ensures { result < 16 }
{
    match byte {
        b'0'..=b'9' => byte - b'0',
        b'a'..=b'f' => byte - b'a' + 10,
        _ => 0,
    }
}
