// Images that nobody wrote as a program.
use arrayvec::ArrayString;
use sim_io::put_hex2;
use std::alloc::{AllocError, Global};

// A word after a word: a linear congruential generator of 16 bits.
fn word_after(word: u16) -> u16 {
    word.wrapping_mul(25_173).wrapping_add(13_849)
}

fn put_byte(byte: u8, text: &mut Vec<u8>) -> Result<(), AllocError> {
    let mut digits = ArrayString::<4>::new();
    put_hex2(byte, &mut digits);
    text.extend_from_slice(digits.as_str().as_bytes())?;
    Ok(())
}

// A record of these bytes, and behind them the one that makes their sum 0.
fn put_record(bytes: &[u8], text: &mut Vec<u8>) -> Result<(), AllocError> {
    let mut sum = 0u8;
    text.push(b':')?;
    for byte in bytes {
        put_byte(*byte, text)?;
        sum = sum.wrapping_add(*byte);
    }
    put_byte(0u8.wrapping_sub(sum), text)?;
    text.push(b'\n')?;
    Ok(())
}

/// The image of 256 words, of which this is the first, as Intel HEX.
pub fn image(alloc: Global, first: u16) -> Result<Vec<u8>, AllocError> {
    let mut text = Vec::new(alloc);
    let mut word = first;
    for record in 0..32u16 {
        let mut bytes = Vec::new(alloc);
        let [high, low] = (record * 16).to_be_bytes();
        bytes.extend_from_slice(&[16, high, low, 0])?;
        for _ in 0..8u8 {
            bytes.extend_from_slice(&word.to_le_bytes())?;
            word = word_after(word);
        }
        put_record(bytes.as_slice(), &mut text)?;
    }
    text.extend_from_slice(b":00000001FF\n")?;
    Ok(text)
}
