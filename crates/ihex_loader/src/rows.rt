// One record as a line of text.
ghost use Rattle.std.specs.Prelude.{◌≡◌, ◌≤◌, ◌++◌, ◌∷◌, [], IfOk, OnOk, length, string_bytes};
ghost use Rattle.hex.specs.Hex.{encode_upper};
ghost use Rattle.ihex_loader.specs.Written.{before_check, check_byte, record_bytes};
ghost use Rattle.ihex_loader.specs.Hex.{record_line};

use crate::line::sum_of;
use std::alloc::{AllocError, Global};

fn check_of(bytes: &[u8]) -> u8
    ensures { result ≡ check_byte bytes.now }
{
    0u8.wrapping_sub(sum_of(bytes))
}

// The digits, in upper case, of the bytes of a record: the count, the offset with its high byte first, the type, the
// data and the check byte.
fn digits_of(alloc: Global, kind: u8, offset: u16, bytes: &[u8]) -> Result<String, AllocError>
    requires { length bytes.now ≤ 255 }
    ensures { IfOk result (λ digits. string_bytes digits ≡ encode_upper (record_bytes kind offset bytes.now)) }
{
    let [high, low] = offset.to_be_bytes();
    let mut all = Vec::with_capacity(alloc, 32)?;
    all.extend_from_slice(&[bytes.len() as u8, high, low, kind])?;
    all.extend_from_slice(bytes)?;
    let check = check_of(&all);
    all.push(check)?;
    hex::encode_upper(alloc, all.as_slice())
}

/// Appends a record as a line: a colon, the digits of its bytes in upper case and LF.
pub fn put_record(
    alloc: Global,
    kind: u8,
    offset: u16,
    bytes: &[u8],
    text: &mut Vec<u8>,
) -> Result<(), AllocError>
    requires { length bytes.now ≤ 255 }
    ensures { OnOk result (text.new.items ≡ text.old.items ++ record_line kind offset bytes.now) }
{
    let digits = digits_of(alloc, kind, offset, bytes)?;
    text.push(b':')?;
    text.extend_from_slice(digits.as_str().as_bytes())?;
    text.extend_from_slice(b"\n")
}
