// The line of a frame.
ghost use Rattle.std.specs.Prelude.{◌≡◌, ◌≤◌, ◌++◌, OnOk, length};
ghost use Rattle.std.specs.List.{flat_map};
ghost use Rattle.arrayvec.specs.ArrayString.{array_string_len};
ghost use Rattle.sim_io.specs.Digits.{hex2};
ghost use Rattle.run_reports.specs.Frames.{frame_head, frame_line};

use air_sniffer::Frame;
use arrayvec::ArrayString;
use sim_io::{put_decimal, put_hex2};
use std::alloc::AllocError;

// Appends two digits for each byte of a payload.
fn put_payload(bytes: &[u8], text: &mut Vec<u8>) -> Result<(), AllocError>
    ensures { OnOk result (text.new.items ≡ text.old.items ++ flat_map hex2 bytes.now) }
{
    for byte in bytes {
        let mut digits = ArrayString::<2>::new();
        put_hex2(*byte, &mut digits);
        text.extend_from_slice(digits.as_str().as_bytes())?;
    }
    Ok(())
}

// What stands before the payload.
#[tactic(auto, unfolding(crate::specs::Frames::frame_head))]
fn head(frame: &Frame) -> ArrayString<64>
    ensures { result.bytes ≡ frame_head frame.now }
{
    let mut head = ArrayString::new();
    put_decimal(frame.cycle, &mut head);
    head.push_str(" ");
    put_decimal(frame.node, &mut head);
    head.push_str(" frame ");
    put_decimal(frame.payload.bytes().len() as u64, &mut head);
    head.push_str(" ");
    head
}

/// Appends the line of a frame.
#[tactic(auto, unfolding(crate::specs::Frames::frame_line))]
pub fn put_frame(frame: &Frame, text: &mut Vec<u8>) -> Result<(), AllocError>
    ensures { OnOk result (text.new.items ≡ text.old.items ++ frame_line frame.now) }
{
    text.extend_from_slice(head(frame).as_str().as_bytes())?;
    put_payload(frame.payload.bytes(), text)?;
    text.extend_from_slice(b"\n")
}
