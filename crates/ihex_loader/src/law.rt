// Laws of the definitions.
ghost use Rattle.std.specs.Prelude.{◌≡◌, ◌∷◌, ℕ, List, None};
ghost use Rattle.hex.specs.Hex.{IsBytes, encode_lower, encode_upper};
ghost use Rattle.ihex_loader.specs.Flash.{Image};
ghost use Rattle.ihex_loader.specs.Image.{image, hex_fault, lines_of};
ghost use Rattle.ihex_loader.specs.Accepted.{IsImage};
ghost use Rattle.ihex_loader.specs.Line.{Record, line_of};
ghost use Rattle.ihex_loader.specs.Written.{IsWritable, record_bytes};

/// A law of the definitions that `load` is proved by, with nothing to run: a file with no fault is an accepted image
/// and gives `image` of its bytes, and there is no other accepted image and nothing else that it gives. `IsImage` says
/// line by line, with no order of work, what is accepted and which byte of flash each line gives.
pub fn accepted_image_is_determined()
    ensures accepted { (bytes : List ℕ) → hex_fault bytes ≡ None → IsImage (lines_of bytes) (image bytes) }
    ensures determined { (bytes : List ℕ) (flash : Image) → IsImage (lines_of bytes) flash → (hex_fault bytes ≡ None) × (flash ≡ image bytes) }
{}

/// A law of the definitions that `load` is proved by, with nothing to run: a record that was written as the format
/// says, with a colon, digits of either case and its check byte, is read as that record.
pub fn written_record_is_read()
    ensures upper { (kind offset : ℕ) (bytes : List ℕ) → IsWritable kind offset bytes → line_of (58 ∷ encode_upper (record_bytes kind offset bytes)) ≡ Record kind offset bytes }
    ensures lower { (kind offset : ℕ) (bytes : List ℕ) → IsWritable kind offset bytes → line_of (58 ∷ encode_lower (record_bytes kind offset bytes)) ≡ Record kind offset bytes }
{}

/// A law of the definitions that `load` is proved by, with nothing to run: the flash that a file gives has bytes, each
/// below 256, whatever stands in the file.
pub fn image_has_bytes()
    ensures { (bytes : List ℕ) → IsBytes (image bytes).bytes }
{}
