//! Pieces of a text that is printed.

ghost use Rattle.std.specs.Prelude.{◌≡◌, ◌++◌, OnOk};
ghost use Rattle.std.specs.Fmt.{decimal};
ghost use Rattle.dur_rerun.specs.Files.{file_digit};

use dur_base::OutOfMemory;
use dur_outside::FileId;
use itoa::Buffer;

/// Appends these octets.
pub fn append(out: &mut Vec<u8>, piece: &[u8]) -> Result<(), OutOfMemory>
    ensures { OnOk result (out.new.items ≡ out.old.items ++ piece.now) }
{
    out.extend_from_slice(piece)?;
    Ok(())
}

/// Appends the decimal digits of a number.
pub fn append_number(out: &mut Vec<u8>, number: u64) -> Result<(), OutOfMemory>
    ensures { OnOk result (out.new.items ≡ out.old.items ++ decimal number) }
{
    let mut digits = Buffer::new();
    append(out, digits.format(number).as_bytes())
}

/// The digit of a file: 0 or 1.
pub fn digit_of(file: FileId) -> &'static [u8]
    ensures { result.now ≡ file_digit file }
{
    match file {
        FileId::Zero => b"0",
        FileId::One => b"1",
    }
}
