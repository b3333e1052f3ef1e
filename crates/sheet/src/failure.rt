// The line that tells an error.
ghost use Rattle.sheet.specs.Errors.{ErrorWritten};

pub fn write_error(out: &mut [u8], number: u64, place: u64) -> usize
    ensures { ErrorWritten number place out.old out.new result }
{
    let a = numerals::write_number_at(out, 0, b"error ", number);
    let b = numerals::write_number_at(out, a, b" at ", place);
    writing::write_bytes_at(out, b, b"\n")
}
