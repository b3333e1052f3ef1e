// The line that tells a number and where it stands.
ghost use Rattle.report.specs.Reports.{HeadingAt};

use crate::place::Position;

pub fn write_heading_at(out: &mut [u8], at: usize, number: u64, place: u64, p: Position) -> usize
    ensures { HeadingAt at number place p out.old out.new result }
{
    let a = numerals::write_number_at(out, at, b"error ", number);
    let b = numerals::write_number_at(out, a, b" at byte ", place);
    let c = numerals::write_number_at(out, b, b", line ", p.line as u64);
    let d = numerals::write_number_at(out, c, b", column ", p.column as u64);
    writing::write_bytes_at(out, d, b"\n")
}
