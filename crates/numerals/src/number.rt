// Numbers as text.
ghost use Rattle.numerals.specs.Numbers.{NumberAt};

// A byte string and then a number in decimal, from a place on; the place behind them. What does not fit is left out.
pub fn write_number_at(out: &mut [u8], at: usize, lead: &[u8], n: u64) -> usize
    ensures { NumberAt at lead.now n out.old out.new result }
{
    let next = writing::write_bytes_at(out, at, lead);
    writing::write_digits_at(out, next, n)
}
