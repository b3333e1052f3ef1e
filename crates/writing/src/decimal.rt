// Numbers in decimal.
ghost use Rattle.std.specs.Prelude.{◌≡◌, ◌+◌, ◌/◌, ◌%◌, ◌≤◌, ◌^◌, length};
ghost use Rattle.meaning.specs.Picture.{digits_of, decimal};
ghost use Rattle.writing.specs.Placed.{WroteAt};
ghost use Rattle.writing.specs.Digits.{pair};

use crate::place::write_bytes_at;

// How many digits n has: one more than its logarithm by ten, and 0 has one.
#[tactic(auto, using(crate::proofs::Decimals::digits_by_power))]
fn digit_count(n: u64) -> usize
    ensures { result ≡ length (digits_of n) }
{
    n.max(1).ilog10() as usize + 1
}

// n without its last digits, as many as asked.
fn without_last(n: u64, count: usize) -> u64
    ensures { result ≡ n / 10 ^ count }
{
    let mut rest = n;
    for _ in 0..count {
        rest = rest / 10;
    }
    rest
}

fn last_digit(n: u64) -> u8
    ensures { result ≡ n % 10 + 48 }
{
    ((n % 10) as u8) + 48
}

// The digits of n, from the last that fits to the first: each is the remainder of a division by ten.
pub fn write_digits_at(out: &mut [u8], at: usize, n: u64) -> usize
    ensures { WroteAt at (digits_of n) out.old out.new result }
{
    let count = digit_count(n);
    let fits = count.min(out.len().saturating_sub(at));
    let mut rest = without_last(n, count - fits);
    for i in (0..fits).rev() {
        out[at + i] = last_digit(rest);
        rest = rest / 10;
    }
    at.saturating_add(count)
}

// How many bytes a number has in decimal.
pub fn decimal_length(z: i64) -> usize
    ensures { result ≡ length (decimal z) }
{
    let count = digit_count(z.unsigned_abs());
    if z.is_negative() { count + 1 } else { count }
}

pub fn write_decimal_at(out: &mut [u8], at: usize, z: i64) -> usize
    ensures { WroteAt at (decimal z) out.old out.new result }
{
    let n = z.unsigned_abs();
    if z.is_negative() {
        let next = write_bytes_at(out, at, b"-");
        return write_digits_at(out, next, n);
    }
    write_digits_at(out, at, n)
}

// A byte string and then a number.
pub fn write_pair_at(out: &mut [u8], at: usize, lead: &[u8], z: i64) -> usize
    ensures { WroteAt at (pair lead.now z) out.old out.new result }
{
    let next = write_bytes_at(out, at, lead);
    write_decimal_at(out, next, z)
}

// How many bytes two numbers have.
pub fn pair_length(a: i64, b: i64) -> usize
    ensures value { result ≡ length (decimal a) + length (decimal b) }
    ensures upper_bound { result ≤ 40 }
{
    decimal_length(a) + decimal_length(b)
}
