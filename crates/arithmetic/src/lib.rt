// Integers of 32 bits: they wrap, division rounds toward zero, a right shift rounds down. Sums, differences and products are
// computed in 64 bits, where none of them overflows, and their lowest 32 bits kept.
#![tactic(auto)]

ghost use Rattle.std.specs.Prelude.{◌-◌, ◌≡◌, false, ◌+ℤ◌};
ghost use Rattle.std.specs.Int.Signed.{lt_z};
ghost use Rattle.std.specs.Int.{w32};
ghost use Rattle.std.proofs.Common.{to_z};
ghost use Rattle.meaning.specs.Integer.{bits, wrap, sum, difference, product, quotient, remainder};
ghost use Rattle.meaning.specs.Integer.{amount, shifted_left, shifted_right, half};
ghost use Rattle.meaning.specs.Integer.{same_integer, is_zero, is_negative};

// The lowest 32 bits of z.
fn low_bits(z: i64) -> u32
    ensures { result ≡ bits z }
{
    (z & 4294967295) as u32
}

// The bits of z, in two's complement.
pub fn bits_of(z: i32) -> u32
    ensures { result ≡ bits z }
{
    low_bits(z as i64)
}

// The integer whose bits are n.
pub fn signed_of(n: u32) -> i32
    ensures { result ≡ to_z w32 n }
{
    if n < 2147483648 {
        n as i32
    } else {
        (n as i64 - 4294967296) as i32
    }
}

// z, wrapped to 32 bits.
fn wrapped(z: i64) -> i32
    ensures { result ≡ wrap z }
{
    signed_of(low_bits(z))
}

pub fn sum(a: i32, b: i32) -> i32
    ensures { result ≡ sum a b }
{
    wrapped(a as i64 + b as i64)
}

pub fn difference(a: i32, b: i32) -> i32
    ensures { result ≡ difference a b }
{
    wrapped(a as i64 - b as i64)
}

pub fn product(a: i32, b: i32) -> i32
    ensures { result ≡ product a b }
{
    wrapped(a as i64 * b as i64)
}

// Rounded toward zero. The quotient by -1 is taken apart, since -2147483648 / -1 does not fit.
pub fn quotient(a: i32, b: i32) -> i32
    requires { is_zero b ≡ false }
    ensures { result ≡ quotient a b }
{
    if b == -1 { difference(0, a) } else { a / b }
}

// With the dividend's sign.
pub fn remainder(a: i32, b: i32) -> i32
    requires { is_zero b ≡ false }
    ensures { result ≡ remainder a b }
{
    if b == -1 { 0 } else { a % b }
}

// How far a shift by b goes: b modulo 32, from 0 to 31.
fn shift_amount(b: i32) -> u32
    ensures { result ≡ amount b }
{
    bits_of(b) % 32
}

pub fn shifted_left(a: i32, b: i32) -> i32
    ensures { result ≡ shifted_left a b }
{
    a << shift_amount(b)
}

// Rounded down.
pub fn shifted_right(a: i32, b: i32) -> i32
    ensures { result ≡ shifted_right a b }
{
    a >> shift_amount(b)
}

pub fn less(a: i32, b: i32) -> bool
    ensures { result ≡ lt_z a b }
{
    a < b
}

pub fn same(a: i32, b: i32) -> bool
    ensures { result ≡ same_integer a b }
{
    a == b
}

pub fn is_zero(a: i32) -> bool
    ensures { result ≡ is_zero a }
{
    a == 0
}

pub fn is_negative(a: i32) -> bool
    ensures { result ≡ is_negative a }
{
    a < 0
}

// Half of a, rounded toward zero.
pub fn half(a: i32) -> i32
    ensures { result ≡ half a }
{
    a / 2
}

// Half of the exact sum, rounded toward zero: the centre of a line from a to b.
pub fn middle(a: i32, b: i32) -> i32
    ensures { result ≡ half (a +ℤ b) }
{
    ((a as i64 + b as i64) / 2) as i32
}

// The centre of a box from x, w wide.
pub fn corner_middle(x: i32, w: i32) -> i32
    ensures { result ≡ sum x (half w) }
{
    sum(x, half(w))
}

// ---- counts and places
// One lowered by another, 0 at least.
pub fn lowered(a: usize, b: usize) -> usize
    ensures { result ≡ a - b }
{
    a.saturating_sub(b)
}

// The same of words.
pub fn lowered_word(a: u64, b: u64) -> u64
    ensures { result ≡ a - b }
{
    a.saturating_sub(b)
}
