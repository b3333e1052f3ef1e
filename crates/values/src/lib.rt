// Values, and the words that they are stored as.
#![tactic(auto)]

ghost use Rattle.std.specs.Prelude.{◌≡◌};
ghost use Rattle.std.specs.Int.{w32};
ghost use Rattle.std.proofs.Common.{to_z};
ghost use Rattle.machine.specs.Words.{kind_in, number_in, handle_in, truth_in, packed, unpacked};

use machine::{Value, kinds};

// The words of the two truths.
const FALSE: u64 = kinds::TRUTH;

const TRUE: u64 = 8 + kinds::TRUTH;

// Which value a word holds (kinds).
pub fn kind_of(w: u64) -> u64
    ensures { result ≡ kind_in w }
{
    w % 8
}

// An integer's bits, or the number of a table or a shape.
pub fn number_of(w: u64) -> u32
    ensures { result ≡ number_in w }
{
    (w / 8 % 4294967296) as u32
}

// A text's handle.
pub fn handle_of(w: u64) -> u64
    ensures { result ≡ handle_in w }
{
    w / 8
}

pub fn integer_of(w: u64) -> i32
    ensures { result ≡ to_z w32 (number_in w) }
{
    arithmetic::signed_of(number_of(w))
}

pub fn truth_of(w: u64) -> bool
    ensures { result ≡ truth_in w }
{
    w / 8 % 2 == 1
}

pub fn integer_word(z: i32) -> u64
    ensures { result ≡ packed (Value.Integer z) }
{
    kinds::INTEGER + 8 * (arithmetic::bits_of(z) as u64)
}

pub fn text_word(h: u64) -> u64
    ensures { result ≡ packed (Value.Text h) }
{
    kinds::TEXT + 8 * (h % 1099511627776)
}

pub fn truth_word(b: bool) -> u64
    ensures { result ≡ packed (Value.Boolean b) }
{
    if b { TRUE } else { FALSE }
}

pub fn table_word(t: u32) -> u64
    ensures { result ≡ packed (Value.Table t) }
{
    kinds::TABLE + 8 * (t as u64)
}

pub fn shape_word(i: u32) -> u64
    ensures { result ≡ packed (Value.Shape i) }
{
    kinds::SHAPE + 8 * (i as u64)
}

// The word of a value.
pub fn pack(v: Value) -> u64
    ensures { result ≡ packed v }
{
    match v {
        Value::Integer(z) => integer_word(z),
        Value::Text(h) => text_word(h),
        Value::Boolean(b) => truth_word(b),
        Value::Nothing => kinds::NOTHING,
        Value::Table(t) => table_word(t),
        Value::Shape(i) => shape_word(i),
    }
}

// The value of a word.
pub fn unpack(w: u64) -> Value
    ensures { result ≡ unpacked w }
{
    let kind = w % 8;
    if kind == kinds::INTEGER {
        return Value::Integer(integer_of(w));
    }
    if kind == kinds::TEXT {
        return Value::Text(w / 8);
    }
    if kind == kinds::TRUTH {
        return Value::Boolean(truth_of(w));
    }
    if kind == kinds::TABLE {
        return Value::Table(number_of(w));
    }
    if kind == kinds::SHAPE {
        return Value::Shape(number_of(w));
    }
    Value::Nothing
}
