// Operators on two integers.
ghost use Rattle.machine.specs.declared.Value.TheVariants.{Integer};
ghost use Rattle.operators.specs.Parts.{Computes};

use machine::{Fault, Value, tags};

// The quotient, if y is not 0.
fn divide(p: u64, x: i32, y: i32) -> Result<Value, Fault>
    ensures { Computes 20 p (Integer x) (Integer y) result }
{
    if arithmetic::is_zero(y) {
        return Err(Fault::DivisionByZero(p));
    }
    Ok(Value::Integer(arithmetic::quotient(x, y)))
}

// The remainder, if y is not 0.
fn remainder(p: u64, x: i32, y: i32) -> Result<Value, Fault>
    ensures { Computes 21 p (Integer x) (Integer y) result }
{
    if arithmetic::is_zero(y) {
        return Err(Fault::DivisionByZero(p));
    }
    Ok(Value::Integer(arithmetic::remainder(x, y)))
}

// An operator, by its tag, on two integers.
pub fn on_integers(tag: u64, p: u64, x: i32, y: i32) -> Result<Value, Fault>
    ensures { Computes tag p (Integer x) (Integer y) result }
{
    match tag {
        tags::ADD => Ok(Value::Integer(arithmetic::sum(x, y))),
        tags::SUBTRACT => Ok(Value::Integer(arithmetic::difference(x, y))),
        tags::MULTIPLY => Ok(Value::Integer(arithmetic::product(x, y))),
        tags::DIVIDE => divide(p, x, y),
        tags::REMAINDER => remainder(p, x, y),
        tags::SHIFT_RIGHT => Ok(Value::Integer(arithmetic::shifted_right(x, y))),
        tags::SHIFT_LEFT => Ok(Value::Integer(arithmetic::shifted_left(x, y))),
        tags::EQUAL => Ok(Value::Boolean(arithmetic::same(x, y))),
        tags::UNEQUAL => Ok(Value::Boolean(!arithmetic::same(x, y))),
        tags::GREATER => Ok(Value::Boolean(arithmetic::less(y, x))),
        tags::LESS => Ok(Value::Boolean(arithmetic::less(x, y))),
        _ => Err(Fault::Misuse(p)),
    }
}
