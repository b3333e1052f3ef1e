// An operator on any two values: destroyed shapes and kinds are asked here. A value is handed over as its word.
#![tactic(auto)]

ghost use Rattle.std.specs.Prelude.{◌≡◌};
ghost use Rattle.machine.specs.Words.{unpacked};
ghost use Rattle.machine.specs.Layout.{Room, Lent};
ghost use Rattle.machine.specs.Act.{DoesIn};
ghost use Rattle.machine.specs.Operate.{joined, operate};
ghost use Rattle.operators.specs.Parts.{Calculates, Mixes, Operates};

use machine::{Fault, Value, kinds, tags};
use operators::{equality, integers, shapes};

// Two texts, one behind the other.
fn join(
    program: &[u8],
    grants: &[u64; 5],
    texts: &mut [u8],
    words: &mut [u64],
    p: u64,
    a: u64,
    b: u64,
) -> Result<Value, Fault>
    requires { Lent grants.now texts.old words.old }
    ensures { DoesIn texts.old words.old
        (joined program.now grants.now p (unpacked a) (unpacked b)) result texts.new words.new }
{
    if a % 8 != kinds::TEXT {
        return Err(Fault::Misuse(p));
    }
    if b % 8 != kinds::TEXT {
        return Err(Fault::Misuse(p));
    }
    texts::join_texts(
        program,
        texts,
        words,
        grants,
        p,
        values::handle_of(a),
        values::handle_of(b),
    )
}

// A shape and an integer; 20 for any other values that are not both integers.
fn calculate(
    words: &mut [u64],
    grants: &[u64; 5],
    tag: u64,
    p: u64,
    a: u64,
    b: u64,
) -> Result<Value, Fault>
    requires { Room grants.now words.old }
    ensures { Calculates grants.now words.old tag p a b result words.new }
{
    if a % 8 != kinds::SHAPE {
        return Err(Fault::Misuse(p));
    }
    if b % 8 != kinds::INTEGER {
        return Err(Fault::Misuse(p));
    }
    shapes::on_shape(
        words,
        grants,
        tag,
        p,
        values::number_of(a),
        values::integer_of(b),
    )
}

// Values that are not both integers, neither of them a destroyed shape.
fn on_usable(
    program: &[u8],
    grants: &[u64; 5],
    texts: &mut [u8],
    words: &mut [u64],
    tag: u64,
    p: u64,
    a: u64,
    b: u64,
) -> Result<Value, Fault>
    requires { Lent grants.now texts.old words.old }
    ensures { Mixes program.now grants.now texts.old words.old tag p a b result texts.new words.new }
{
    match tag {
        tags::CONCATENATE => join(program, grants, texts, words, p, a, b),
        tags::EQUAL => equality::equal(program, texts, words, grants, p, a, b),
        tags::UNEQUAL => equality::unequal(program, texts, words, grants, p, a, b),
        _ => calculate(words, grants, tag, p, a, b),
    }
}

// Values that are not both integers.
fn on_mixed(
    program: &[u8],
    grants: &[u64; 5],
    texts: &mut [u8],
    words: &mut [u64],
    tag: u64,
    p: u64,
    a: u64,
    b: u64,
) -> Result<Value, Fault>
    requires { Lent grants.now texts.old words.old }
    ensures { Operates program.now grants.now texts.old words.old tag p a b result texts.new words.new }
{
    frames::variables::usable(words, a, p)?;
    frames::variables::usable(words, b, p)?;
    on_usable(program, grants, texts, words, tag, p, a, b)
}

// An operator, by its tag, on two values at a place.
pub fn operate(
    program: &[u8],
    grants: &[u64; 5],
    texts: &mut [u8],
    words: &mut [u64],
    tag: u64,
    p: u64,
    a: u64,
    b: u64,
) -> Result<Value, Fault>
    requires { Lent grants.now texts.old words.old }
    ensures { DoesIn texts.old words.old
        (operate program.now grants.now tag p (unpacked a) (unpacked b)) result texts.new words.new }
{
    if operators::both_integers(a, b) {
        return integers::on_integers(tag, p, values::integer_of(a), values::integer_of(b));
    }
    on_mixed(program, grants, texts, words, tag, p, a, b)
}
