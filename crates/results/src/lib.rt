// Constants and variables, and what an expression does once its parts are evaluated.
#![tactic(auto)]

ghost use Rattle.std.specs.Prelude.{ℕ, ◌*◌, ◌≤◌, ◌≡◌, List, length, eqb};
ghost use Rattle.std.specs.Int.{w32};
ghost use Rattle.std.proofs.Common.{to_z};
ghost use Rattle.machine.specs.Opcodes.{tag_in, number_in};
ghost use Rattle.machine.specs.declared.Value.TheVariants.{Integer, Text, Boolean};
ghost use Rattle.machine.specs.Act.{Does, DoesIn};
ghost use Rattle.machine.specs.Layout.{fixed_words, Room, Lent};
ghost use Rattle.machine.specs.Primaries.{leaf, sized, lacks_table, applied, called};

use machine::{Fault, Value, kinds, tags};

// ---- constants and variables, by the word of the code
fn number(w: u64) -> Value
    ensures { result ≡ Integer (to_z w32 (number_in w)) }
{
    Value::Integer(arithmetic::signed_of((w / 4294967296) as u32))
}

fn string(w: u64) -> Value
    ensures { result ≡ Text (2 * number_in w) }
{
    Value::Text(2 * (w / 4294967296))
}

fn truth(w: u64) -> Value
    ensures { result ≡ Boolean (eqb (number_in w) 1) }
{
    Value::Boolean(w / 4294967296 == 1)
}

pub fn leaf(words: &[u64], w: u64, p: u64) -> Result<Value, Fault>
    requires { fixed_words ≤ length words.now }
    ensures { Does words.now (leaf p w) result words.now }
{
    match code::tag_of(w) {
        tags::NUMBER => Ok(number(w)),
        tags::STRING => Ok(string(w)),
        tags::NONE => Ok(Value::Nothing),
        tags::TRUTH => Ok(truth(w)),
        _ => frames::variables::variable(words, p, code::index_of(w)),
    }
}

// ---- operands
// A new table by the word of its size: 20 if that is no integer, 40 if it is negative.
pub fn new_table(words: &mut [u64], a: u64, p: u64) -> Result<Value, Fault>
    requires { fixed_words ≤ length words.old }
    ensures { Does words.old (sized p a) result words.new }
{
    if values::kind_of(a) != kinds::INTEGER {
        return Err(Fault::Misuse(p));
    }
    if arithmetic::is_negative(values::integer_of(a)) {
        return Err(Fault::NegativeSize(p));
    }
    Ok(Value::Table(stores::counters::new_table(words)))
}

// Whether the first part of a table read, by its word, is no table.
pub fn lacks_table(tag: u64, a: u64) -> bool
    ensures { result ≡ lacks_table tag a }
{
    if tags::FIRST_OPERATOR <= tag {
        return false;
    }
    values::kind_of(a) != kinds::TABLE
}

// A table read or an operator, by its tag, on the words of its two parts.
pub fn apply(
    program: &[u8],
    grants: &[u64; 5],
    texts: &mut [u8],
    words: &mut [u64],
    tag: u64,
    p: u64,
    a: u64,
    b: u64,
) -> Result<Value, Fault>
    requires { Lent grants.now texts.old words.old }
    ensures { DoesIn texts.old words.old (applied program.now grants.now tag p a b) result texts.new words.new }
{
    if tag == tags::ENTRY {
        return tables::entries::read_entry(
            program,
            texts,
            words,
            grants,
            p,
            values::number_of(a),
            b,
        );
    }
    dispatch::operate(program, grants, texts, words, tag, p, a, b)
}

// ---- calls
// A library procedure on the arguments held from the one numbered base on, which are then dropped.
pub fn called(
    words: &mut [u64],
    grants: &[u64; 5],
    number: u64,
    p: u64,
    base: u64,
) -> Result<Value, Fault>
    requires { Room grants.now words.old }
    ensures { Does words.old (called grants.now number p base) result words.new }
{
    let n = arithmetic::lowered_word(stores::arguments::arguments_held(words), base);
    let v = library::call_library(words, grants, number, p, base, n)?;
    stores::arguments::drop_to(words, base);
    Ok(v)
}
