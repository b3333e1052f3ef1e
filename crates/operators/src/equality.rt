// Equality of values.
ghost use Rattle.std.specs.Prelude.{◌≡◌};
ghost use Rattle.machine.specs.Words.{unpacked};
ghost use Rattle.machine.specs.Layout.{Room};
ghost use Rattle.machine.specs.Act.{DoesIn};
ghost use Rattle.machine.specs.Operate.{operate_on};
ghost use Rattle.operators.specs.Parts.{kind_number, unlike};
ghost use Rattle.operators.specs.Equality.{equating};

use machine::{Fault, Value, kinds};

// A value's kind; a word of no other kind holds nothing.
fn kind(w: u64) -> u64
    ensures { result ≡ kind_number (unpacked w) }
{
    match w % 8 {
        kinds::INTEGER => kinds::INTEGER,
        kinds::TEXT => kinds::TEXT,
        kinds::TRUTH => kinds::TRUTH,
        kinds::TABLE => kinds::TABLE,
        kinds::SHAPE => kinds::SHAPE,
        _ => kinds::NOTHING,
    }
}

// Of values of two kinds: nothing and any other value are unequal.
fn unlike(p: u64, k: u64, l: u64) -> Result<bool, Fault>
    ensures { result ≡ unlike p k l }
{
    if k == kinds::NOTHING {
        return Ok(false);
    }
    if l == kinds::NOTHING {
        return Ok(false);
    }
    Err(Fault::Misuse(p))
}

// Whether two values are equal, if they may be compared.
fn equality<'a>(
    program: &'a [u8],
    texts: &'a [u8],
    words: &mut [u64],
    grants: &[u64; 5],
    p: u64,
    a: u64,
    b: u64,
) -> Result<bool, Fault>
    requires { Room grants.now words.old }
    ensures { DoesIn texts.now words.old (equating program.now grants.now p a b) result texts.now words.new }
{
    let k = kind(a);
    let l = kind(b);
    if k != l {
        return unlike(p, k, l);
    }
    match k {
        kinds::INTEGER => Ok(arithmetic::same(values::integer_of(a), values::integer_of(b))),
        kinds::TEXT => Ok(texts::same_text(
            program,
            texts,
            values::handle_of(a),
            values::handle_of(b),
        )),
        kinds::TRUTH => Ok(a / 8 % 2 == b / 8 % 2),
        kinds::NOTHING => Ok(true),
        kinds::SHAPE => {
            let i = values::number_of(a);
            let j = values::number_of(b);
            pairs::alike(program, texts, words, grants, p, i, j)
        }
        _ => Err(Fault::Misuse(p)),
    }
}

// a == b.
pub fn equal<'a>(
    program: &'a [u8],
    texts: &'a [u8],
    words: &mut [u64],
    grants: &[u64; 5],
    p: u64,
    a: u64,
    b: u64,
) -> Result<Value, Fault>
    requires { Room grants.now words.old }
    ensures { DoesIn texts.now words.old
        (operate_on program.now grants.now 24 p (unpacked a) (unpacked b)) result texts.now words.new }
{
    let same = equality(program, texts, words, grants, p, a, b)?;
    Ok(Value::Boolean(same))
}

// a != b.
pub fn unequal<'a>(
    program: &'a [u8],
    texts: &'a [u8],
    words: &mut [u64],
    grants: &[u64; 5],
    p: u64,
    a: u64,
    b: u64,
) -> Result<Value, Fault>
    requires { Room grants.now words.old }
    ensures { DoesIn texts.now words.old
        (operate_on program.now grants.now 25 p (unpacked a) (unpacked b)) result texts.now words.new }
{
    let same = equality(program, texts, words, grants, p, a, b)?;
    Ok(Value::Boolean(!same))
}
