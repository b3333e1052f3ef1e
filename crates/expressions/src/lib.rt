// Expressions, operands, primaries and arguments, which call each other: the tokens left fall. Token words are read from left to right, and the
// code of what was read is written. `left` is how many levels may still be opened, `i` a token, and `n` the first free word.
#![tactic(auto)]

pub mod kinds;
pub mod token;

ghost use Rattle.std.specs.Prelude.{◌≡◌, ◌+◌, ◌<◌};
ghost use Rattle.meaning.specs.Grammar.{no_level};
ghost use Rattle.expressions.specs.Words.{kind_at, leaf, expression, operand, primary, arguments, inside_of, seen, written, written_code};
ghost use Rattle.expressions.specs.Room.{Room, Spot, Spare};
ghost use Rattle.expressions.specs.Steps.{closed, finished, combined};

use machine::tags;

// What an expression is as an assignment's left side.
#[derive(Clone, Copy, Debug, PartialEq, Eq)]
pub enum Target {
    Neither,
    Name,
    Entry,
}

// What was read: the token behind it, the word behind its code, and what it is as an assignment's left side.
#[derive(Clone, Copy, Debug, PartialEq, Eq)]
pub struct Read {
    pub token: usize,
    pub word: usize,
    pub target: Target,
}

// A number, and the token that fails.
#[derive(Clone, Copy, Debug, PartialEq, Eq)]
pub struct Misfit {
    pub number: u64,
    pub token: usize,
}

// An operand, or two with one operator.
#[cycle(reading)]
pub fn read_expression(
    tokens: &[u64],
    words: &mut [u64],
    i: usize,
    n: usize,
    left: usize,
) -> Result<Read, Misfit>
    requires { Room tokens.now words.old i n }
    ensures { seen result words.new ≡ written (expression left tokens.now i) n words.old }
{
    let a = read_operand(tokens, words, i, n, left)?;
    let Some(tag) = token::operator_tag(token::kind_at(tokens, a.token)) else {
        return Ok(a);
    };
    let b = read_operand(tokens, words, a.token + 1, a.word, left)?;
    Ok(join(words, b, tag, n, a.word, Target::Neither))
}

// A primary, or two with a dot between.
#[cycle(reading)]
fn read_operand(
    tokens: &[u64],
    words: &mut [u64],
    i: usize,
    n: usize,
    left: usize,
) -> Result<Read, Misfit>
    requires { Room tokens.now words.old i n }
    ensures { seen result words.new ≡ written (operand (inside_of left tokens.now) tokens.now i) n words.old }
{
    let a = read_primary(tokens, words, i, n, left)?;
    if token::kind_at(tokens, a.token) != kinds::DOT {
        return Ok(a);
    }
    let b = read_primary(tokens, words, a.token + 1, a.word, left)?;
    Ok(join(words, b, tags::ENTRY, n, a.word, Target::Entry))
}

// The word behind two parts: the first has the words from n up to m, the second was read as b.
fn join(words: &mut [u64], b: Read, tag: u64, n: usize, m: usize, target: Target) -> Read
    requires { Spare words.old b n m tag }
    ensures { seen (Ok result) words.new ≡ combined tag n m target (seen (Ok b) words.old) }
{
    let e = b.word;
    code::put(
        words,
        e,
        code::word_of(tag, (e - n + 1) as u64, (e - m) as u64),
    );
    Read {
        token: b.token,
        word: e + 1,
        target,
    }
}

// A constant, a name, a call, a table creation or a parenthesised expression.
#[cycle(reading)]
fn read_primary(
    tokens: &[u64],
    words: &mut [u64],
    i: usize,
    n: usize,
    left: usize,
) -> Result<Read, Misfit>
    requires { Room tokens.now words.old i n }
    ensures { seen result words.new ≡ written (primary (inside_of left tokens.now) tokens.now i) n words.old }
{
    let kind = token::kind_at(tokens, i);
    match kind {
        kinds::DIGITS => read_digits(tokens, words, i, n),
        kinds::MINUS => read_negative(tokens, words, i, n),
        kinds::STRING => Ok(put_leaf(
            words,
            i,
            n,
            tags::STRING,
            token::part_at(tokens, i),
            Target::Neither,
        )),
        kinds::NONE => Ok(put_leaf(words, i, n, tags::NONE, 0, Target::Neither)),
        kinds::TRUE => Ok(put_leaf(words, i, n, tags::TRUTH, 1, Target::Neither)),
        kinds::FALSE => Ok(put_leaf(words, i, n, tags::TRUTH, 0, Target::Neither)),
        kinds::NAME => {
            if token::kind_at(tokens, i + 1) != kinds::OPEN {
                let home = token::home_at(tokens, i);
                return Ok(put_leaf(words, i, n, tags::NAME, home, Target::Name));
            }
            if left == 0 {
                return Err(Misfit {
                    number: 75,
                    token: i + 1,
                });
            }
            let es = read_arguments(tokens, words, i + 2, n, left - 1)?;
            Ok(finish(words, es, tags::CALL, n, token::callee_at(tokens, i)))
        }
        kinds::OPEN => {
            if left == 0 {
                return Err(Misfit {
                    number: 75,
                    token: i,
                });
            }
            let e = read_expression(tokens, words, i + 1, n, left - 1)?;
            close(tokens, e, kinds::CLOSE)
        }
        kinds::OPEN_BRACKET => {
            if left == 0 {
                return Err(Misfit {
                    number: 75,
                    token: i,
                });
            }
            let e = read_expression(tokens, words, i + 1, n, left - 1)?;
            let b = close(tokens, e, kinds::CLOSE_BRACKET)?;
            Ok(finish(words, b, tags::TABLE, n, 0))
        }
        _ => Err(Misfit {
            number: 10,
            token: i,
        }),
    }
}

// One word, for token i.
fn put_leaf(words: &mut [u64], i: usize, n: usize, tag: u64, x: u64, target: Target) -> Read
    requires { Spot words.old i n tag x }
    ensures { seen (Ok result) words.new ≡ written (leaf tag x target (i + 1)) n words.old }
{
    code::put(words, n, code::word_of(tag, 1, x));
    Read {
        token: i + 1,
        word: n + 1,
        target,
    }
}

// A constant without a minus. It opens no level.
fn read_digits(tokens: &[u64], words: &mut [u64], i: usize, n: usize) -> Result<Read, Misfit>
    requires room { Room tokens.now words.old i n }
    requires i_value { kind_at tokens.now i ≡ 2 }
    ensures { seen result words.new ≡ written (primary no_level tokens.now i) n words.old }
{
    let x = token::payload_at(tokens, i);
    if 2147483647 < x {
        return Err(Misfit {
            number: 10,
            token: i,
        });
    }
    Ok(put_leaf(words, i, n, tags::NUMBER, x, Target::Neither))
}

// A constant with a minus, which is token i: the digits stand directly behind it. It opens no level.
fn read_negative(tokens: &[u64], words: &mut [u64], i: usize, n: usize) -> Result<Read, Misfit>
    requires room { Room tokens.now words.old i n }
    requires i_value { kind_at tokens.now i ≡ 45 }
    ensures { seen result words.new ≡ written (primary no_level tokens.now i) n words.old }
{
    if !token::is_signed(tokens, i) {
        return Err(Misfit {
            number: 10,
            token: i,
        });
    }
    let x = token::payload_at(tokens, i + 1);
    if 2147483648 < x {
        return Err(Misfit {
            number: 10,
            token: i + 1,
        });
    }
    Ok(put_leaf(
        words,
        i + 1,
        n,
        tags::NUMBER,
        (4294967296 - x) % 4294967296,
        Target::Neither,
    ))
}

// The token of a kind that has to follow what was read.
pub fn close(tokens: &[u64], e: Read, kind: u64) -> Result<Read, Misfit>
    requires { kind ≡ 0 → ⊥ }
    ensures { result ≡ closed kind tokens.now e }
{
    if token::kind_at(tokens, e.token) != kind {
        return Err(Misfit {
            number: 10,
            token: e.token,
        });
    }
    Ok(Read {
        token: e.token + 1,
        word: e.word,
        target: Target::Neither,
    })
}

// The word behind what was read, which has the words from n on.
fn finish(words: &mut [u64], e: Read, tag: u64, n: usize, x: u64) -> Read
    requires spare { Spare words.old e n n tag }
    requires x_bound { x < 4294967296 }
    ensures { seen (Ok result) words.new ≡ finished tag n x (seen (Ok e) words.old) }
{
    let m = e.word;
    code::put(words, m, code::word_of(tag, (m - n + 1) as u64, x));
    Read {
        token: e.token,
        word: m + 1,
        target: Target::Neither,
    }
}

// Arguments and the closing parenthesis. The word before each argument holds how many words it has.
#[cycle(reading)]
fn read_arguments(
    tokens: &[u64],
    words: &mut [u64],
    i: usize,
    n: usize,
    left: usize,
) -> Result<Read, Misfit>
    requires { Room tokens.now words.old i (n + 1) }
    ensures { seen result words.new ≡ written_code (arguments (expression left tokens.now) tokens.now i) n words.old }
{
    if token::kind_at(tokens, i) == kinds::CLOSE {
        return Ok(Read {
            token: i + 1,
            word: n,
            target: Target::Neither,
        });
    }
    let mut at = i;
    let mut m = n;
    loop {
        let e = read_expression(tokens, words, at, m + 1, left)?;
        code::put(
            words,
            m,
            code::word_of(tags::ARGUMENT, (e.word - m - 1) as u64, 0),
        );
        let kind = token::kind_at(tokens, e.token);
        if kind == kinds::CLOSE {
            return Ok(Read {
                token: e.token + 1,
                word: e.word,
                target: Target::Neither,
            });
        }
        if kind != kinds::COMMA {
            return Err(Misfit {
                number: 10,
                token: e.token,
            });
        }
        at = e.token + 1;
        m = e.word;
    }
}
