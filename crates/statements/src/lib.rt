// Statements and bodies, which call each other: the levels left or the tokens left fall. A statement's word is written when its parts are.
// `left` is how many levels may still be opened, `i` a token, and `n` the first free word.
#![tactic(auto)]

ghost use Rattle.std.specs.Prelude.{◌≡◌, ◌+◌, ◌<◌, length, Ok};
ghost use Rattle.expressions.specs.Words.{kind_at, place_at, expression, seen, written_code};
ghost use Rattle.expressions.specs.Words as Expressions;
ghost use Rattle.expressions.specs.Room.{Room};
ghost use Rattle.statements.specs.Words.{declaration, returning, simple, guarded, begins_statement, iteration, statement, statements};
ghost use Rattle.statements.specs.Room.{Space, Parts};
ghost use Rattle.statements.specs.Steps.{inside_of, ended, test, members, each, topped};

use expressions::{Misfit, Read, Target, close, kinds, token};
use machine::tags;

// By the first token.
#[cycle(reading)]
pub fn read_statement(
    tokens: &[u64],
    words: &mut [u64],
    i: usize,
    n: usize,
    left: usize,
) -> Result<Read, Misfit>
    requires { Space tokens.now words.old i n }
    ensures { seen result words.new ≡ written_code (statement left tokens.now i) n words.old }
{
    let kind = token::kind_at(tokens, i);
    match kind {
        kinds::VAR => read_declaration(tokens, words, i, n),
        kinds::IF => read_guarded(tokens, words, tags::WHEN, i, n, left),
        kinds::WHILE => read_guarded(tokens, words, tags::WHILE, i, n, left),
        kinds::RETURN => read_return(tokens, words, i, n, left),
        kinds::FOREACH => read_foreach(tokens, words, i, n, left),
        kinds::OPEN_BRACE => read_block(tokens, words, i, n, left),
        _ => read_simple(tokens, words, i, n, left),
    }
}

// The word at n of a statement that begins at token i and whose parts were read as e, with a number beside its place.
fn head(tokens: &[u64], words: &mut [u64], e: Read, tag: u64, i: usize, n: usize, x: u64) -> Read
    requires { Parts e n tag x }
    ensures { seen (Ok result) words.new ≡ topped tag (place_at tokens.now i) n x (seen (Ok e) words.old) }
{
    let place = token::place_at(tokens, i);
    code::put(
        words,
        n,
        code::word_of(tag, (e.word - n) as u64, place + 65536 * x),
    );
    Read {
        token: e.token,
        word: e.word,
        target: Target::Neither,
    }
}

// An expression and a semicolon.
fn read_ended(
    tokens: &[u64],
    words: &mut [u64],
    i: usize,
    n: usize,
    left: usize,
) -> Result<Read, Misfit>
    requires { Room tokens.now words.old i n }
    ensures { seen result words.new ≡ written_code (ended (expression left tokens.now) tokens.now i) n words.old }
{
    let e = expressions::read_expression(tokens, words, i, n, left)?;
    close(tokens, e, kinds::SEMICOLON)
}

// (e), which opens a level.
fn read_test(
    tokens: &[u64],
    words: &mut [u64],
    i: usize,
    n: usize,
    left: usize,
) -> Result<Read, Misfit>
    requires { Room tokens.now words.old i n }
    ensures { seen result words.new ≡ written_code (test (Expressions.inside_of left tokens.now) tokens.now i) n words.old }
{
    if token::kind_at(tokens, i) != kinds::OPEN {
        return Err(Misfit {
            number: 10,
            token: i,
        });
    }
    if left == 0 {
        return Err(Misfit {
            number: 75,
            token: i,
        });
    }
    let e = expressions::read_expression(tokens, words, i + 1, n, left - 1)?;
    close(tokens, e, kinds::CLOSE)
}

// x in e do: the slot of x, and the code of e behind it.
fn read_members(
    tokens: &[u64],
    words: &mut [u64],
    i: usize,
    n: usize,
    left: usize,
) -> Result<Read, Misfit>
    requires { Room tokens.now words.old i n }
    ensures { seen result words.new ≡ written_code (members (expression left tokens.now) tokens.now i) n words.old }
{
    if token::kind_at(tokens, i) != kinds::NAME {
        return Err(Misfit {
            number: 10,
            token: i,
        });
    }
    if token::kind_at(tokens, i + 1) != kinds::IN {
        return Err(Misfit {
            number: 10,
            token: i + 1,
        });
    }
    code::put(words, n, token::home_at(tokens, i));
    let e = expressions::read_expression(tokens, words, i + 2, n + 1, left)?;
    close(tokens, e, kinds::DO)
}

// The same, and the first token of a body, which opens a level if a statement can begin there.
fn read_each(
    tokens: &[u64],
    words: &mut [u64],
    i: usize,
    n: usize,
    left: usize,
) -> Result<Read, Misfit>
    requires { Room tokens.now words.old i n }
    ensures { seen result words.new ≡ written_code (each (expression left tokens.now) (inside_of left tokens.now) tokens.now i) n words.old }
{
    let e = read_members(tokens, words, i, n, left)?;
    if !begins_statement(tokens, e.token) {
        return Err(Misfit {
            number: 10,
            token: e.token,
        });
    }
    if left == 0 {
        return Err(Misfit {
            number: 75,
            token: e.token,
        });
    }
    Ok(e)
}

// Whether a statement can begin with token i.
fn begins_statement(tokens: &[u64], i: usize) -> bool
    ensures { result ≡ begins_statement tokens.now i }
{
    let kind = token::kind_at(tokens, i);
    match kind {
        kinds::NAME => true,
        kinds::DIGITS => token::payload_at(tokens, i) <= 2147483647,
        kinds::STRING => true,
        kinds::VAR => true,
        kinds::IF => true,
        kinds::WHILE => true,
        kinds::RETURN => true,
        kinds::NONE => true,
        kinds::TRUE => true,
        kinds::FALSE => true,
        kinds::FOREACH => true,
        kinds::OPEN => true,
        kinds::MINUS => token::is_signed(tokens, i),
        kinds::OPEN_BRACKET => true,
        kinds::OPEN_BRACE => true,
        _ => false,
    }
}

// var x;
fn read_declaration(tokens: &[u64], words: &mut [u64], i: usize, n: usize) -> Result<Read, Misfit>
    requires space { Space tokens.now words.old i n }
    requires i_in_bounds { i < length tokens.now }
    ensures { seen result words.new ≡ written_code (declaration tokens.now i) n words.old }
{
    if token::kind_at(tokens, i + 1) != kinds::NAME {
        return Err(Misfit {
            number: 10,
            token: i + 1,
        });
    }
    let name = Read {
        token: i + 2,
        word: n + 1,
        target: Target::Neither,
    };
    let e = close(tokens, name, kinds::SEMICOLON)?;
    let home = token::home_at(tokens, i + 1);
    Ok(head(tokens, words, e, tags::DECLARE, i, n, home))
}

// return e;
fn read_return(
    tokens: &[u64],
    words: &mut [u64],
    i: usize,
    n: usize,
    left: usize,
) -> Result<Read, Misfit>
    requires space { Space tokens.now words.old i n }
    requires i_in_bounds { i < length tokens.now }
    ensures { seen result words.new ≡ written_code (returning (expression left tokens.now) tokens.now i) n words.old }
{
    let e = read_ended(tokens, words, i + 1, n + 1, left)?;
    Ok(head(tokens, words, e, tags::RETURN, i, n, 0))
}

// e; or a = e; where the right side's code takes the place of a name's, or of an entry's last word.
fn read_simple(
    tokens: &[u64],
    words: &mut [u64],
    i: usize,
    n: usize,
    left: usize,
) -> Result<Read, Misfit>
    requires { Space tokens.now words.old i n }
    ensures { seen result words.new ≡ written_code (simple (expression left tokens.now) tokens.now i) n words.old }
{
    let a = expressions::read_expression(tokens, words, i, n + 1, left)?;
    if token::kind_at(tokens, a.token) != kinds::ASSIGN {
        let e = close(tokens, a, kinds::SEMICOLON)?;
        return Ok(head(tokens, words, e, tags::ACT, i, n, 0));
    }
    match a.target {
        Target::Name => {
            let e = read_ended(tokens, words, a.token + 1, n + 1, left)?;
            let home = token::home_at(tokens, i);
            Ok(head(tokens, words, e, tags::ASSIGN, i, n, home))
        }
        Target::Entry => {
            let e = read_ended(tokens, words, a.token + 1, a.word - 1, left)?;
            Ok(head(tokens, words, e, tags::UPDATE, i, n, 0))
        }
        Target::Neither => Err(Misfit {
            number: 10,
            token: a.token,
        }),
    }
}

// if or while, at token i: a test and a body, both a level further in. Where a test was read a level was left.
#[cycle(reading)]
fn read_guarded(
    tokens: &[u64],
    words: &mut [u64],
    tag: u64,
    i: usize,
    n: usize,
    left: usize,
) -> Result<Read, Misfit>
    requires space { Space tokens.now words.old i n }
    requires i_in_bounds { (i < length tokens.now) × (tag < 256) }
    ensures { seen result words.new ≡ written_code (guarded tag (place_at tokens.now i) (inside_of left tokens.now) tokens.now (i + 1)) n
        words.old }
{
    let e = read_test(tokens, words, i + 1, n + 1, left)?;
    let s = read_statement(tokens, words, e.token, e.word, left - 1)?;
    Ok(head(tokens, words, s, tag, i, n, (e.word - n - 1) as u64))
}

// foreach, at token i. The slot of its variable stands behind its word, then its group's code; the body is a level further in. What is asked of the
// body's first token is asked before, in a function that calls no statement: so a level takes no more of the stack.
#[cycle(reading)]
fn read_foreach(
    tokens: &[u64],
    words: &mut [u64],
    i: usize,
    n: usize,
    left: usize,
) -> Result<Read, Misfit>
    requires space { Space tokens.now words.old i n }
    requires i_in_bounds { i < length tokens.now }
    ensures { seen result words.new ≡ written_code (iteration (expression left tokens.now) (inside_of left tokens.now) tokens.now i) n
        words.old }
{
    let e = read_each(tokens, words, i + 1, n + 1, left)?;
    let b = read_statement(tokens, words, e.token, e.word, left - 1)?;
    Ok(head(
        tokens,
        words,
        b,
        tags::FOREACH,
        i,
        n,
        (e.word - n - 1) as u64,
    ))
}

// { .. } at token i.
#[cycle(reading)]
fn read_block(
    tokens: &[u64],
    words: &mut [u64],
    i: usize,
    n: usize,
    left: usize,
) -> Result<Read, Misfit>
    requires space { Space tokens.now words.old i n }
    requires i_value { kind_at tokens.now i ≡ 123 }
    ensures { seen result words.new ≡ written_code (statement left tokens.now i) n words.old }
{
    if left == 0 {
        return Err(Misfit {
            number: 75,
            token: i,
        });
    }
    let e = read_statements(tokens, words, i + 1, n + 1, left - 1)?;
    Ok(head(tokens, words, e, tags::BLOCK, i, n, 0))
}

// One statement or more, and the closing brace.
#[cycle(reading)]
pub fn read_statements(
    tokens: &[u64],
    words: &mut [u64],
    i: usize,
    n: usize,
    left: usize,
) -> Result<Read, Misfit>
    requires { Space tokens.now words.old i n }
    ensures { seen result words.new ≡ written_code (statements (statement left tokens.now) tokens.now i) n words.old }
{
    let mut at = i;
    let mut m = n;
    loop {
        let e = read_statement(tokens, words, at, m, left)?;
        if token::kind_at(tokens, e.token) == kinds::CLOSE_BRACE {
            return Ok(Read {
                token: e.token + 1,
                word: e.word,
                target: Target::Neither,
            });
        }
        at = e.token;
        m = e.word;
    }
}
