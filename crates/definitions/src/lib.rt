// Procedures and the whole program: the code of each, and the table of them all. `i` is a token, and `n` the first free word.
#![tactic(auto)]

ghost use Rattle.std.specs.Prelude.{◌≡◌, ◌+◌, ◌-◌, ◌<◌, ◌≤◌, length, replicate};
ghost use Rattle.machine.specs.Opcodes.{procedure_word};
ghost use Rattle.expressions.specs.Words.{place_at, home_at, procedure_at, seen, written_code};
ghost use Rattle.statements.specs.Room.{Space};
ghost use Rattle.definitions.specs.declared.Unread.TheVariants as Unread;
ghost use Rattle.definitions.specs.Words.{parameters, body, procedure, procedures, seen_procedure, written_procedure, table_in, nothing, main_word, first_twice, seen_whole, written_whole};
ghost use Rattle.definitions.specs.Room.{Ground, Halves};
ghost use Rattle.definitions.specs.Steps.{Below, Entered, answered};

use expressions::{Misfit, Read, Target, kinds, token};
use machine::{layout, procedures};

const LAST_SLOT: usize = layout::SLOTS - 1;

// ---- a procedure
// A procedure that was read: the token behind it, the word behind its code, and how many parameters it has.
#[derive(Clone, Copy, Debug, PartialEq, Eq)]
pub struct Procedure {
    pub token: usize,
    pub word: usize,
    pub parameters: u64,
}

// def f(x, y) { .. } from token i on: the slots of its parameters and the code of its body.
fn read_procedure(
    tokens: &[u64],
    words: &mut [u64],
    i: usize,
    n: usize,
) -> Result<Procedure, Misfit>
    requires { Ground tokens.now words.old i n }
    ensures { seen_procedure result words.new ≡ written_procedure (procedure tokens.now i) n words.old }
{
    if token::kind_at(tokens, i) != kinds::DEF {
        return Err(Misfit {
            number: 10,
            token: i,
        });
    }
    if token::kind_at(tokens, i + 1) != kinds::NAME {
        return Err(Misfit {
            number: 10,
            token: i + 1,
        });
    }
    if token::kind_at(tokens, i + 2) != kinds::OPEN {
        return Err(Misfit {
            number: 10,
            token: i + 2,
        });
    }
    let p = read_parameters(tokens, words, i + 3, n)?;
    let b = read_body(tokens, words, p.token, p.word)?;
    Ok(Procedure {
        token: b.token,
        word: b.word,
        parameters: (p.word - n) as u64,
    })
}

// Parameters and the closing parenthesis.
fn read_parameters(tokens: &[u64], words: &mut [u64], i: usize, n: usize) -> Result<Read, Misfit>
    requires { Space tokens.now words.old i n }
    ensures { seen result words.new ≡ written_code (parameters tokens.now i) n words.old }
{
    if token::kind_at(tokens, i) == kinds::CLOSE {
        return Ok(Read {
            token: i + 1,
            word: n,
            target: Target::Neither,
        });
    }
    let mut at = i;
    let mut m = n;
    loop {
        if token::kind_at(tokens, at) != kinds::NAME {
            return Err(Misfit {
                number: 10,
                token: at,
            });
        }
        code::put(words, m, token::home_at(tokens, at));
        let kind = token::kind_at(tokens, at + 1);
        if kind == kinds::CLOSE {
            return Ok(Read {
                token: at + 2,
                word: m + 1,
                target: Target::Neither,
            });
        }
        if kind != kinds::COMMA {
            return Err(Misfit {
                number: 10,
                token: at + 1,
            });
        }
        at += 2;
        m += 1;
    }
}

// The braces from token i on and what stands between.
fn read_body(tokens: &[u64], words: &mut [u64], i: usize, n: usize) -> Result<Read, Misfit>
    requires { Space tokens.now words.old i n }
    ensures { seen result words.new ≡ written_code (body tokens.now i) n words.old }
{
    if token::kind_at(tokens, i) != kinds::OPEN_BRACE {
        return Err(Misfit {
            number: 10,
            token: i,
        });
    }
    statements::read_statements(tokens, words, i + 1, n, 64)
}

// ---- all procedures
// A program that was read: main's word in the table, and how many words the code has.
#[derive(Clone, Copy, Debug, PartialEq, Eq)]
pub struct Parsed {
    pub main: u64,
    pub words: usize,
}

// The place of the first `def` whose name an earlier one or the library has, or the token that fails.
#[derive(Clone, Copy, Debug, PartialEq, Eq)]
pub enum Unread {
    Twice(usize),
    Misfit(Misfit),
}

impl From<Misfit> for Unread {
    ghost from_gives = { λ m u. u ≡ Unread.Misfit m };

    fn from(m: Misfit) -> Unread {
        Unread::Misfit(m)
    }
}

// One procedure or more and nothing behind. Code is written from the first word on, the table from word 8192 on, where zeros stand.
pub fn parse(tokens: &[u64], words: &mut [u64]) -> Result<Parsed, Unread>
    requires halves { Halves tokens.now words.old }
    requires words_value { table_in words.old ≡ replicate 8192 0 }
    ensures { seen_whole result words.new ≡ written_whole (length tokens.now) nothing (procedures tokens.now) }
{
    let mut i = 0;
    let mut n = 0;
    let mut main = None;
    let mut twice = None;
    loop {
        let p = read_below(tokens, words, i, n)?;
        let w = head_word(n, p.word, p.parameters);
        let old = enter(tokens, words, i + 1, w);
        twice = note_twice(tokens, i, twice, old);
        main = note_main(tokens, i, main, w);
        if token::kind_at(tokens, p.token) == 0 {
            return settle(tokens.len(), main, twice, p.word);
        }
        i = p.token;
        n = p.word;
    }
}

// A procedure whose code is written into the lower half of the words.
fn read_below(tokens: &[u64], words: &mut [u64], i: usize, n: usize) -> Result<Procedure, Misfit>
    requires halves { Halves tokens.now words.old }
    requires n_le_i { n ≤ i }
    ensures { Below result tokens.now i n words.old words.new }
{
    read_procedure(tokens, &mut words[0..layout::FIRST_PROCEDURE], i, n)
}

// The word in the table of a procedure that has the words from n up to m, of which the first are the slots of its parameters.
fn head_word(n: usize, m: usize, parameters: u64) -> u64
    requires { (n + parameters ≤ m) × (m ≤ 8192) }
    ensures { result ≡ procedure_word n parameters (m - n - parameters) }
{
    code::procedure_word(n as u64, parameters, (m - n) as u64 - parameters)
}

// Writes a word into the table, by the slot of the name that token i is. The word that stood there.
fn enter(tokens: &[u64], words: &mut [u64], i: usize, w: u64) -> u64
    requires { Halves tokens.now words.old }
    ensures { Entered (home_at tokens.now i) w result words.old words.new }
{
    let slot = token::home_at(tokens, i) as usize;
    if LAST_SLOT < slot {
        return 0;
    }
    let old = words[layout::FIRST_PROCEDURE + slot];
    words[layout::FIRST_PROCEDURE + slot] = w;
    old
}

// The place of the first `def` whose name an earlier one or the library has. The one at token i has the word `old` in the table already.
fn note_twice(tokens: &[u64], i: usize, twice: Option<usize>, old: u64) -> Option<usize>
    requires { i < length tokens.now }
    ensures { result ≡ first_twice twice (procedure_at tokens.now (i + 1)) old (place_at tokens.now i) }
{
    if twice.is_some() {
        return twice;
    }
    if old != 0 || token::procedure_at(tokens, i + 1) < procedures::OTHER {
        return Some(token::place_at(tokens, i) as usize);
    }
    None
}

// Main's word, if the procedure at token i, which has the word w, is the first of that name.
fn note_main(tokens: &[u64], i: usize, main: Option<u64>, w: u64) -> Option<u64>
    requires { i < length tokens.now }
    ensures { result ≡ main_word main (procedure_at tokens.now (i + 1)) w }
{
    if main.is_some() {
        return main;
    }
    if token::procedure_at(tokens, i + 1) == procedures::MAIN {
        return Some(w);
    }
    None
}

// Whether main is there, and each name once.
fn settle(end: usize, main: Option<u64>, twice: Option<usize>, n: usize) -> Result<Parsed, Unread>
    ensures { result ≡ answered end main twice n }
{
    let Some(main) = main else {
        return Err(Unread::Misfit(Misfit {
            number: 10,
            token: end,
        }));
    };
    if let Some(place) = twice {
        return Err(Unread::Twice(place));
    }
    Ok(Parsed { main, words: n })
}
