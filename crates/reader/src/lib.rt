// Reading a program: its tokens, its names, its grammar.
#![tactic(auto)]

ghost use Rattle.std.specs.Prelude.{◌≡◌};
ghost use Rattle.meaning.specs.Grammar.{reading};
ghost use Rattle.reader.specs.Reading.{Lent, Worded, tokens_in, seen, coded, Kept, place_among};

use definitions::Unread;
use tokens::place_of;

// A program that was read: main's word in the table, how many words its code has, and how many tokens it has.
#[derive(Clone, Copy, Debug, PartialEq, Eq)]
pub struct Program {
    pub main: u64,
    pub words: usize,
    pub tokens: usize,
}

// A number and its place.
#[derive(Clone, Copy, Debug, PartialEq, Eq)]
pub struct Malformed {
    pub number: u64,
    pub place: usize,
}

// The code of a program is left in the front of `code`, the table in its words 8192 to 16383, and the tokens' words in the front of `tokens`.
pub fn read(program: &[u8], tokens: &mut [u64], code: &mut [u64]) -> Result<Program, Malformed>
    requires { Lent program.now tokens.old code.old }
    ensures { (seen result code.new ≡ coded (tokens_in program.now) (reading program.now))
        × Kept result (tokens_in program.now) tokens.new }
{
    let found = lexer::lex(program, tokens);
    match found {
        Err(stray) => Err(Malformed {
            number: 10,
            place: stray.place,
        }),
        Ok(n) => {
            if 8192 < n {
                return Err(Malformed {
                    number: 74,
                    place: place_of(tokens[8192]),
                });
            }
            parse(program, &mut tokens[0..n], code)
        }
    }
}

// The same of a program whose tokens' words these are.
fn parse(program: &[u8], tokens: &mut [u64], code: &mut [u64]) -> Result<Program, Malformed>
    requires { Worded program.now tokens.old code.old }
    ensures { (seen result code.new ≡ coded (tokens_in program.now) (reading program.now))
        × Kept result (tokens_in program.now) tokens.new }
{
    names::prepare(program, tokens, code);
    match definitions::parse(tokens, code) {
        Ok(p) => Ok(Program {
            main: p.main,
            words: p.words,
            tokens: tokens.len(),
        }),
        Err(Unread::Twice(place)) => Err(Malformed { number: 60, place }),
        Err(Unread::Misfit(m)) => Err(Malformed {
            number: m.number,
            place: place_among(tokens, m.token, program.len()),
        }),
    }
}

// The place of token i; behind the last token the program's length.
fn place_among(tokens: &[u64], i: usize, length: usize) -> usize
    ensures { result ≡ place_among tokens.now i length }
{
    if i < tokens.len() {
        return place_of(tokens[i]);
    }
    length
}
