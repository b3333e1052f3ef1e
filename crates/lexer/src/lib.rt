// Tokens of a program, as words in a slice that is lent for them.
#![tactic(auto)]

ghost use Rattle.std.specs.Prelude.{◌≡◌, ◌≤◌, length};
ghost use Rattle.meaning.specs.Token.{tokens_of};
ghost use Rattle.lexer.specs.Lexing.{class_table, seen, laid_tokens};

use slices::put;
use table::{CLASSES, WHITE};
use tokens::token_size;

mod class;
mod front;
mod table;

// The first byte at which no token begins.
#[derive(Clone, Copy, Debug, PartialEq, Eq)]
pub struct Stray {
    pub place: usize,
}

// Lays the tokens' words into the slice, as many as it holds, and counts them all; stops at the first stray byte.
pub fn lex(program: &[u8], tokens: &mut [u64]) -> Result<usize, Stray>
    requires { length program.now ≤ 32768 }
    ensures { seen result tokens.new ≡ laid_tokens (tokens_of program.now) tokens.old }
{
    let classes = CLASSES;
    lex_by(&classes, program, tokens)
}

// The same, by the table of classes. A token is as long as it is, so no `for` counts the places.
fn lex_by(classes: &[u8; 256], program: &[u8], tokens: &mut [u64]) -> Result<usize, Stray>
    requires classes_value { classes.now ≡ class_table }
    requires program_len_bound { length program.now ≤ 32768 }
    ensures { seen result tokens.new ≡ laid_tokens (tokens_of program.now) tokens.old }
{
    let mut at = 0;
    let mut n = 0;
    while at < program.len() {
        let c = class::class_at(classes, program, at);
        if c == WHITE {
            at += 1;
            continue;
        }
        let Some(w) = front::token_at(classes, program, at) else {
            return Err(Stray { place: at });
        };
        put(tokens, n, w);
        n += 1;
        at += token_size(w);
    }
    Ok(n)
}
