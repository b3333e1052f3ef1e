// Parts of a program, compared with each other and with the reserved words.
ghost use Rattle.std.specs.Prelude.{◌≡◌, ◌-◌, min, take, drop};
ghost use Rattle.meaning.specs.Basics.{same_text};
ghost use Rattle.meaning.specs.Token.{word_kind};

use crate::kind;

// The middle part of a program from a place up to another, as far as the program reaches.
pub fn spelling(program: &[u8], start: usize, end: usize) -> &[u8]
    ensures { result.now ≡ take (end - start) (drop start program.now) }
{
    let e = end.min(program.len());
    let s = start.min(e);
    &program[s..e]
}

// Whether two texts have the same bytes.
pub fn same_text(x: &[u8], y: &[u8]) -> bool
    ensures { result ≡ same_text x.now y.now }
{
    x == y
}

// The kind of a name or a reserved word. Of a `match` on byte strings a proof is told their lengths alone.
#[tactic(auto, unfolding(meaning::specs::Token::word_kind))]
pub fn word_kind(w: &[u8]) -> u8
    ensures { result ≡ word_kind w.now }
{
    if same_text(w, b"def") {
        kind::DEF
    } else if same_text(w, b"var") {
        kind::VAR
    } else if same_text(w, b"if") {
        kind::IF
    } else if same_text(w, b"while") {
        kind::WHILE
    } else if same_text(w, b"return") {
        kind::RETURN
    } else if same_text(w, b"none") {
        kind::NONE
    } else if same_text(w, b"true") {
        kind::TRUE
    } else if same_text(w, b"false") {
        kind::FALSE
    } else if same_text(w, b"foreach") {
        kind::FOREACH
    } else if same_text(w, b"in") {
        kind::IN
    } else if same_text(w, b"do") {
        kind::DO
    } else {
        kind::NAME
    }
}
