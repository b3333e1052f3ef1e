// Statements that hold no others, and a foreach up to its body: each function writes from a place on and returns the place behind.
#![tactic(auto)]

ghost use Rattle.std.specs.Prelude.{◌++◌, ◌≡◌};
ghost use Rattle.meaning.specs.Basics.{bytes};
ghost use Rattle.canonical.specs.Text.{apart};
ghost use Rattle.writing.specs.Placed.{WroteAt};
ghost use Rattle.spellings.specs.Spelling.{name_text};
ghost use Rattle.phrases.specs.Raw.{source, spelling, raw_expression};
ghost use Rattle.clauses.specs.Raw.{ending_in, update_text, tag_ends, operand_ends, ends_word, iterator_text};

use machine::tags;
use phrases::{begins_word, write_between, write_entry};
use spellings::write_name;
use stores::words::word_at;
use writing::write_bytes_at;

pub fn write_declaration(
    program: &[u8],
    tokens: &[u64],
    slot: usize,
    out: &mut [u8],
    at: usize,
) -> usize
    ensures { WroteAt at (bytes "var " ++ name_text program.now tokens.now slot ++ bytes ";")
        out.old out.new result }
{
    let name = write_bytes_at(out, at, b"var ");
    let end = write_name(program, tokens, slot, out, name);
    write_bytes_at(out, end, b";")
}

// An assignment of the expression whose root is y.
pub fn write_assignment(
    program: &[u8],
    tokens: &[u64],
    code: &[u64],
    fuel: usize,
    slot: usize,
    y: usize,
    out: &mut [u8],
    at: usize,
) -> usize
    ensures { WroteAt at (ending_in (raw_expression fuel (source program.now tokens.now code.now))
        (spelling (source program.now tokens.now code.now) slot ++ bytes "=") y) out.old out.new result }
{
    let next = write_name(program, tokens, slot, out, at);
    write_between(program, tokens, code, fuel, b"=", y, b";", out, next)
}

// An update: the table and the key stand before the value whose root is y.
pub fn write_update(
    program: &[u8],
    tokens: &[u64],
    code: &[u64],
    fuel: usize,
    y: usize,
    out: &mut [u8],
    at: usize,
) -> usize
    ensures { WroteAt at (update_text (raw_expression fuel (source program.now tokens.now code.now))
        (source program.now tokens.now code.now) y) out.old out.new result }
{
    let b = code::before(word_at(code, y), y);
    let a = code::before(word_at(code, b), b);
    let next = write_entry(program, tokens, code, fuel, a, b, out, at);
    write_between(program, tokens, code, fuel, b"=", y, b";", out, next)
}

// A word, one space if the expression whose root is y begins with a letter or a digit, the expression, and some bytes.
pub fn write_apart(
    program: &[u8],
    tokens: &[u64],
    code: &[u64],
    fuel: usize,
    word: &[u8],
    y: usize,
    close: &[u8],
    out: &mut [u8],
    at: usize,
) -> usize
    ensures { WroteAt at (word.now ++ apart (raw_expression fuel (source program.now tokens.now code.now) y) ++ close.now)
        out.old out.new result }
{
    let next = write_bytes_at(out, at, word);
    if begins_word(program, tokens, code, fuel, y) {
        return write_between(program, tokens, code, fuel, b" ", y, close, out, next);
    }
    write_between(program, tokens, code, fuel, b"", y, close, out, next)
}

// ---- foreach up to its body
// Whether the text of a primary whose root has a tag ends with a letter or a digit; of an operand and of an expression by their roots.
fn tag_ends(tag: u64) -> bool
    ensures { result ≡ tag_ends tag }
{
    if tags::TABLE <= tag {
        return false;
    }
    tag != tags::STRING
}

fn operand_ends(code: &[u64], y: usize) -> bool
    ensures { result ≡ operand_ends code.now y }
{
    let tag = code::tag_of(word_at(code, y));
    if tag != tags::ENTRY {
        return tag_ends(tag);
    }
    tag_ends(code::tag_of(word_at(code, code::right_of(y))))
}

fn ends_word(code: &[u64], y: usize) -> bool
    ensures { result ≡ ends_word code.now y }
{
    if code::tag_of(word_at(code, y)) < tags::FIRST_OPERATOR {
        return operand_ends(code, y);
    }
    operand_ends(code, code::right_of(y))
}

// The slot of the variable, and the root of the expression.
pub fn write_iterator(
    program: &[u8],
    tokens: &[u64],
    code: &[u64],
    fuel: usize,
    slot: usize,
    y: usize,
    out: &mut [u8],
    at: usize,
) -> usize
    ensures { WroteAt at (iterator_text (raw_expression fuel (source program.now tokens.now code.now))
        (source program.now tokens.now code.now) slot y) out.old out.new result }
{
    let name = write_bytes_at(out, at, b"foreach ");
    let next = write_name(program, tokens, slot, out, name);
    if ends_word(code, y) {
        return write_apart(program, tokens, code, fuel, b" in", y, b" do\n", out, next);
    }
    write_apart(program, tokens, code, fuel, b" in", y, b"do\n", out, next)
}
