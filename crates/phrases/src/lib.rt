// Expressions by their roots, cut as the grammar is: an expression is one operand, or two with an operator's sign between; an operand is one primary, or two with a dot
// between; a primary is a leaf, or holds expressions. A level of nesting goes once through each of the three, whatever it holds, so that writing takes no more stack than reading.
// `fuel` falls at each expression inside another.
#![tactic(auto)]

ghost use Rattle.std.specs.Prelude.{◌≡◌, [], ◌++◌, suc, ◌≤◌, get_or};
ghost use Rattle.meaning.specs.Byte.{is_name_part};
ghost use Rattle.machine.specs.Opcodes.{argument_root, tag_entry, first_operator};
ghost use Rattle.writing.specs.Placed.{WroteAt};
ghost use Rattle.phrases.specs.Raw.{source, part_text, pair_text, arguments_text, call_text, raw_expression};

use machine::tags;
use spellings::{encloses, is_name_part, write_leaf, write_name, write_sign};
use stores::words::word_at;
use writing::write_bytes_at;

// The expression whose root is x.
#[cycle(writing)]
pub fn write_expression(
    program: &[u8],
    tokens: &[u64],
    code: &[u64],
    fuel: usize,
    x: usize,
    out: &mut [u8],
    at: usize,
) -> usize
    ensures { WroteAt at (raw_expression fuel (source program.now tokens.now code.now) x)
        out.old out.new result }
{
    if fuel == 0 {
        return at;
    }
    let w = word_at(code, x);
    let tag = code::tag_of(w);
    if tag < tags::FIRST_OPERATOR {
        return write_operand(program, tokens, code, fuel, x, out, at);
    }
    let sign = write_operand(
        program,
        tokens,
        code,
        fuel - 1,
        code::left_of(w, x),
        out,
        at,
    );
    let next = write_sign(tag, out, sign);
    write_operand(
        program,
        tokens,
        code,
        fuel - 1,
        code::right_of(x),
        out,
        next,
    )
}

// The same as a part of an operator: in parentheses if it is an operator itself.
#[cycle(writing)]
fn write_operand(
    program: &[u8],
    tokens: &[u64],
    code: &[u64],
    fuel: usize,
    x: usize,
    out: &mut [u8],
    at: usize,
) -> usize
    ensures { WroteAt at (part_text (raw_expression fuel (source program.now tokens.now code.now))
        (source program.now tokens.now code.now) first_operator x) out.old out.new result }
{
    let w = word_at(code, x);
    if code::tag_of(w) != tags::ENTRY {
        return write_primary(program, tokens, code, fuel, x, out, at);
    }
    if fuel == 0 {
        return at;
    }
    write_entry(
        program,
        tokens,
        code,
        fuel - 1,
        code::left_of(w, x),
        code::right_of(x),
        out,
        at,
    )
}

// A table and a key by their roots with a dot between.
#[cycle(writing)]
pub fn write_entry(
    program: &[u8],
    tokens: &[u64],
    code: &[u64],
    fuel: usize,
    y: usize,
    z: usize,
    out: &mut [u8],
    at: usize,
) -> usize
    ensures { WroteAt at (pair_text (raw_expression fuel (source program.now tokens.now code.now))
        (source program.now tokens.now code.now) tag_entry y z) out.old out.new result }
{
    let dot = write_primary(program, tokens, code, fuel, y, out, at);
    let next = write_sign(tags::ENTRY, out, dot);
    write_primary(program, tokens, code, fuel, z, out, next)
}

// The expression whose root is x as a part of an entry: in parentheses if it is an operator or an entry itself.
#[cycle(writing)]
fn write_primary(
    program: &[u8],
    tokens: &[u64],
    code: &[u64],
    fuel: usize,
    x: usize,
    out: &mut [u8],
    at: usize,
) -> usize
    ensures { WroteAt at (part_text (raw_expression fuel (source program.now tokens.now code.now))
        (source program.now tokens.now code.now) tag_entry x) out.old out.new result }
{
    let w = word_at(code, x);
    let tag = code::tag_of(w);
    if encloses(tags::ENTRY, tag) {
        return write_between(program, tokens, code, fuel, b"(", x, b")", out, at);
    }
    if fuel == 0 {
        return at;
    }
    if tag < tags::TABLE {
        return write_leaf(program, tokens, w, out, at);
    }
    if tag == tags::TABLE {
        let last = code::right_of(x);
        return write_between(program, tokens, code, fuel - 1, b"[", last, b"]", out, at);
    }
    write_call(program, tokens, code, fuel - 1, w, x, out, at)
}

// An expression behind some bytes.
#[cycle(writing)]
fn write_behind(
    program: &[u8],
    tokens: &[u64],
    code: &[u64],
    fuel: usize,
    lead: &[u8],
    y: usize,
    out: &mut [u8],
    at: usize,
) -> usize
    ensures { WroteAt at (lead.now ++ raw_expression fuel (source program.now tokens.now code.now) y)
        out.old out.new result }
{
    let next = write_bytes_at(out, at, lead);
    write_expression(program, tokens, code, fuel, y, out, next)
}

// An expression between some bytes and others.
#[cycle(writing)]
pub fn write_between(
    program: &[u8],
    tokens: &[u64],
    code: &[u64],
    fuel: usize,
    lead: &[u8],
    y: usize,
    close: &[u8],
    out: &mut [u8],
    at: usize,
) -> usize
    ensures { WroteAt at (lead.now ++ raw_expression fuel (source program.now tokens.now code.now) y ++ close.now)
        out.old out.new result }
{
    let next = write_behind(program, tokens, code, fuel, lead, y, out, at);
    write_bytes_at(out, next, close)
}

// The root of the argument whose first word is at a; x if there is none.
fn argument_at(code: &[u64], a: usize, x: usize) -> usize
    requires { a ≤ x }
    ensures { result ≡ argument_root (get_or code.now a 0) a x }
{
    code::argument_root(word_at(code, a), a, x)
}

// The call whose word, w, is at x.
#[cycle(writing)]
fn write_call(
    program: &[u8],
    tokens: &[u64],
    code: &[u64],
    fuel: usize,
    w: u64,
    x: usize,
    out: &mut [u8],
    at: usize,
) -> usize
    ensures { WroteAt at (call_text (raw_expression fuel (source program.now tokens.now code.now))
        (source program.now tokens.now code.now) w x) out.old out.new result }
{
    let y = argument_at(code, code::first_argument(w, x), x);
    let open = write_name(program, tokens, code::callee_of(w), out, at);
    let inside = write_bytes_at(out, open, b"(");
    let end = write_arguments(program, tokens, code, fuel, y, x, out, inside);
    write_bytes_at(out, end, b")")
}

// The arguments from the one whose root is `first` up to x, with a comma between each two.
#[cycle(writing)]
fn write_arguments(
    program: &[u8],
    tokens: &[u64],
    code: &[u64],
    fuel: usize,
    first: usize,
    x: usize,
    out: &mut [u8],
    at: usize,
) -> usize
    ensures { WroteAt at (arguments_text (suc x) [] (raw_expression fuel (source program.now tokens.now code.now))
        (source program.now tokens.now code.now) first x) out.old out.new result }
{
    if x <= first {
        return at;
    }
    let mut next = write_expression(program, tokens, code, fuel, first, out, at);
    let mut y = argument_at(code, first + 1, x);
    // each argument tells where the next one's root is
    while y < x {
        next = write_behind(program, tokens, code, fuel, b",", y, out, next);
        y = argument_at(code, y + 1, x);
    }
    next
}

// Whether the text of the expression whose root is y begins with a letter or a digit: its first byte is written to see.
pub fn begins_word(program: &[u8], tokens: &[u64], code: &[u64], fuel: usize, y: usize) -> bool
    ensures { result ≡ is_name_part (get_or (raw_expression fuel (source program.now tokens.now code.now) y) 0 0) }
{
    let mut front = [0u8; 1];
    write_expression(program, tokens, code, fuel, y, &mut front, 0);
    is_name_part(front[0])
}
