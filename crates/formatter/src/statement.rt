// Statements by their first words: `fuel` falls at each that is inside another.
ghost use Rattle.std.specs.Prelude.{◌++◌, suc, ◌+◌, get_or};
ghost use Rattle.meaning.specs.Basics.{bytes};
ghost use Rattle.writing.specs.Placed.{WroteAt};
ghost use Rattle.phrases.specs.Raw.{source, raw_expression};
ghost use Rattle.formatter.specs.Raw.{guarded_text, foreach_text, raw_statement, raw_statements};
ghost use Rattle.formatter.specs.Asked.{Room};

use clauses::{write_apart, write_assignment, write_declaration, write_iterator, write_update};
use machine::tags;
use phrases::write_between;
use stores::words::word_at;
use writing::write_bytes_at;

// The statement whose word is at x.
#[cycle(writing)]
fn write_statement(
    program: &[u8],
    tokens: &[u64],
    code: &[u64],
    fuel: usize,
    x: usize,
    out: &mut [u8],
    at: usize,
) -> usize
    requires { Room fuel x }
    ensures { WroteAt at (raw_statement fuel (source program.now tokens.now code.now) x)
        out.old out.new result }
{
    if fuel == 0 {
        return at;
    }
    let w = word_at(code, x);
    let y = code::last_of(w, x);
    let extra = code::extra_of(w);
    match code::tag_of(w) {
        tags::DECLARE => write_declaration(program, tokens, extra, out, at),
        tags::ASSIGN => write_assignment(program, tokens, code, fuel - 1, extra, y, out, at),
        tags::UPDATE => write_update(program, tokens, code, fuel - 1, y, out, at),
        tags::WHEN => write_guarded(program, tokens, code, fuel - 1, b"if(", x + extra, out, at),
        tags::WHILE => {
            write_guarded(
                program,
                tokens,
                code,
                fuel - 1,
                b"while(",
                x + extra,
                out,
                at,
            )
        }
        tags::FOREACH => write_foreach(program, tokens, code, fuel - 1, x, extra, out, at),
        tags::RETURN => write_apart(program, tokens, code, fuel - 1, b"return", y, b";", out, at),
        tags::BLOCK => write_block(
            program,
            tokens,
            code,
            fuel - 1,
            x,
            code::size_of(w),
            out,
            at,
        ),
        _ => write_between(program, tokens, code, fuel - 1, b"", y, b";", out, at),
    }
}

// A test whose root is y and the statement behind it.
#[cycle(writing)]
fn write_guarded(
    program: &[u8],
    tokens: &[u64],
    code: &[u64],
    fuel: usize,
    lead: &[u8],
    y: usize,
    out: &mut [u8],
    at: usize,
) -> usize
    requires { Room fuel (y + 1) }
    ensures { WroteAt at (guarded_text (raw_expression fuel (source program.now tokens.now code.now))
        (raw_statement fuel (source program.now tokens.now code.now)) lead.now y) out.old out.new result }
{
    let next = write_between(program, tokens, code, fuel, lead, y, b")\n", out, at);
    write_statement(program, tokens, code, fuel, y + 1, out, next)
}

// A foreach whose word is at x and the root of whose expression stands so many words behind, and its body.
#[cycle(writing)]
fn write_foreach(
    program: &[u8],
    tokens: &[u64],
    code: &[u64],
    fuel: usize,
    x: usize,
    extra: usize,
    out: &mut [u8],
    at: usize,
) -> usize
    requires { Room fuel (x + extra + 1) }
    ensures { WroteAt at (foreach_text (raw_expression fuel (source program.now tokens.now code.now))
        (raw_statement fuel (source program.now tokens.now code.now)) (source program.now tokens.now code.now)
        (get_or code.now (x + 1) 0) (x + extra)) out.old out.new result }
{
    let y = x + extra;
    let slot = word_at(code, x + 1) as usize;
    let next = write_iterator(program, tokens, code, fuel, slot, y, out, at);
    write_statement(program, tokens, code, fuel, y + 1, out, next)
}

// A block of n words, whose own word is at x.
#[cycle(writing)]
fn write_block(
    program: &[u8],
    tokens: &[u64],
    code: &[u64],
    fuel: usize,
    x: usize,
    n: usize,
    out: &mut [u8],
    at: usize,
) -> usize
    requires { Room fuel (x + n + 1) }
    ensures { WroteAt at (bytes "{\n" ++ raw_statements (suc n) (raw_statement fuel (source program.now tokens.now code.now))
        (source program.now tokens.now code.now) (x + 1) (x + n) ++ bytes "}") out.old out.new result }
{
    let inside = write_bytes_at(out, at, b"{\n");
    let end = write_statements(
        program,
        tokens,
        code,
        fuel,
        x + 1,
        x + n,
        n + 1,
        out,
        inside,
    );
    write_bytes_at(out, end, b"}")
}

// The statements from `first` up to `end`, at most so many, each with its linefeed.
#[cycle(writing)]
pub fn write_statements(
    program: &[u8],
    tokens: &[u64],
    code: &[u64],
    fuel: usize,
    first: usize,
    end: usize,
    rounds: usize,
    out: &mut [u8],
    at: usize,
) -> usize
    requires { Room fuel end }
    ensures { WroteAt at (raw_statements rounds (raw_statement fuel (source program.now tokens.now code.now))
        (source program.now tokens.now code.now) first end) out.old out.new result }
{
    let mut next = at;
    let mut x = first;
    for _ in 0..rounds {
        if end <= x {
            return next;
        }
        next = write_line(program, tokens, code, fuel, x, out, next);
        x += code::size_of(word_at(code, x));
    }
    next
}

// The statement whose word is at x, and a linefeed.
#[cycle(writing)]
fn write_line(
    program: &[u8],
    tokens: &[u64],
    code: &[u64],
    fuel: usize,
    x: usize,
    out: &mut [u8],
    at: usize,
) -> usize
    requires { Room fuel x }
    ensures { WroteAt at (raw_statement fuel (source program.now tokens.now code.now) x ++ bytes "\n")
        out.old out.new result }
{
    let end = write_statement(program, tokens, code, fuel, x, out, at);
    write_bytes_at(out, end, b"\n")
}
