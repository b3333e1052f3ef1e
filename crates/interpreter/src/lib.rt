// Evaluating expressions and executing statements over code, which call each other: a call runs a procedure's body. `fuel` falls at each expression,
// statement and call that is inside another.
#![tactic(auto)]

ghost use Rattle.std.specs.Prelude.{◌+◌, ◌≡◌};
ghost use Rattle.machine.specs.Act.{DoesIn};
ghost use Rattle.machine.specs.Evaluate.{setting};
ghost use Rattle.machine.specs.Loops.{turn, loop_over};
ghost use Rattle.machine.specs.Interpret.{expression_at, statement_at, body_at, invoke_at};
ghost use Rattle.interpreter.specs.Asked.{Lent, Calls, Runs, Leaves, Body};
ghost use Rattle.interpreter.specs.Cycle.{operands_in, call_in, argument_in, simple_in, update_in, test_in, when_in, repeat_in, foreach_in, statements_in, procedure_in, returned};
ghost use Rattle.interpreter.specs.Members.{member_at, inside_at};

use machine::{Fault, Flow, Value, granted, tags};

// ---- expressions
// An expression by its root x, in the statement at p. An answer that is handed on is made anew, here and in `simple`: a copy would be read in other
// pieces than it was written in, and the processor would wait.
#[cycle(interpreting)]
fn expression(
    program: &[u8],
    code: &[u64],
    grants: &[u64; 5],
    texts: &mut [u8],
    words: &mut [u64],
    fuel: usize,
    x: usize,
    p: u64,
) -> Result<Value, Fault>
    requires { Lent grants.now texts.old words.old fuel }
    ensures { DoesIn texts.old words.old (expression_at fuel (setting program.now code.now grants.now) x p)
        result texts.new words.new }
{
    if fuel == 0 {
        return Err(Fault::Misuse(p));
    }
    stores::counters::take_step(words, grants, p)?;
    let w = stores::words::word_at(code, x);
    let tag = code::tag_of(w);
    if tag < tags::TABLE {
        return results::leaf(words, w, p);
    }
    if tag == tags::CALL {
        let v = call(program, code, grants, texts, words, fuel - 1, w, x, p)?;
        return Ok(v);
    }
    let v = operands(program, code, grants, texts, words, fuel - 1, w, x, p)?;
    Ok(v)
}

// A new table by its size, a table read, or an operator.
#[cycle(interpreting)]
fn operands(
    program: &[u8],
    code: &[u64],
    grants: &[u64; 5],
    texts: &mut [u8],
    words: &mut [u64],
    fuel: usize,
    w: u64,
    x: usize,
    p: u64,
) -> Result<Value, Fault>
    requires { Lent grants.now texts.old words.old fuel }
    ensures { DoesIn texts.old words.old (operands_in fuel (setting program.now code.now grants.now) w x p)
        result texts.new words.new }
{
    let u = expression(
        program,
        code,
        grants,
        texts,
        words,
        fuel,
        code::left_of(w, x),
        p,
    )?;
    let a = values::pack(u);
    let tag = code::tag_of(w);
    if tag == tags::TABLE {
        return results::new_table(words, a, p);
    }
    if results::lacks_table(tag, a) {
        return Err(Fault::Misuse(p));
    }
    let v = expression(
        program,
        code,
        grants,
        texts,
        words,
        fuel,
        code::right_of(x),
        p,
    )?;
    results::apply(program, grants, texts, words, tag, p, a, values::pack(v))
}

// A call, its arguments one after the other.
#[cycle(interpreting)]
fn call(
    program: &[u8],
    code: &[u64],
    grants: &[u64; 5],
    texts: &mut [u8],
    words: &mut [u64],
    fuel: usize,
    w: u64,
    x: usize,
    p: u64,
) -> Result<Value, Fault>
    requires { Lent grants.now texts.old words.old fuel }
    ensures { DoesIn texts.old words.old (call_in fuel (setting program.now code.now grants.now) w x p)
        result texts.new words.new }
{
    let base = stores::arguments::arguments_held(words);
    let a = code::first_argument(w, x);
    let mut y = code::argument_root(stores::words::word_at(code, a), a, x);
    while y < x {
        argument(program, code, grants, texts, words, fuel, y, p)?;
        y = code::argument_root(stores::words::word_at(code, y + 1), y + 1, x);
    }
    let number = code::library_of(w);
    if number == machine::procedures::OTHER {
        invoke(
            program,
            code,
            grants,
            texts,
            words,
            fuel,
            code::callee_of(w),
            p,
            base as usize,
        )
    } else {
        results::called(words, grants, number, p, base)
    }
}

// An argument by its root, pushed: worked out at once where it can be.
#[cycle(interpreting)]
fn argument(
    program: &[u8],
    code: &[u64],
    grants: &[u64; 5],
    texts: &mut [u8],
    words: &mut [u64],
    fuel: usize,
    y: usize,
    p: u64,
) -> Result<(), Fault>
    requires { Lent grants.now texts.old words.old fuel }
    ensures { DoesIn texts.old words.old (argument_in fuel (setting program.now code.now grants.now) y p)
        result texts.new words.new }
{
    let w = fastpath::argument_value(words, code, grants, fuel, y);
    if w != 0 {
        return stores::arguments::push(words, w, p);
    }
    pushed(program, code, grants, texts, words, fuel, y, p)
}

// The same of one that is evaluated as any expression. It is a function of its own so that what its call takes of the stack is free again before the next.
#[cycle(interpreting)]
fn pushed(
    program: &[u8],
    code: &[u64],
    grants: &[u64; 5],
    texts: &mut [u8],
    words: &mut [u64],
    fuel: usize,
    y: usize,
    p: u64,
) -> Result<(), Fault>
    requires { Lent grants.now texts.old words.old fuel }
    ensures { DoesIn texts.old words.old (argument_in fuel (setting program.now code.now grants.now) y p)
        result texts.new words.new }
{
    let v = expression(program, code, grants, texts, words, fuel, y, p)?;
    stores::arguments::push(words, values::pack(v), p)
}

// A procedure of the program by its name's slot, on the arguments from the one numbered base on.
#[cycle(interpreting)]
fn invoke(
    program: &[u8],
    code: &[u64],
    grants: &[u64; 5],
    texts: &mut [u8],
    words: &mut [u64],
    fuel: usize,
    callee: usize,
    p: u64,
    base: usize,
) -> Result<Value, Fault>
    requires { Calls grants.now texts.old words.old fuel callee }
    ensures { DoesIn texts.old words.old (invoke_at fuel (setting program.now code.now grants.now) callee p base)
        result texts.new words.new }
{
    let top = stores::arguments::arguments_held(words) as usize;
    procedures::begin(words, code, grants, callee, top, p, base)?;
    let d = stores::words::word_at(code, code::table_place(callee));
    let a = code::start_of(d) + code::parameters_of(d);
    let size = code::body_of(d);
    let v = procedure(
        program,
        code,
        grants,
        texts,
        words,
        fuel,
        a,
        a + size,
        size + 1,
    )?;
    frames::calls::resume(words, base as u64);
    Ok(v)
}

// A procedure's statements from a up to end, one after the other, at most so many, and what they give. A return among them is executed here.
#[cycle(interpreting)]
fn procedure(
    program: &[u8],
    code: &[u64],
    grants: &[u64; 5],
    texts: &mut [u8],
    words: &mut [u64],
    fuel: usize,
    a: usize,
    end: usize,
    rounds: usize,
) -> Result<Value, Fault>
    requires { Runs grants.now texts.old words.old fuel end }
    ensures { DoesIn texts.old words.old (procedure_in fuel (setting program.now code.now grants.now) rounds a end)
        result texts.new words.new }
{
    let mut at = a;
    for _ in 0..rounds {
        if end <= at {
            return Ok(Value::Nothing);
        }
        let w = stores::words::word_at(code, at);
        if code::tag_of(w) == tags::RETURN {
            return leave(program, code, grants, texts, words, fuel, w, at);
        }
        if let Flow::Returned(v) = statement(program, code, grants, texts, words, fuel, at)? {
            return Ok(v);
        }
        at += code::size_of(w);
    }
    Ok(Value::Nothing)
}

// A return by its word, and the value that it gives: worked out at once where it can be.
#[cycle(interpreting)]
fn leave(
    program: &[u8],
    code: &[u64],
    grants: &[u64; 5],
    texts: &mut [u8],
    words: &mut [u64],
    fuel: usize,
    w: u64,
    x: usize,
) -> Result<Value, Fault>
    requires { Leaves code.now grants.now texts.old words.old fuel w x }
    ensures { DoesIn texts.old words.old (statement_at fuel (setting program.now code.now grants.now) x)
        (returned result) texts.new words.new }
{
    if fuel == 0 {
        return Err(Fault::Misuse(0));
    }
    let p = code::place_of(w);
    stores::counters::take_step(words, grants, p)?;
    let y = code::last_of(w, x);
    let k = fastpath::fast_value(words, code, grants, fuel - 1, y);
    if k != 0 {
        return Ok(values::unpack(k));
    }
    let v = expression(program, code, grants, texts, words, fuel - 1, y, p)?;
    Ok(values::unpack(values::pack(v)))
}

// ---- statements that hold no others
// A statement of one expression, by its word: worked out at once where it can be. What an assignment then does is so little that the compiler puts it here.
#[cycle(interpreting)]
fn simple(
    program: &[u8],
    code: &[u64],
    grants: &[u64; 5],
    texts: &mut [u8],
    words: &mut [u64],
    fuel: usize,
    w: u64,
    x: usize,
    p: u64,
) -> Result<Flow, Fault>
    requires { Runs grants.now texts.old words.old fuel x }
    ensures { DoesIn texts.old words.old (simple_in fuel (setting program.now code.now grants.now) w x p)
        result texts.new words.new }
{
    let y = code::last_of(w, x);
    let k = fastpath::fast_value(words, code, grants, fuel, y);
    if k != 0 {
        if code::tag_of(w) == tags::ASSIGN {
            return effects::put_word(words, grants, code::extra_of(w), k, p);
        }
        return Ok(effects::pass_on(w, k));
    }
    let v = expression(program, code, grants, texts, words, fuel, y, p)?;
    let flow = effects::finish(words, grants, w, values::pack(v), p)?;
    Ok(flow)
}

// An update: the table and the key stand before the value whose root is y.
#[cycle(interpreting)]
fn update(
    program: &[u8],
    code: &[u64],
    grants: &[u64; 5],
    texts: &mut [u8],
    words: &mut [u64],
    fuel: usize,
    y: usize,
    p: u64,
) -> Result<Flow, Fault>
    requires { Lent grants.now texts.old words.old fuel }
    ensures { DoesIn texts.old words.old (update_in fuel (setting program.now code.now grants.now) y p)
        result texts.new words.new }
{
    let b = code::before(stores::words::word_at(code, y), y);
    let a = code::before(stores::words::word_at(code, b), b);
    let Value::Table(t) = expression(program, code, grants, texts, words, fuel, a, p)? else {
        return Err(Fault::Misuse(p));
    };
    let u = expression(program, code, grants, texts, words, fuel, b, p)?;
    let key = values::pack(u);
    let z = expression(program, code, grants, texts, words, fuel, y, p)?;
    tables::entries::store_entry(program, texts, words, grants, p, t, key, values::pack(z))?;
    Ok(Flow::Onward)
}

// A test by its root: worked out at once where it can be. The code is lent anew for the same reason.
#[cycle(interpreting)]
fn test(
    program: &[u8],
    code: &[u64],
    grants: &[u64; 5],
    texts: &mut [u8],
    words: &mut [u64],
    fuel: usize,
    y: usize,
    p: u64,
) -> Result<bool, Fault>
    requires { Lent grants.now texts.old words.old fuel }
    ensures { DoesIn texts.old words.old (test_in fuel (setting program.now code.now grants.now) y p)
        result texts.new words.new }
{
    let code = &code[0..];
    let k = fastpath::fast_value(words, code, grants, fuel, y);
    if k != 0 {
        return effects::outcome_of(k, p);
    }
    let v = expression(program, code, grants, texts, words, fuel, y, p)?;
    effects::outcome_of(values::pack(v), p)
}

// ---- statements that hold others
// A statement by the place of its word. A loop counts its steps itself.
#[cycle(interpreting)]
fn statement(
    program: &[u8],
    code: &[u64],
    grants: &[u64; 5],
    texts: &mut [u8],
    words: &mut [u64],
    fuel: usize,
    x: usize,
) -> Result<Flow, Fault>
    requires { Runs grants.now texts.old words.old fuel x }
    ensures { DoesIn texts.old words.old (statement_at fuel (setting program.now code.now grants.now) x)
        result texts.new words.new }
{
    if fuel == 0 {
        return Err(Fault::Misuse(0));
    }
    let w = stores::words::word_at(code, x);
    let p = code::place_of(w);
    let tag = code::tag_of(w);
    if tag == tags::WHILE {
        return repeat(
            program,
            code,
            grants,
            texts,
            words,
            fuel - 1,
            x + code::extra_of(w),
            p,
        );
    }
    stores::counters::take_step(words, grants, p)?;
    match tag {
        tags::DECLARE => effects::declare(words, code::extra_of(w), p),
        tags::UPDATE => update(
            program,
            code,
            grants,
            texts,
            words,
            fuel - 1,
            code::last_of(w, x),
            p,
        ),
        tags::WHEN => when(
            program,
            code,
            grants,
            texts,
            words,
            fuel - 1,
            x + code::extra_of(w),
            p,
        ),
        tags::FOREACH => each(
            program,
            code,
            grants,
            texts,
            words,
            fuel - 1,
            stores::words::word_at(code, x + 1) as usize,
            x + code::extra_of(w),
            p,
        ),
        tags::BLOCK => {
            let n = code::size_of(w);
            statements(
                program,
                code,
                grants,
                texts,
                words,
                fuel - 1,
                x + 1,
                x + n,
                n + 1,
            )
        }
        _ => simple(program, code, grants, texts, words, fuel - 1, w, x, p),
    }
}

// The statement behind the test whose root is y, if it holds.
#[cycle(interpreting)]
fn when(
    program: &[u8],
    code: &[u64],
    grants: &[u64; 5],
    texts: &mut [u8],
    words: &mut [u64],
    fuel: usize,
    y: usize,
    p: u64,
) -> Result<Flow, Fault>
    requires { Runs grants.now texts.old words.old fuel (y + 1) }
    ensures { DoesIn texts.old words.old (when_in fuel (setting program.now code.now grants.now) y p)
        result texts.new words.new }
{
    if !test(program, code, grants, texts, words, fuel, y, p)? {
        return Ok(Flow::Onward);
    }
    let flow = statement(program, code, grants, texts, words, fuel, y + 1)?;
    Ok(flow)
}

// The statement behind the test whose root is y, as long as it holds.
#[cycle(interpreting)]
fn repeat(
    program: &[u8],
    code: &[u64],
    grants: &[u64; 5],
    texts: &mut [u8],
    words: &mut [u64],
    fuel: usize,
    y: usize,
    p: u64,
) -> Result<Flow, Fault>
    requires { Runs grants.now texts.old words.old fuel (y + 1) }
    ensures { DoesIn texts.old words.old (repeat_in fuel (setting program.now code.now grants.now) y p)
        result texts.new words.new }
{
    let turns = grants[granted::STEPS] + 1;
    for _ in 0..turns {
        stores::counters::take_step(words, grants, p)?;
        let holds = test(program, code, grants, texts, words, fuel, y, p)?;
        if !holds {
            return Ok(Flow::Onward);
        }
        if let Flow::Returned(v) = statement(program, code, grants, texts, words, fuel, y + 1)? {
            return Ok(Flow::Returned(v));
        }
    }
    Err(Fault::NoStepLeft(p))
}

// The statements from a up to end, one after the other, at most so many.
#[cycle(interpreting)]
fn statements(
    program: &[u8],
    code: &[u64],
    grants: &[u64; 5],
    texts: &mut [u8],
    words: &mut [u64],
    fuel: usize,
    a: usize,
    end: usize,
    rounds: usize,
) -> Result<Flow, Fault>
    requires { Runs grants.now texts.old words.old fuel end }
    ensures { DoesIn texts.old words.old (statements_in fuel (setting program.now code.now grants.now) rounds a end)
        result texts.new words.new }
{
    let mut at = a;
    for _ in 0..rounds {
        if end <= at {
            return Ok(Flow::Onward);
        }
        if let Flow::Returned(v) = statement(program, code, grants, texts, words, fuel, at)? {
            return Ok(Flow::Returned(v));
        }
        at += code::size_of(stores::words::word_at(code, at));
    }
    Ok(Flow::Onward)
}

// ---- loops over groups
// The statement behind the expression whose root is y, for each figure in the group that this gives; the variable has so much for its slot.
#[cycle(interpreting)]
fn each(
    program: &[u8],
    code: &[u64],
    grants: &[u64; 5],
    texts: &mut [u8],
    words: &mut [u64],
    fuel: usize,
    slot: usize,
    y: usize,
    p: u64,
) -> Result<Flow, Fault>
    requires { Runs grants.now texts.old words.old fuel (y + 1) }
    ensures { DoesIn texts.old words.old (foreach_in fuel (setting program.now code.now grants.now) slot y p)
        result texts.new words.new }
{
    let Value::Shape(i) = expression(program, code, grants, texts, words, fuel, y, p)? else {
        return Err(Fault::Misuse(p));
    };
    effects::open_loop(words, slot, i, p)?;
    own(program, code, grants, texts, words, fuel, slot, y + 1, p, i)
}

// The statement at b for each figure in group i, its own components one after the other.
#[cycle(interpreting)]
fn own(
    program: &[u8],
    code: &[u64],
    grants: &[u64; 5],
    texts: &mut [u8],
    words: &mut [u64],
    fuel: usize,
    slot: usize,
    b: usize,
    p: u64,
    i: u32,
) -> Result<Flow, Fault>
    requires { Runs grants.now texts.old words.old fuel b }
    ensures { DoesIn texts.old words.old (loop_over (statement_at fuel (setting program.now code.now grants.now) b) grants.now p slot i)
        result texts.new words.new }
{
    let first = stores::components::first_at(words, i);
    let n = stores::components::count_at(words, i);
    let unit = effects::enter_loop(words);
    for k in first..first + n {
        if let Flow::Returned(v) = member(
            program, code, grants, texts, words, fuel, slot, b, p, k,
        )? {
            effects::leave_loop(words, unit);
            return Ok(Flow::Returned(v));
        }
    }
    effects::leave_loop(words, unit);
    Ok(Flow::Onward)
}

// For each figure that the component in slot k is or holds; it is passed over without a step if it is destroyed.
#[cycle(interpreting)]
fn member(
    program: &[u8],
    code: &[u64],
    grants: &[u64; 5],
    texts: &mut [u8],
    words: &mut [u64],
    fuel: usize,
    slot: usize,
    b: usize,
    p: u64,
    k: u32,
) -> Result<Flow, Fault>
    requires { Runs grants.now texts.old words.old fuel b }
    ensures { DoesIn texts.old words.old (member_at (statement_at fuel (setting program.now code.now grants.now) b) grants.now p slot k)
        result texts.new words.new }
{
    let c = stores::components::component_at(words, grants, k);
    if stores::shapes::is_destroyed(words, c) {
        return Ok(Flow::Onward);
    }
    stores::counters::take_step(words, grants, p)?;
    if !stores::shapes::is_group(words, c) {
        return bound(program, code, grants, texts, words, fuel, slot, b, c);
    }
    inside(program, code, grants, texts, words, fuel, slot, b, p, k, c)
}

// For each figure in group c, the component in slot end.
#[cycle(interpreting)]
fn inside(
    program: &[u8],
    code: &[u64],
    grants: &[u64; 5],
    texts: &mut [u8],
    words: &mut [u64],
    fuel: usize,
    slot: usize,
    b: usize,
    p: u64,
    end: u32,
    c: u32,
) -> Result<Flow, Fault>
    requires { Runs grants.now texts.old words.old fuel b }
    ensures { DoesIn texts.old words.old (inside_at (statement_at fuel (setting program.now code.now grants.now) b) grants.now p slot end c)
        result texts.new words.new }
{
    let mut found = loops::looking::look_in(words, grants, c);
    let turns = grants[granted::STEPS] + 1;
    for _ in 0..turns {
        if found == 0 {
            return Ok(Flow::Onward);
        }
        let i = stores::components::component_at(words, grants, found - 1);
        if let Flow::Returned(v) = bound(program, code, grants, texts, words, fuel, slot, b, i)? {
            loops::marks::unmark_below(words, grants, end);
            return Ok(Flow::Returned(v));
        }
        found = loops::looking::look_behind(words, grants, end, found - 1);
    }
    Err(Fault::NoStepLeft(p))
}

// The statement at b with the variable bound to shape i.
#[cycle(interpreting)]
fn bound(
    program: &[u8],
    code: &[u64],
    grants: &[u64; 5],
    texts: &mut [u8],
    words: &mut [u64],
    fuel: usize,
    slot: usize,
    b: usize,
    i: u32,
) -> Result<Flow, Fault>
    requires { Runs grants.now texts.old words.old fuel b }
    ensures { DoesIn texts.old words.old (turn (statement_at fuel (setting program.now code.now grants.now) b) slot i)
        result texts.new words.new }
{
    frames::variables::set_variable(words, slot, values::pack(Value::Shape(i)));
    statement(program, code, grants, texts, words, fuel, b)
}

// A body of n words from a on.
pub fn body(
    program: &[u8],
    code: &[u64],
    grants: &[u64; 5],
    texts: &mut [u8],
    words: &mut [u64],
    fuel: usize,
    a: usize,
    n: usize,
) -> Result<Flow, Fault>
    requires { Body grants.now texts.old words.old fuel a n }
    ensures { DoesIn texts.old words.old (body_at fuel (setting program.now code.now grants.now) a n)
        result texts.new words.new }
{
    statements(program, code, grants, texts, words, fuel, a, a + n, n + 1)
}
