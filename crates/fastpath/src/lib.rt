// Expressions of integers worked out at once, as words: constants, variables and operators on integers; and arguments that are strings or
// shapes. A word of 0 says that this does not apply; nothing has changed then, and the expression is evaluated as any other.
#![tactic(auto)]

ghost use Rattle.std.specs.Prelude.{◌≤◌, ◌≡◌, length, get_or};
ghost use Rattle.machine.specs.Opcodes.{tag_divide, tag_remainder, size_at};
ghost use Rattle.machine.specs.Layout.{fixed_words};
ghost use Rattle.fastpath.specs.Fast.{plain_word, leaf_word, operator_word, word_on, sizes_agree, operation_word, fast_at, living_word, other_word, leaf_argument, argument_at, Values};

use machine::{counters, granted, heads, kinds, tags};

// ---- constants and variables
// What a variable's word holds, if it is an integer or a truth.
fn plain_word(u: u64) -> u64
    ensures { result ≡ plain_word u }
{
    if u % 8 == kinds::INTEGER {
        return u % 34359738368;
    }
    if u % 8 == kinds::TRUTH {
        return u % 16;
    }
    0
}

// A constant or a variable, by the word of the code: its lower half is the tag and a size of 1.
fn leaf_word(words: &[u64], w: u64) -> u64
    requires { fixed_words ≤ length words.now }
    ensures { result ≡ leaf_word words.now w }
{
    let head = w % 4294967296;
    if head == heads::NUMBER {
        return kinds::INTEGER + 8 * (w / 4294967296);
    }
    if head == heads::NAME {
        return plain_word(frames::variables::holding(words, (w / 4294967296) as usize));
    }
    0
}

// ---- operators
fn quotient_word(x: i32, y: i32) -> u64
    ensures { result ≡ operator_word tag_divide x y }
{
    if arithmetic::is_zero(y) {
        return 0;
    }
    values::integer_word(arithmetic::quotient(x, y))
}

fn remainder_word(x: i32, y: i32) -> u64
    ensures { result ≡ operator_word tag_remainder x y }
{
    if arithmetic::is_zero(y) {
        return 0;
    }
    values::integer_word(arithmetic::remainder(x, y))
}

// An operator, by its tag, on two integers.
fn operator_word(tag: u64, x: i32, y: i32) -> u64
    ensures { result ≡ operator_word tag x y }
{
    match tag {
        tags::ADD => values::integer_word(arithmetic::sum(x, y)),
        tags::SUBTRACT => values::integer_word(arithmetic::difference(x, y)),
        tags::MULTIPLY => values::integer_word(arithmetic::product(x, y)),
        tags::DIVIDE => quotient_word(x, y),
        tags::REMAINDER => remainder_word(x, y),
        tags::SHIFT_RIGHT => values::integer_word(arithmetic::shifted_right(x, y)),
        tags::SHIFT_LEFT => values::integer_word(arithmetic::shifted_left(x, y)),
        tags::EQUAL => values::truth_word(arithmetic::same(x, y)),
        tags::UNEQUAL => values::truth_word(!arithmetic::same(x, y)),
        tags::GREATER => values::truth_word(arithmetic::less(y, x)),
        tags::LESS => values::truth_word(arithmetic::less(x, y)),
        _ => 0,
    }
}

// The same on two words, which must hold integers.
fn word_on(tag: u64, a: u64, b: u64) -> u64
    ensures { result ≡ word_on tag a b }
{
    if a % 8 != kinds::INTEGER {
        return 0;
    }
    if b % 8 != kinds::INTEGER {
        return 0;
    }
    operator_word(tag, values::integer_of(a), values::integer_of(b))
}

// Whether an operator's word has one word more than its sides.
fn sizes_agree(w: u64, u: u64, v: u64) -> bool
    ensures { result ≡ sizes_agree w u v }
{
    code::size_of(w) == code::size_of(u) + code::size_of(v) + 1
}

// ---- expressions
// An operator on two expressions.
#[cycle(evaluating)]
fn operation(code: &[u64], words: &[u64], depth: usize, w: u64, x: usize) -> u64
    requires { fixed_words ≤ length words.now }
    ensures { result ≡ operation_word (fast_at depth code.now words.now) code.now w x }
{
    let code = &code[0..];
    let words = &words[0..];
    let z = code::left_of(w, x);
    let y = code::right_of(x);
    let u = stores::words::word_at(code, z);
    let v = stores::words::word_at(code, y);
    if !sizes_agree(w, u, v) {
        return 0;
    }
    let a = expression(code, words, depth, u, z);
    if a % 8 != kinds::INTEGER {
        return 0;
    }
    let b = expression(code, words, depth, v, y);
    word_on(code::tag_of(w), a, b)
}

// The expression whose root, the word w, stands at x.
#[cycle(evaluating)]
fn expression(code: &[u64], words: &[u64], depth: usize, w: u64, x: usize) -> u64
    requires fixed_words_in_bounds { fixed_words ≤ length words.now }
    requires w_value { w ≡ get_or code.now x 0 }
    ensures { result ≡ fast_at depth code.now words.now x }
{
    if depth == 0 {
        return 0;
    }
    if code::tag_of(w) < tags::FIRST_OPERATOR {
        return leaf_word(words, w);
    }
    let r = operation(code, words, depth - 1, w, x);
    r
}

// The same of a root. It stands outside the cycle, so that the compiler puts the leaves of an operator into `operation`.
fn root(code: &[u64], words: &[u64], depth: usize, w: u64, x: usize) -> u64
    requires fixed_words_in_bounds { fixed_words ≤ length words.now }
    requires w_value { w ≡ get_or code.now x 0 }
    ensures { result ≡ fast_at depth code.now words.now x }
{
    if depth == 0 {
        return 0;
    }
    if code::tag_of(w) < tags::FIRST_OPERATOR {
        return leaf_word(words, w);
    }
    let code = &code[0..];
    let words = &words[0..];
    let r = operation(code, words, depth - 1, w, x);
    r
}

// ---- steps
// A value whose steps are counted; 0, and nothing counted, if it is 0 or they are too many.
fn counted(words: &mut [u64], grants: &[u64; 5], v: u64, steps: usize) -> u64
    requires { fixed_words ≤ length words.old }
    ensures { Values v steps grants.now words.old result words.new }
{
    if v == 0 {
        return 0;
    }
    let limit = grants[granted::STEPS];
    if !stores::counters::spend(words, counters::STEPS, limit, steps as u64) {
        return 0;
    }
    v
}

// The value of the expression whose root stands at x, its steps counted; 0, and nothing counted, where this does not apply.
pub fn fast_value(words: &mut [u64], code: &[u64], grants: &[u64; 5], depth: usize, x: usize) -> u64
    requires { fixed_words ≤ length words.old }
    ensures { Values (fast_at depth code.now words.old x) (size_at code.now x) grants.now words.old result words.new }
{
    let code = &code[0..];
    let w = stores::words::word_at(code, x);
    let v = root(code, words, depth, w, x);
    let r = counted(words, grants, v, code::size_of(w));
    r
}

// ---- arguments
// The shape that a variable's word holds, if it is not destroyed.
fn living_word(words: &[u64], u: u64) -> u64
    ensures { result ≡ living_word words.now u }
{
    if u % 8 != kinds::SHAPE {
        return 0;
    }
    let i = values::number_of(u);
    if stores::shapes::is_destroyed(words, i) {
        return 0;
    }
    values::shape_word(i)
}

// A string, or a variable that holds such a shape, by the word of the code.
fn other_word(words: &[u64], w: u64) -> u64
    requires { fixed_words ≤ length words.now }
    ensures { result ≡ other_word words.now w }
{
    let head = w % 4294967296;
    if head == heads::STRING {
        return values::text_word(2 * (w / 4294967296));
    }
    if head == heads::NAME {
        return living_word(
            words,
            frames::variables::holding(words, (w / 4294967296) as usize),
        );
    }
    0
}

// A constant, a variable or a string, by the word of the code.
fn leaf_argument(words: &[u64], w: u64) -> u64
    requires { fixed_words ≤ length words.now }
    ensures { result ≡ leaf_argument words.now w }
{
    let v = leaf_word(words, w);
    if v == 0 {
        return other_word(words, w);
    }
    v
}

// The value of the argument whose root stands at x, its steps counted, one for a leaf; 0, and nothing counted, where this does not apply.
pub fn argument_value(
    words: &mut [u64],
    code: &[u64],
    grants: &[u64; 5],
    depth: usize,
    x: usize,
) -> u64
    requires { fixed_words ≤ length words.old }
    ensures { Values (argument_at depth code.now words.old x) (size_at code.now x) grants.now words.old result words.new }
{
    if depth == 0 {
        return 0;
    }
    let w = stores::words::word_at(code, x);
    if code::tag_of(w) < tags::FIRST_OPERATOR {
        let v = leaf_argument(words, w);
        let r = counted(words, grants, v, 1);
        return r;
    }
    let r = fast_value(words, code, grants, depth, x);
    r
}
