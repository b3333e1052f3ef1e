// Centres of figures, and the figures that procedures make.
ghost use Rattle.std.specs.Prelude.{◌≤◌, ◌≡◌, length};
ghost use Rattle.machine.specs.Layout.{fixed_words};
ghost use Rattle.machine.specs.Arguments.{centre_x, centre_y, connecting, text_on};
ghost use Rattle.arguments.specs.Given.{centre, drawn_figure, text_figure, connecting_figure, label_figure};

use machine::{Figure, shapes};

// The middle of what begins at x and goes to z, or is z wide, by the figure's kind.
fn centre(kind: u64, x: i32, z: i32) -> i32
    ensures { result ≡ centre kind x z }
{
    match kind {
        shapes::LINE => arithmetic::middle(x, z),
        shapes::BOX => arithmetic::corner_middle(x, z),
        _ => x,
    }
}

pub fn centre_x(f: Figure) -> i32
    ensures { result ≡ centre_x f }
{
    centre(f.kind, f.a, f.c)
}

pub fn centre_y(f: Figure) -> i32
    ensures { result ≡ centre_y f }
{
    centre(f.kind, f.b, f.d)
}

pub fn drawn_figure(words: &[u64], kind: u64, base: u64) -> Figure
    requires { fixed_words ≤ length words.now }
    ensures { result ≡ drawn_figure words.now kind base }
{
    let x = crate::integer_at(words, base, 0);
    let y = crate::integer_at(words, base, 1);
    let z = crate::integer_at(words, base, 2);
    let w = crate::integer_at(words, base, 3);
    Figure {
        kind,
        a: x,
        b: y,
        c: z,
        d: w,
        text: 0,
    }
}

pub fn text_figure(words: &[u64], base: u64) -> Figure
    requires { fixed_words ≤ length words.now }
    ensures { result ≡ text_figure words.now base }
{
    let left = crate::integer_at(words, base, 0);
    let top = crate::integer_at(words, base, 1);
    let h = crate::handle_at(words, base, 2);
    Figure {
        kind: shapes::TEXT,
        a: left,
        b: top,
        c: 0,
        d: 0,
        text: h,
    }
}

// A line from centre to centre.
pub fn connecting(f: Figure, g: Figure) -> Figure
    ensures { result ≡ connecting f g }
{
    Figure {
        kind: shapes::LINE,
        a: centre_x(f),
        b: centre_y(f),
        c: centre_x(g),
        d: centre_y(g),
        text: 0,
    }
}

pub fn connecting_figure(words: &[u64], base: u64) -> Figure
    requires { fixed_words ≤ length words.now }
    ensures { result ≡ connecting_figure words.now base }
{
    connecting(
        crate::given_figure(words, base, 0),
        crate::given_figure(words, base, 1),
    )
}

// A text at a centre.
pub fn text_on(f: Figure, h: u64) -> Figure
    ensures { result ≡ text_on f h }
{
    Figure {
        kind: shapes::TEXT,
        a: centre_x(f),
        b: centre_y(f),
        c: 0,
        d: 0,
        text: h,
    }
}

pub fn label_figure(words: &[u64], base: u64) -> Figure
    requires { fixed_words ≤ length words.now }
    ensures { result ≡ label_figure words.now base }
{
    text_on(
        crate::given_figure(words, base, 0),
        crate::handle_at(words, base, 1),
    )
}
