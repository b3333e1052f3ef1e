// The lines of shapes.
ghost use Rattle.std.specs.Prelude.{◌≡◌, length};
ghost use Rattle.meaning.specs.Figure.{text};
ghost use Rattle.meaning.specs.Picture.{plain_line, side_start, absolute, line_of};
ghost use Rattle.writing.specs.Placed.{Wrote, WroteAt};
ghost use Rattle.picture.specs.Parts.{figure_from, figure_of, shown_start, shown_size, Shows, element};

use writing::{pair_length, write_bytes_at, write_pair_at};

// ---- kinds of figures by their numbers, as the words of shapes have them; any other is a text
const LINE: u8 = 0;

const ELLIPSE: u8 = 1;

const BOX: u8 = 2;

// A figure by its kind's number and its four numbers; of these a text has two.
#[derive(Clone, Copy)]
pub struct Shape {
    pub kind: u8,
    pub a: i32,
    pub b: i32,
    pub c: i32,
    pub d: i32,
}

// The numbers that its line shows.
#[derive(Clone, Copy)]
pub struct Shown {
    pub a: i64,
    pub b: i64,
    pub c: i64,
    pub d: i64,
}

// Where a side begins: a negative size leads back from its place.
fn side_start(x: i32, size: i32) -> i64
    ensures { result ≡ side_start x size }
{
    let start = x as i64;
    if size < 0 {
        start + (size as i64)
    } else {
        start
    }
}

// The numbers that a line shows, by its kind.
fn shown_start(kind: u8, x: i32, size: i32) -> i64
    ensures { result ≡ shown_start kind x size }
{
    if kind == BOX {
        side_start(x, size)
    } else {
        x as i64
    }
}

fn shown_size(kind: u8, size: i32) -> i64
    ensures { result ≡ shown_size kind size }
{
    if kind == LINE {
        size as i64
    } else {
        size.unsigned_abs() as i64
    }
}

fn shown_numbers(f: Shape) -> Shown
    ensures { Shows f result }
{
    Shown {
        a: shown_start(f.kind, f.a, f.c),
        b: shown_start(f.kind, f.b, f.d),
        c: shown_size(f.kind, f.c),
        d: shown_size(f.kind, f.d),
    }
}

// An element with four numbers, each behind its byte string.
fn write_element(
    out: &mut [u8],
    first: &[u8],
    a: i64,
    second: &[u8],
    b: i64,
    third: &[u8],
    c: i64,
    fourth: &[u8],
    d: i64,
) -> usize
    ensures { WroteAt 0 (element first.now a second.now b third.now c fourth.now d)
        out.old out.new result }
{
    let at_b = write_pair_at(out, 0, first, a);
    let at_c = write_pair_at(out, at_b, second, b);
    let at_d = write_pair_at(out, at_c, third, c);
    let at_end = write_pair_at(out, at_d, fourth, d);
    write_bytes_at(out, at_end, b"\"/>\n")
}

fn write_text(out: &mut [u8], x: i64, y: i64, bytes: &[u8]) -> usize
    ensures { Wrote (plain_line (text x y bytes.now)) out.old out.new result }
{
    let at_y = write_pair_at(out, 0, b"<text x=\"", x);
    let at_close = write_pair_at(out, at_y, b"\" y=\"", y);
    let at_bytes = write_bytes_at(out, at_close, b"\">");
    let at_end = write_bytes_at(out, at_bytes, bytes);
    write_bytes_at(out, at_end, b"</text>\n")
}

// A line with the numbers as they are.
fn write_plain(out: &mut [u8], kind: u8, n: Shown, text: &[u8]) -> usize
    ensures { Wrote (plain_line (figure_from kind n.a n.b n.c n.d text.now)) out.old out.new result }
{
    match kind {
        LINE => write_element(
            out,
            b"<line x1=\"",
            n.a,
            b"\" y1=\"",
            n.b,
            b"\" x2=\"",
            n.c,
            b"\" y2=\"",
            n.d,
        ),
        ELLIPSE => write_element(
            out,
            b"<ellipse cx=\"",
            n.a,
            b"\" cy=\"",
            n.b,
            b"\" rx=\"",
            n.c,
            b"\" ry=\"",
            n.d,
        ),
        BOX => write_element(
            out,
            b"<rect x=\"",
            n.a,
            b"\" y=\"",
            n.b,
            b"\" width=\"",
            n.c,
            b"\" height=\"",
            n.d,
        ),
        _ => write_text(out, n.a, n.b, text),
    }
}

// How many bytes it has: those of every line of its kind, and those of its numbers and text.
fn plain_length(kind: u8, n: Shown, text: &[u8]) -> usize
    ensures { result ≡ length (plain_line (figure_from kind n.a n.b n.c n.d text.now)) }
{
    match kind {
        LINE => 32 + pair_length(n.a, n.b) + pair_length(n.c, n.d),
        ELLIPSE => 35 + pair_length(n.a, n.b) + pair_length(n.c, n.d),
        BOX => 37 + pair_length(n.a, n.b) + pair_length(n.c, n.d),
        _ => 24 + pair_length(n.a, n.b) + text.len(),
    }
}

// The line of a figure, given without its text, and of its text. The slice is the unwritten rest of a picture.
pub fn write_line(out: &mut [u8], f: Shape, text: &[u8]) -> usize
    ensures { Wrote (line_of (figure_of f text.now)) out.old out.new result }
{
    write_plain(out, f.kind, shown_numbers(f), text)
}

// How many bytes the line of a figure has.
pub fn line_length(f: Shape, text: &[u8]) -> usize
    ensures { result ≡ length (line_of (figure_of f text.now)) }
{
    plain_length(f.kind, shown_numbers(f), text)
}

// The line from a place on, lent what follows the place; the place behind the line.
pub fn write_line_at(out: &mut [u8], at: usize, f: Shape, text: &[u8]) -> usize
    ensures { WroteAt at (line_of (figure_of f text.now)) out.old out.new result }
{
    if out.len() < at {
        return at.saturating_add(line_length(f, text));
    }
    let filled = write_line(&mut out[at..], f, text);
    at.saturating_add(filled)
}
