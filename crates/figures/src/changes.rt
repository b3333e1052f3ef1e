// Figures moved and scaled.
ghost use Rattle.std.specs.Prelude.{◌≡◌, false};
ghost use Rattle.meaning.specs.Integer.{is_zero};
ghost use Rattle.machine.specs.Operate.{plus_x, plus_y, minus_x, minus_y, scaled_up, scaled_down};
ghost use Rattle.figures.specs.Changes.{placed, renumbered, refusal, unless, changed};

use machine::{Fault, Figure, shapes, tags};

// A figure with its first point in another place, and its second if it is a line.
fn placed(f: Figure, x: i32, y: i32, z: i32, w: i32) -> Figure
    ensures { result ≡ placed f x y z w }
{
    if f.kind == shapes::LINE {
        return renumbered(f, x, y, z, w);
    }
    Figure { a: x, b: y, ..f }
}

// A figure with other numbers.
fn renumbered(f: Figure, x: i32, y: i32, z: i32, w: i32) -> Figure
    ensures { result ≡ renumbered f x y z w }
{
    Figure {
        a: x,
        b: y,
        c: z,
        d: w,
        ..f
    }
}

fn plus_y(f: Figure, n: i32) -> Figure
    ensures { result ≡ plus_y f n }
{
    let y = arithmetic::sum(f.b, n);
    let w = arithmetic::sum(f.d, n);
    placed(f, f.a, y, f.c, w)
}

fn minus_y(f: Figure, n: i32) -> Figure
    ensures { result ≡ minus_y f n }
{
    let y = arithmetic::difference(f.b, n);
    let w = arithmetic::difference(f.d, n);
    placed(f, f.a, y, f.c, w)
}

fn plus_x(f: Figure, n: i32) -> Figure
    ensures { result ≡ plus_x f n }
{
    let x = arithmetic::sum(f.a, n);
    let z = arithmetic::sum(f.c, n);
    placed(f, x, f.b, z, f.d)
}

fn minus_x(f: Figure, n: i32) -> Figure
    ensures { result ≡ minus_x f n }
{
    let x = arithmetic::difference(f.a, n);
    let z = arithmetic::difference(f.c, n);
    placed(f, x, f.b, z, f.d)
}

fn scaled_up(f: Figure, n: i32) -> Figure
    ensures { result ≡ scaled_up f n }
{
    let x = arithmetic::product(f.a, n);
    let y = arithmetic::product(f.b, n);
    let z = arithmetic::product(f.c, n);
    let w = arithmetic::product(f.d, n);
    renumbered(f, x, y, z, w)
}

fn scaled_down(f: Figure, n: i32) -> Figure
    requires { is_zero n ≡ false }
    ensures { result ≡ scaled_down f n }
{
    let x = arithmetic::quotient(f.a, n);
    let y = arithmetic::quotient(f.b, n);
    let z = arithmetic::quotient(f.c, n);
    let w = arithmetic::quotient(f.d, n);
    renumbered(f, x, y, z, w)
}

// Whether an operator makes a shape of a shape and n.
pub fn allowed(tag: u64, n: i32, p: u64) -> Result<(), Fault>
    ensures { result ≡ unless (refusal tag n) p }
{
    match tag {
        tags::ADD => Ok(()),
        tags::SUBTRACT => Ok(()),
        tags::MULTIPLY => Ok(()),
        tags::DIVIDE => {
            if arithmetic::is_zero(n) {
                return Err(Fault::DivisionByZero(p));
            }
            Ok(())
        }
        tags::SHIFT_RIGHT => Ok(()),
        tags::SHIFT_LEFT => Ok(()),
        _ => Err(Fault::Misuse(p)),
    }
}

// The figure that an operator makes of a figure and n.
pub fn changed(tag: u64, f: Figure, n: i32) -> Figure
    requires { refusal tag n ≡ 0 }
    ensures { result ≡ changed tag f n }
{
    match tag {
        tags::ADD => plus_y(f, n),
        tags::SUBTRACT => minus_y(f, n),
        tags::MULTIPLY => scaled_up(f, n),
        tags::DIVIDE => scaled_down(f, n),
        tags::SHIFT_RIGHT => plus_x(f, n),
        _ => minus_x(f, n),
    }
}
