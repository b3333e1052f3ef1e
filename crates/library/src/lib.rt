// Library procedures, on the arguments of a call: n of them, held from the one numbered base on.
#![tactic(auto)]

ghost use Rattle.std.specs.Prelude.{◌≤◌, length};
ghost use Rattle.machine.specs.Layout.{fixed_words, Room};
ghost use Rattle.machine.specs.Act.{Does};
ghost use Rattle.machine.specs.Library.{drawn, drawn_text, connected, labelled, coordinate, destroyed, clearing, grouped, perform, call_library};
ghost use Rattle.machine.specs.Arguments.{centre_x, centre_y};
ghost use Rattle.library.specs.Asked.{only_figure};

use arguments::given;
use machine::{Fault, Figure, Value, kinds, procedures, shapes};

// Each asks for its own count and kinds and makes its own figure: one function for the next four would take both as closures, and be no plainer.
// Four integers make a figure of a kind.
fn draw(
    words: &mut [u64],
    grants: &[u64; 5],
    kind: u64,
    p: u64,
    base: u64,
    n: u64,
) -> Result<Value, Fault>
    requires { Room grants.now words.old }
    ensures { Does words.old (drawn grants.now kind p base n) result words.new }
{
    if n != 4 {
        return Err(Fault::Misuse(p));
    }
    if !arguments::four_integers(words, base) {
        return Err(Fault::Misuse(p));
    }
    stores::shapes::new_shape(words, grants, p, given::drawn_figure(words, kind, base))
}

fn draw_text(
    words: &mut [u64],
    grants: &[u64; 5],
    p: u64,
    base: u64,
    n: u64,
) -> Result<Value, Fault>
    requires { Room grants.now words.old }
    ensures { Does words.old (drawn_text grants.now p base n) result words.new }
{
    if n != 3 {
        return Err(Fault::Misuse(p));
    }
    if !arguments::point_and_text(words, base) {
        return Err(Fault::Misuse(p));
    }
    stores::shapes::new_shape(words, grants, p, given::text_figure(words, base))
}

fn connect(words: &mut [u64], grants: &[u64; 5], p: u64, base: u64, n: u64) -> Result<Value, Fault>
    requires { Room grants.now words.old }
    ensures { Does words.old (connected grants.now p base n) result words.new }
{
    if n != 2 {
        return Err(Fault::Misuse(p));
    }
    if !arguments::two_figures(words, base) {
        return Err(Fault::Misuse(p));
    }
    stores::shapes::new_shape(words, grants, p, given::connecting_figure(words, base))
}

fn label(words: &mut [u64], grants: &[u64; 5], p: u64, base: u64, n: u64) -> Result<Value, Fault>
    requires { Room grants.now words.old }
    ensures { Does words.old (labelled grants.now p base n) result words.new }
{
    if n != 2 {
        return Err(Fault::Misuse(p));
    }
    if !arguments::figure_and_text(words, base) {
        return Err(Fault::Misuse(p));
    }
    stores::shapes::new_shape(words, grants, p, given::label_figure(words, base))
}

// The only argument, which has to be a figure.
fn only_figure(words: &[u64], p: u64, base: u64, n: u64) -> Result<Figure, Fault>
    requires { fixed_words ≤ length words.now }
    ensures { Does words.now (only_figure p base n) result words.now }
{
    if n != 1 {
        return Err(Fault::Misuse(p));
    }
    if !arguments::is_figure(words, base, 0) {
        return Err(Fault::Misuse(p));
    }
    Ok(arguments::given_figure(words, base, 0))
}

fn x_coordinate(words: &[u64], p: u64, base: u64, n: u64) -> Result<Value, Fault>
    requires { fixed_words ≤ length words.now }
    ensures { Does words.now (coordinate centre_x p base n) result words.now }
{
    let f = only_figure(words, p, base, n)?;
    Ok(Value::Integer(given::centre_x(f)))
}

fn y_coordinate(words: &[u64], p: u64, base: u64, n: u64) -> Result<Value, Fault>
    requires { fixed_words ≤ length words.now }
    ensures { Does words.now (coordinate centre_y p base n) result words.now }
{
    let f = only_figure(words, p, base, n)?;
    Ok(Value::Integer(given::centre_y(f)))
}

fn destroy(words: &mut [u64], grants: &[u64; 5], p: u64, base: u64, n: u64) -> Result<Value, Fault>
    requires { Room grants.now words.old }
    ensures { Does words.old (destroyed grants.now p base n) result words.new }
{
    if n != 1 {
        return Err(Fault::Misuse(p));
    }
    if !arguments::is_kind(words, base, 0, kinds::SHAPE) {
        return Err(Fault::Misuse(p));
    }
    let i = arguments::shape_at(words, base, 0);
    destroying::destroy_all(words, grants, p, i)?;
    Ok(Value::Nothing)
}

fn clear(words: &mut [u64], grants: &[u64; 5], p: u64, n: u64) -> Result<Value, Fault>
    requires { Room grants.now words.old }
    ensures { Does words.old (clearing grants.now p n) result words.new }
{
    if n != 0 {
        return Err(Fault::Misuse(p));
    }
    destroying::scene::clear_scene(words, grants, p)?;
    Ok(Value::Nothing)
}

// A group of shapes, whose numbers stand above the kinds in the arguments' words.
fn group(words: &mut [u64], grants: &[u64; 5], p: u64, base: u64, n: u64) -> Result<Value, Fault>
    requires { Room grants.now words.old }
    ensures { Does words.old (grouped grants.now p base n) result words.new }
{
    arguments::all_shapes(words, p, base, n)?;
    let at = stores::arguments::place_above(base as usize, 0);
    groups::making::new_group(words, grants, p, 1, 8, at, n)
}

// A procedure by its number.
fn perform(
    words: &mut [u64],
    grants: &[u64; 5],
    number: u64,
    p: u64,
    base: u64,
    n: u64,
) -> Result<Value, Fault>
    requires { Room grants.now words.old }
    ensures { Does words.old (perform grants.now number p base n) result words.new }
{
    match number {
        procedures::DRAW_LINE => draw(words, grants, shapes::LINE, p, base, n),
        procedures::DRAW_ELLIPSE => draw(words, grants, shapes::ELLIPSE, p, base, n),
        procedures::DRAW_BOX => draw(words, grants, shapes::BOX, p, base, n),
        procedures::DRAW_TEXT => draw_text(words, grants, p, base, n),
        procedures::CONNECT_SHAPES => connect(words, grants, p, base, n),
        procedures::DRAW_TEXT_ON_SHAPE => label(words, grants, p, base, n),
        procedures::X_COORDINATE => x_coordinate(words, p, base, n),
        procedures::Y_COORDINATE => y_coordinate(words, p, base, n),
        procedures::DESTROY_SHAPE => destroy(words, grants, p, base, n),
        procedures::CLEAR_SCENE => clear(words, grants, p, n),
        _ => group(words, grants, p, base, n),
    }
}

// A call. A procedure that is not known is 20; else a destroyed shape among the arguments is 30.
pub fn call_library(
    words: &mut [u64],
    grants: &[u64; 5],
    number: u64,
    p: u64,
    base: u64,
    n: u64,
) -> Result<Value, Fault>
    requires { Room grants.now words.old }
    ensures { Does words.old (call_library grants.now number p base n) result words.new }
{
    if procedures::OTHER <= number {
        return Err(Fault::Misuse(p));
    }
    arguments::all_usable(words, p, base, n)?;
    perform(words, grants, number, p, base, n)
}
