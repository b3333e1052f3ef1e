// A shape and an integer: new shapes of figures moved and scaled.
ghost use Rattle.machine.specs.declared.Value.TheVariants.{Integer, Shape};
ghost use Rattle.machine.specs.Layout.{Room};
ghost use Rattle.operators.specs.Parts.{Draws};

use figures::changes;
use machine::{Fault, Value};

// An operator, by its tag, on a shape and an integer.
pub fn on_shape(
    words: &mut [u64],
    grants: &[u64; 5],
    tag: u64,
    p: u64,
    i: u32,
    n: i32,
) -> Result<Value, Fault>
    requires { Room grants.now words.old }
    ensures { Draws grants.now words.old tag p (Shape i) (Integer n) result words.new }
{
    changes::allowed(tag, n, p)?;
    if stores::shapes::is_group(words, i) {
        return remaking::remake_group(words, grants, tag, n, p, i);
    }
    let f = changes::changed(tag, stores::shapes::figure_at(words, i), n);
    stores::shapes::new_shape(words, grants, p, f)
}
