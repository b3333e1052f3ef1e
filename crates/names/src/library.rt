// The library procedures and main, by their names. Of a `match` on byte strings a proof is told their lengths alone.
ghost use Rattle.std.specs.Prelude.{◌≡◌};
ghost use Rattle.names.specs.Prepared.{library_number, procedure_number};

use machine::procedures;
use tokens::same_text;

// The number of a procedure: that of main, else that in the library.
#[tactic(auto, unfolding(crate::specs::Prepared::procedure_number))]
pub fn procedure_number(w: &[u8]) -> u64
    ensures { result ≡ procedure_number w.now }
{
    if same_text(w, b"main") {
        procedures::MAIN
    } else {
        library_number(w)
    }
}

// The number of a library procedure, OTHER for every other name.
fn library_number(w: &[u8]) -> u64
    ensures { result ≡ library_number w.now }
{
    if same_text(w, b"drawLine") {
        procedures::DRAW_LINE
    } else if same_text(w, b"drawEllipse") {
        procedures::DRAW_ELLIPSE
    } else if same_text(w, b"drawBox") {
        procedures::DRAW_BOX
    } else if same_text(w, b"drawText") {
        procedures::DRAW_TEXT
    } else if same_text(w, b"drawLineConnectingShapes") {
        procedures::CONNECT_SHAPES
    } else if same_text(w, b"drawTextOnShape") {
        procedures::DRAW_TEXT_ON_SHAPE
    } else if same_text(w, b"getShapeXCoordinate") {
        procedures::X_COORDINATE
    } else if same_text(w, b"getShapeYCoordinate") {
        procedures::Y_COORDINATE
    } else if same_text(w, b"destroyShape") {
        procedures::DESTROY_SHAPE
    } else if same_text(w, b"clearScene") {
        procedures::CLEAR_SCENE
    } else if same_text(w, b"drawGroup") {
        procedures::DRAW_GROUP
    } else {
        procedures::OTHER
    }
}
