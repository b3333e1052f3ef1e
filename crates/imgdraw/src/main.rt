// Draws the program on standard input, on a sheet whose width and height stand in a line before it.
#![tactic(auto)]

mod draw;
mod size;

use crate::size::{INPUT, OUT};

fn main(rt: HostRuntime) {
    let mut bytes = [0u8; INPUT];
    let n = console::read_full(&rt, &mut bytes);
    let mut out = [0u8; OUT];
    let size = draw::draw_read(&bytes, n, &mut out);
    console::print(&rt, &out[..size]);
    if n == INPUT {
        console::skip_rest(&rt);
    }
}
