// A silent desk leaves the stamps.
use crate::calls::{self, id};
use crate::frames::{EMPTY, EXTENT, stamped};
use frame::Past;
use std::io;

// Desk 1 has 3.1, and 2.1, which follows it, and marks; then 3.2 comes, it marks, and marks again.
pub fn run(rt: &impl Print) -> io::Result<()> {
    let mut out = EMPTY;
    let mut desk = calls::new(rt, 1)?;
    let third = stamped(id(3, 1), Past::Unsaid, &[]);
    calls::receive_from(rt, "3.1 with empty stamp", &mut desk, &third)?;
    let second = stamped(id(2, 1), Past::Unsaid, &[id(3, 1)]);
    calls::receive_from(rt, "2.1 with (3,1)", &mut desk, &second)?;
    calls::mark(
        rt,
        "desk 1 with 3.1 and 2.1 marks",
        &mut desk,
        EXTENT,
        &mut out,
    )?;
    let third = stamped(id(3, 2), Past::Unsaid, &[id(3, 1)]);
    calls::receive_from(rt, "3.2 with (3,1)", &mut desk, &third)?;
    calls::mark(rt, "desk 1 with 3.2 marks", &mut desk, EXTENT, &mut out)?;
    calls::mark(rt, "desk 1 marks again", &mut desk, EXTENT, &mut out)
}
