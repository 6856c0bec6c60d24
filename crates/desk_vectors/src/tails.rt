// First apart of 2.1 at desk 1, where some, all or none of that desk's marks precede it.
use crate::calls::{self, id};
use crate::frames::{EMPTY, EXTENT, stamped};
use crate::limits;
use frame::{MarkId, Past};
use std::io;

// Desk 3 executes so many marks of desk 1, then 2.1 with these entries.
fn tail(rt: &impl Print, label: &str, marks: usize, entries: &[MarkId]) -> io::Result<()> {
    let mut maker = calls::new(rt, 1)?;
    let mut desk = calls::new(rt, 3)?;
    limits::steps(&mut maker, &mut desk, marks);
    calls::receive_from(
        rt,
        label,
        &mut desk,
        &stamped(id(2, 1), Past::Unsaid, entries),
    )?;
    calls::first_apart(rt, &desk, id(2, 1), 1)
}

// Desk 2 executes 1.1 to 1.300, makes 2.1, and executes 1.301 to 1.511, which are not asked.
fn later(rt: &impl Print) -> io::Result<()> {
    let mut one = calls::new(rt, 1)?;
    let mut two = calls::new(rt, 2)?;
    limits::steps(&mut one, &mut two, 300);
    calls::mark(
        rt,
        "desk 2 with 1.1 to 1.300 marks",
        &mut two,
        EXTENT,
        &mut EMPTY,
    )?;
    limits::steps(&mut one, &mut two, 211);
    calls::first_apart(rt, &two, id(2, 1), 1)
}

pub fn run(rt: &impl Print) -> io::Result<()> {
    tail(rt, "1.1 to 1.511, 2.1 with (1,300)", 511, &[id(1, 300)])?;
    tail(rt, "1.1 to 1.511, 2.1 with (1,511)", 511, &[id(1, 511)])?;
    tail(rt, "1.1 to 1.511, 2.1 with empty stamp", 511, &[])?;
    tail(rt, "1.1, 2.1 with (1,1)", 1, &[id(1, 1)])?;
    tail(rt, "1.1, 2.1 with empty stamp", 1, &[])?;
    tail(rt, "no mark of desk 1, 2.1 with empty stamp", 0, &[])?;
    later(rt)
}
