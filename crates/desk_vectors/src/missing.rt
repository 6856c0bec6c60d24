// How many marks a waiting mark is short of: fresh desks, and frames that no desk need have written.
use crate::calls::{self, id};
use crate::frames::stamped;
use frame::{MarkId, Past};
use std::io;

// A fresh desk receives a mark with these entries.
fn fresh(
    rt: &impl Print,
    label: &str,
    own: u8,
    mark: MarkId,
    entries: &[MarkId],
) -> io::Result<()> {
    let mut desk = calls::new(rt, own)?;
    calls::receive_from(rt, label, &mut desk, &stamped(mark, Past::Unsaid, entries))
}

// The previous mark is missing where it is no entry, and is counted once where it is one.
fn previous(rt: &impl Print) -> io::Result<()> {
    fresh(rt, "2.2 with (1,2)", 4, id(2, 2), &[id(1, 2)])?;
    fresh(rt, "1.5 with (1,2)", 2, id(1, 5), &[id(1, 2)])?;
    fresh(rt, "1.5 with (1,4)", 2, id(1, 5), &[id(1, 4)])?;
    fresh(rt, "1.5 with empty stamp", 2, id(1, 5), &[])
}

// An entry (d,1) for each desk d of 1 to 16 but 5, and 1.8.
fn most(rt: &impl Print) -> io::Result<()> {
    let entries = [1, 2, 3, 4, 6, 7, 8, 9, 10, 11, 12, 13, 14, 15, 16].map(|desk| id(desk, 1));
    fresh(
        rt,
        "1.9 with (d,1) for each desk but 5",
        5,
        id(1, 9),
        &entries,
    )
}

pub fn run(rt: &impl Print) -> io::Result<()> {
    previous(rt)?;
    most(rt)
}
