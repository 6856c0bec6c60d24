// Of two chains Evidence shows the one whose entry is of the lowest desk.
use crate::calls::{self, id};
use crate::frames::stamped;
use frame::Past;
use std::io;

// 1.1 follows 5.1 by 3.1 and by 4.1; its entry of desk 2 does not follow 5.1.
pub fn run(rt: &impl Print) -> io::Result<()> {
    let mut desk = calls::new(rt, 6)?;
    let bare = stamped(id(5, 1), Past::Unsaid, &[]);
    calls::receive_from(rt, "5.1 with empty stamp", &mut desk, &bare)?;
    let fourth = stamped(id(4, 1), Past::Unsaid, &[id(5, 1)]);
    calls::receive_from(rt, "4.1 with (5,1)", &mut desk, &fourth)?;
    let third = stamped(id(3, 1), Past::Unsaid, &[id(5, 1)]);
    calls::receive_from(rt, "3.1 with (5,1)", &mut desk, &third)?;
    let second = stamped(id(2, 1), Past::Unsaid, &[]);
    calls::receive_from(rt, "2.1 with empty stamp", &mut desk, &second)?;
    let first = stamped(id(1, 1), Past::Unsaid, &[id(2, 1), id(3, 1), id(4, 1)]);
    calls::receive_from(rt, "1.1 with (2,1) (3,1) (4,1)", &mut desk, &first)?;
    calls::evidence(rt, &desk, id(5, 1), id(1, 1), 3)
}
