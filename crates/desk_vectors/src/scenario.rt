// The scenario of four desks through the calls. A mark's frame stands in the slot of its name: 1.2 in slot 12.
use crate::calls::{self, id};
use crate::counts;
use crate::frames::{self, EMPTY, FILL, Slot};
use crate::show::Bytes;
use desk::Desk;
use frame::DESKS;
use std::io;

type Slots = [Slot; 42];

// Desk 3 makes 3.1 and 3.2.
fn third(rt: &impl Print, frames: &mut Slots) -> io::Result<Desk> {
    let mut desk = calls::new(rt, 3)?;
    calls::mark_in(rt, &mut desk, id(3, 1), &mut frames[31])?;
    calls::mark_in(rt, &mut desk, id(3, 2), &mut frames[32])?;
    Ok(desk)
}

// Desk 2 makes 2.1.
fn second(rt: &impl Print, frames: &mut Slots) -> io::Result<Desk> {
    let mut desk = calls::new(rt, 2)?;
    calls::mark_in(rt, &mut desk, id(2, 1), &mut frames[21])?;
    Ok(desk)
}

// Desk 1 makes 1.1 and receives 2.1 and 3.1.
fn first(rt: &impl Print, frames: &mut Slots) -> io::Result<Desk> {
    let mut desk = calls::new(rt, 1)?;
    calls::mark_in(rt, &mut desk, id(1, 1), &mut frames[11])?;
    calls::hand_over(rt, 1, &mut desk, &frames[21])?;
    calls::hand_over(rt, 1, &mut desk, &frames[31])?;
    Ok(desk)
}

// Desk 1 makes 1.2.
fn first_again(rt: &impl Print, desk: &mut Desk, frames: &mut Slots) -> io::Result<()> {
    calls::mark_in(rt, desk, id(1, 2), &mut frames[12])?;
    println!(rt; "frame of 1.2: {}", Bytes(frames::whole(&frames[12])))
}

// Desk 2 receives 3.1, then 1.2 before 1.1, and makes 2.2.
fn second_again(rt: &impl Print, desk: &mut Desk, frames: &mut Slots) -> io::Result<()> {
    calls::hand_over(rt, 2, desk, &frames[31])?;
    calls::hand_over(rt, 2, desk, &frames[12])?;
    calls::hand_over(rt, 2, desk, &frames[12])?;
    calls::hand_over(rt, 2, desk, &frames[11])?;
    calls::hand_over(rt, 2, desk, &frames[12])?;
    calls::relate(rt, desk, id(1, 1), id(1, 2))?;
    calls::mark_in(rt, desk, id(2, 2), &mut frames[22])
}

// A fresh desk 4 gets the later marks first: each waits, short of so many.
fn late(rt: &impl Print, frames: &Slots) -> io::Result<()> {
    let mut desk = calls::new(rt, 4)?;
    calls::hand_over(rt, 4, &mut desk, &frames[12])?;
    calls::hand_over(rt, 4, &mut desk, &frames[22])?;
    calls::hand_over(rt, 4, &mut desk, &frames[11])?;
    calls::hand_over(rt, 4, &mut desk, &frames[12])?;
    calls::hand_over(rt, 4, &mut desk, &frames[21])?;
    calls::hand_over(rt, 4, &mut desk, &frames[31])
}

// Desk 4 makes 4.1 after 1.1, 3.1, 3.2.
fn fourth(rt: &impl Print, frames: &mut Slots) -> io::Result<()> {
    let mut desk = calls::new(rt, 4)?;
    calls::hand_over(rt, 4, &mut desk, &frames[11])?;
    calls::hand_over(rt, 4, &mut desk, &frames[31])?;
    calls::hand_over(rt, 4, &mut desk, &frames[32])?;
    calls::mark_in(rt, &mut desk, id(4, 1), &mut frames[41])?;
    println!(rt; "frame of 4.1: {}", Bytes(frames::whole(&frames[41])))
}

// Desk 3 receives the others' marks.
fn third_again(rt: &impl Print, desk: &mut Desk, frames: &Slots) -> io::Result<()> {
    calls::hand_over(rt, 3, desk, &frames[11])?;
    calls::hand_over(rt, 3, desk, &frames[21])?;
    calls::hand_over(rt, 3, desk, &frames[12])?;
    calls::hand_over(rt, 3, desk, &frames[22])?;
    calls::hand_over(rt, 3, desk, &frames[41])
}

fn relations(rt: &impl Print, desk: &Desk) -> io::Result<()> {
    calls::relate(rt, desk, id(3, 1), id(4, 1))?;
    calls::relate(rt, desk, id(1, 2), id(3, 2))?;
    calls::relate(rt, desk, id(2, 2), id(1, 1))?;
    calls::relate(rt, desk, id(4, 1), id(4, 1))?;
    calls::relate(rt, desk, id(2, 1), id(4, 1))?;
    calls::relate(rt, desk, id(4, 1), id(4, 2))?;
    calls::relate(rt, desk, id(5, 1), id(4, 1))
}

// Room for the marks apart, for one less, and a mark that is not executed.
fn apart(rt: &impl Print, desk: &Desk) -> io::Result<()> {
    calls::apart(rt, desk, id(4, 1), 3)?;
    calls::apart(rt, desk, id(4, 1), 2)?;
    calls::apart(rt, desk, id(4, 2), 3)
}

// 1 comes before 12.
fn first_apart(rt: &impl Print, desk: &Desk) -> io::Result<()> {
    calls::first_apart(rt, desk, id(4, 1), 1)?;
    calls::first_apart(rt, desk, id(4, 1), 2)?;
    calls::first_apart(rt, desk, id(4, 1), 3)?;
    calls::first_apart(rt, desk, id(4, 1), 4)?;
    calls::first_apart(rt, desk, id(4, 1), DESKS + 1)?;
    calls::first_apart(rt, desk, id(4, 2), 1)?;
    calls::first_apart(rt, desk, id(4, 2), DESKS + 1)
}

// Each verdict, one place too few, and a mark that is not executed, where 12 comes before 13.
fn evidence(rt: &impl Print, desk: &Desk) -> io::Result<()> {
    calls::evidence(rt, desk, id(3, 1), id(2, 2), 3)?;
    calls::evidence(rt, desk, id(2, 2), id(1, 1), 3)?;
    calls::evidence(rt, desk, id(2, 2), id(1, 1), 2)?;
    calls::evidence(rt, desk, id(1, 2), id(3, 2), 0)?;
    calls::evidence(rt, desk, id(4, 1), id(4, 1), 1)?;
    calls::evidence(rt, desk, id(4, 1), id(4, 1), 0)?;
    calls::evidence(rt, desk, id(9, 1), id(4, 1), 3)?;
    calls::evidence(rt, desk, id(4, 1), id(9, 1), 3)?;
    calls::evidence(rt, desk, id(9, 1), id(4, 1), 0)?;
    calls::evidence(rt, desk, id(4, 1), id(9, 1), 0)
}

// Frame again of 4.1 into slot 40 and the one behind it: the frame that Mark wrote, so it is known.
fn again(rt: &impl Print, desk: &mut Desk, frames: &mut Slots) -> io::Result<()> {
    calls::frame_again(rt, desk, id(4, 1), frames[40..].as_flattened_mut())?;
    println!(rt; "frame of 4.1: {}", Bytes(frames::whole(&frames[40])))?;
    calls::hand_over(rt, 3, desk, &frames[40])
}

// Frame again of 4.n into the first of 33 bytes.
fn lend(rt: &impl Print, desk: &Desk, n: u16, lent: usize) -> io::Result<()> {
    let mut out = [FILL; 33];
    calls::frame_again(rt, desk, id(4, n), &mut out[..lent.min(33)])?;
    println!(rt; "bytes: {}", Bytes(&out))
}

fn lent(rt: &impl Print, desk: &Desk) -> io::Result<()> {
    lend(rt, desk, 1, 30)?;
    lend(rt, desk, 1, 31)?;
    lend(rt, desk, 2, 31)
}

pub fn run(rt: &impl Print) -> io::Result<()> {
    let mut frames = [EMPTY; 42];
    let mut three = third(rt, &mut frames)?;
    let mut two = second(rt, &mut frames)?;
    let mut one = first(rt, &mut frames)?;
    first_again(rt, &mut one, &mut frames)?;
    second_again(rt, &mut two, &mut frames)?;
    late(rt, &frames)?;
    fourth(rt, &mut frames)?;
    third_again(rt, &mut three, &frames)?;
    relations(rt, &three)?;
    apart(rt, &three)?;
    first_apart(rt, &three)?;
    evidence(rt, &three)?;
    counts::run(rt, &three)?;
    again(rt, &mut three, &mut frames)?;
    lent(rt, &three)
}
