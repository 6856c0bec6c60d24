// The bounds: marks that wait, and a full desk.
use crate::calls::{self, id};
use crate::frames::{self, EMPTY, EXTENT, Slot};
use desk::Desk;
use frame::{MarkBox, NUMBERS};
use rows::PLACES;
use std::io;
use waiting::WAITING;

/// So many marks are made at a desk, each handed over to another.
pub fn steps(maker: &mut Desk, taker: &mut Desk, times: usize) {
    for _step in 0..times {
        let mut slot = EMPTY;
        let _ = maker.mark_in_place(EXTENT, &mut slot);
        let _ = taker.receive_in_place(frames::whole(&slot));
    }
}

// Desk 1 makes 1.1, which is kept back, and 1.2 to 1.66; those are handed over to desk 2, then 1.1.
pub fn waiting(rt: &impl Print) -> io::Result<()> {
    let [mut first, mut last, mut beyond] = [EMPTY; 3];
    let mut maker = calls::new(rt, 1)?;
    let mut taker = calls::new(rt, 2)?;
    calls::mark_in(rt, &mut maker, id(1, 1), &mut first)?;
    steps(&mut maker, &mut taker, WAITING - 1);
    calls::mark_in(rt, &mut maker, id(1, 65), &mut last)?;
    calls::receive_from(rt, "the 64th waiting mark", &mut taker, &last)?;
    calls::mark_in(rt, &mut maker, id(1, 66), &mut beyond)?;
    calls::receive_from(rt, "the 65th waiting mark", &mut taker, &beyond)?;
    calls::receive_from(rt, "a known waiting mark", &mut taker, &last)?;
    calls::receive_from(rt, "1.1 releases them", &mut taker, &first)?;
    calls::receive_from(rt, "1.66 after them", &mut taker, &beyond)
}

// A desk with so many marks of its own; Mark by value.
fn filled(rt: &impl Print, own: u8, times: usize) -> io::Result<Desk> {
    let mut desk = calls::new(rt, own)?;
    for _mark in 0..times {
        desk = desk.mark(EXTENT, &mut EMPTY).0;
    }
    Ok(desk)
}

// Desk 2 makes 2.1 and 2.2.
fn others(rt: &impl Print) -> io::Result<[Slot; 2]> {
    let [mut first, mut second] = [EMPTY; 2];
    let mut desk = calls::new(rt, 2)?;
    calls::mark_in(rt, &mut desk, id(2, 1), &mut first)?;
    calls::mark_in(rt, &mut desk, id(2, 2), &mut second)?;
    Ok([first, second])
}

// A desk makes its 512th mark.
fn executed(rt: &impl Print, desk: &mut Desk, other: &Slot) -> io::Result<()> {
    let mut last = EMPTY;
    calls::mark_in(rt, desk, id(1, NUMBERS), &mut last)?;
    calls::receive_from(rt, "full desk receives 2.1", desk, other)?;
    calls::receive_from(rt, "full desk receives 1.512", desk, &last)
}

// A desk with 512 executed marks.
fn refused(rt: &impl Print, desk: &mut Desk) -> io::Result<()> {
    calls::mark(rt, "full desk marks", desk, EXTENT, &mut EMPTY)?;
    calls::relate(rt, desk, id(1, 1), id(1, NUMBERS))
}

// 5 comes before 9, and 9 before 13.
fn refused_by_rising_number(rt: &impl Print, desk: &mut Desk) -> io::Result<()> {
    let extent = MarkBox {
        start: 1001,
        end: 1000,
        ..EXTENT
    };
    calls::mark(
        rt,
        "full desk marks 1001 to 1000 ms",
        desk,
        extent,
        &mut EMPTY,
    )?;
    calls::mark(rt, "full desk marks into 0 bytes", desk, EXTENT, &mut [])
}

// A desk with 511 executed marks and one waiting, a copy: the caller's has none waiting.
fn with_waiting(rt: &impl Print, mut desk: Desk, others: &[Slot; 2]) -> io::Result<()> {
    let [first, second] = others;
    calls::receive_from(rt, "511 executed, 2.2", &mut desk, second)?;
    calls::mark(
        rt,
        "511 executed, 1 waiting, marks",
        &mut desk,
        EXTENT,
        &mut EMPTY,
    )?;
    calls::receive_from(rt, "511 executed, 1 waiting, 2.1", &mut desk, first)?;
    calls::receive_from(rt, "511 executed, 1 waiting, 2.2", &mut desk, second)
}

pub fn full(rt: &impl Print) -> io::Result<()> {
    let others = others(rt)?;
    let mut desk = filled(rt, 1, PLACES - 1)?;
    with_waiting(rt, desk, &others)?;
    executed(rt, &mut desk, &others[0])?;
    refused(rt, &mut desk)?;
    refused_by_rising_number(rt, &mut desk)
}
