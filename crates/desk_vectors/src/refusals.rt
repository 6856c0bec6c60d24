// False stamps, refusals of New, Mark and Receive, and the bytes lent to Mark.
use crate::calls::{self, id};
use crate::frames::{self, EMPTY, EXAMPLE, EXTENT, FILL, Slot};
use crate::show::{self, Answer, Bytes, Receipt};
use frame::{DESKS, Past};
use std::io;

pub fn new(rt: &impl Print) -> io::Result<()> {
    calls::new(rt, 0)?;
    calls::new(rt, DESKS)?;
    let mut out = EMPTY;
    let mut desk = calls::new(rt, DESKS + 1)?;
    calls::mark(
        rt,
        "desk of the refused New marks",
        &mut desk,
        EXTENT,
        &mut out,
    )?;
    println!(rt; "its mark: {}", show::name(&out))
}

// Mark of a fresh desk into so many bytes.
fn lend(rt: &impl Print, label: &str, lent: usize) -> io::Result<()> {
    let mut out = [FILL; 27];
    let mut desk = calls::new(rt, 1)?;
    calls::mark(rt, label, &mut desk, EXTENT, &mut out[..lent.min(27)])?;
    println!(rt; "bytes: {}", Bytes(&out))?;
    calls::relate(rt, &desk, id(1, 1), id(1, 1))
}

pub fn lent(rt: &impl Print) -> io::Result<()> {
    lend(rt, "Mark into 24 bytes", 24)?;
    lend(rt, "Mark into 25 bytes", 25)
}

// The frames of 1.1 and 1.2 as desk 1 makes them, and that of 1.2 with an empty stamp.
#[derive(Clone, Copy)]
struct Stamps {
    first: Slot,
    second: Slot,
    empty: Slot,
}

fn make_stamps(rt: &impl Print) -> io::Result<Stamps> {
    let mut stamps = Stamps {
        first: EMPTY,
        second: EMPTY,
        empty: frames::stamped(id(1, 2), Past::Unsaid, &[]),
    };
    let mut desk = calls::new(rt, 1)?;
    calls::mark_in(rt, &mut desk, id(1, 1), &mut stamps.first)?;
    calls::mark_in(rt, &mut desk, id(1, 2), &mut stamps.second)?;
    Ok(stamps)
}

// The false stamp waits and is dropped, or is refused; then it is another frame of a known mark.
fn executed(rt: &impl Print, stamps: &Stamps) -> io::Result<()> {
    let mut desk = calls::new(rt, 2)?;
    calls::receive_from(rt, "1.2 with empty stamp", &mut desk, &stamps.empty)?;
    calls::receive_from(rt, "then 1.1", &mut desk, &stamps.first)?;
    calls::relate(rt, &desk, id(1, 1), id(1, 2))?;
    calls::receive_from(
        rt,
        "1.2 with empty stamp, 1.1 there",
        &mut desk,
        &stamps.empty,
    )?;
    calls::receive_from(rt, "1.2 with its own stamp", &mut desk, &stamps.second)?;
    calls::receive_from(
        rt,
        "1.2 with empty stamp, 1.2 there",
        &mut desk,
        &stamps.empty,
    )
}

// The same of a waiting mark.
fn waiting(rt: &impl Print, stamps: &Stamps) -> io::Result<()> {
    let mut desk = calls::new(rt, 2)?;
    calls::receive_from(
        rt,
        "1.2 with its own stamp, desk 2 fresh",
        &mut desk,
        &stamps.second,
    )?;
    calls::receive_from(
        rt,
        "1.2 with empty stamp, 1.2 waiting",
        &mut desk,
        &stamps.empty,
    )?;
    calls::receive_from(
        rt,
        "1.2 with its own stamp, 1.2 waiting",
        &mut desk,
        &stamps.second,
    )
}

pub fn false_stamps(rt: &impl Print) -> io::Result<()> {
    let stamps = make_stamps(rt)?;
    executed(rt, &stamps)?;
    waiting(rt, &stamps)
}

// A fresh desk receives a frame by value; the desk that it gives goes.
fn received(rt: &impl Print, label: &str, own: u8, frame: &[u8]) -> io::Result<()> {
    let (_, answer) = calls::new(rt, own)?.receive(frame);
    println!(rt; "{label}: {}", Answer(answer.map(Receipt)))
}

// The example's frame with another byte, received by a fresh desk.
fn altered(rt: &impl Print, label: &str, own: u8, at: usize, value: u8) -> io::Result<()> {
    let mut frame = *EXAMPLE;
    if let Some(byte) = frame.get_mut(at) {
        *byte = value;
    }
    received(rt, label, own, &frame)
}

pub fn receive(rt: &impl Print) -> io::Result<()> {
    received(rt, "22 bytes", 2, &EXAMPLE[..22])?;
    received(rt, "hex frame of 1.2", 2, EXAMPLE)?;
    altered(rt, "version 3", 2, 2, 3)?;
    altered(rt, "version 2, 32 bytes", 2, 2, 2)?;
    altered(rt, "17 entries counted", 2, 22, DESKS + 1)?;
    altered(rt, "desk 17", 2, 3, DESKS + 1)?;
    altered(rt, "entry (4,1) before (3,1)", 2, 26, 4)?;
    received(rt, "1.2 at desk 1", 1, EXAMPLE)?;
    received(rt, "1.2 at desk 3, entry (3,1) not made", 3, EXAMPLE)
}
