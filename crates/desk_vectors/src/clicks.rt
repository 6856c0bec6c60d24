// A click is boxed as one instant. Each box goes to Mark, and in a frame of 1.1 to Receive.
use crate::calls;
use crate::frames::{EMPTY, EXTENT, Slot};
use desk::Desk;
use frame::MarkBox;
use std::io;

// Fresh desk 1 marks a box; fresh desk 2 receives the frame of 1.1 with that box.
fn boxed(
    rt: &impl Print,
    label: &str,
    extent: MarkBox,
    frame: &[u8],
    slot: &mut Slot,
) -> io::Result<Desk> {
    let mut one = calls::new(rt, 1)?;
    calls::mark(rt, label, &mut one, extent, slot)?;
    let mut two = calls::new(rt, 2)?;
    calls::receive(rt, label, &mut two, frame)?;
    Ok(two)
}

// That frame is edition 1 of the one that Mark wrote.
fn accepted(rt: &impl Print, label: &str, extent: MarkBox, frame: &[u8]) -> io::Result<()> {
    let mut slot = EMPTY;
    let mut desk = boxed(rt, label, extent, frame, &mut slot)?;
    calls::receive_from(rt, "the frame that Mark wrote", &mut desk, &slot)
}

fn refused(rt: &impl Print, label: &str, extent: MarkBox, frame: &[u8]) -> io::Result<()> {
    boxed(rt, label, extent, frame, &mut EMPTY)?;
    Ok(())
}

pub fn run(rt: &impl Print) -> io::Result<()> {
    let click = MarkBox {
        end: 1000,
        ..EXTENT
    };
    accepted(
        rt,
        "1000 to 1000 ms",
        click,
        b"\x00\x15\x01\x01\x00\x01\x00\x00\x03\xE8\x00\x00\x03\xE8\x00\x00\x00\x64\x00\x00\x01\x90\x00",
    )?;
    refused(
        rt,
        "1001 to 1000 ms",
        MarkBox {
            start: 1001,
            ..click
        },
        b"\x00\x15\x01\x01\x00\x01\x00\x00\x03\xE9\x00\x00\x03\xE8\x00\x00\x00\x64\x00\x00\x01\x90\x00",
    )?;
    refused(
        rt,
        "1000 to 1000 ms, 400 to 400 Hz",
        MarkBox { low: 400, ..click },
        b"\x00\x15\x01\x01\x00\x01\x00\x00\x03\xE8\x00\x00\x03\xE8\x00\x00\x01\x90\x00\x00\x01\x90\x00",
    )?;
    accepted(
        rt,
        "start = end = 2^32 - 1",
        MarkBox {
            start: u32::MAX,
            end: u32::MAX,
            ..EXTENT
        },
        b"\x00\x15\x01\x01\x00\x01\xFF\xFF\xFF\xFF\xFF\xFF\xFF\xFF\x00\x00\x00\x64\x00\x00\x01\x90\x00",
    )
}
