// Frames of either edition at desk 2, and the converter.
use crate::calls::{self, id};
use crate::frames::{EMPTY, EXAMPLE, EXTENT, FILL, Slot, stamped};
use crate::show::{Amount, Answer, Bytes};
use desk::Desk;
use frame::{Past, Refusal};
use std::io;

// The frame of 1.1 with this past.
fn first(past: Past) -> Slot {
    stamped(id(1, 1), past, &[])
}

// The frame of 1.2 with this past.
fn second(past: Past) -> Slot {
    stamped(id(1, 2), past, &[id(1, 1)])
}

// The count of a ready mark is judged, and that of an executed one is the desk's reckoning.
fn executed(rt: &impl Print) -> io::Result<()> {
    let mut desk = calls::new(rt, 2)?;
    let [unsaid, none, one] = [Past::Unsaid, Past::Said(0), Past::Said(1)].map(first);
    calls::receive_from(rt, "1.1, past 1", &mut desk, &one)?;
    calls::receive_from(rt, "1.1, past 0", &mut desk, &none)?;
    calls::receive_from(rt, "1.1 in edition 1, 1.1 there", &mut desk, &unsaid)?;
    calls::receive_from(rt, "1.1, past 1, 1.1 there", &mut desk, &one)
}

// A mark that waits in edition 1 takes no count from a later frame.
fn waiting_uncounted(rt: &impl Print) -> io::Result<()> {
    let mut desk = calls::new(rt, 2)?;
    let [unsaid, one, seven] = [Past::Unsaid, Past::Said(1), Past::Said(7)].map(second);
    calls::receive_from(rt, "1.2 in edition 1", &mut desk, &unsaid)?;
    calls::receive_from(rt, "1.2, past 7, 1.2 waiting", &mut desk, &seven)?;
    calls::receive_from(rt, "then 1.1", &mut desk, &first(Past::Unsaid))?;
    calls::receive_from(rt, "1.2, past 7, 1.2 there", &mut desk, &seven)?;
    calls::receive_from(rt, "1.2, past 1, 1.2 there", &mut desk, &one)?;
    again(rt, &desk)
}

// A mark that waits in edition 2 has its count, and is dropped for it.
fn waiting_counted(rt: &impl Print) -> io::Result<()> {
    let mut desk = calls::new(rt, 2)?;
    let [unsaid, one, seven] = [Past::Unsaid, Past::Said(1), Past::Said(7)].map(second);
    calls::receive_from(rt, "1.2, past 7", &mut desk, &seven)?;
    calls::receive_from(rt, "1.2, past 1, 1.2 waiting", &mut desk, &one)?;
    calls::receive_from(rt, "1.2 in edition 1, 1.2 waiting", &mut desk, &unsaid)?;
    calls::receive_from(rt, "then 1.1", &mut desk, &first(Past::Said(0)))
}

// Frame again of 1.2, which came in edition 1.
fn again(rt: &impl Print, desk: &Desk) -> io::Result<()> {
    let mut out = [FILL; 30];
    calls::frame_again(rt, desk, id(1, 2), &mut out)?;
    println!(rt; "bytes: {}", Bytes(&out))
}

// A conversion into the first of 36 bytes, and what it did to all of them.
fn converted<F: FnOnce(&mut [u8]) -> Result<usize, Refusal>>(
    rt: &impl Print,
    label: &str,
    lent: usize,
    convert: F,
) -> io::Result<()>
    requires { F.IsAlwaysCallable convert }
{
    let mut out = [FILL; 36];
    let answer = convert(&mut out[..lent.min(36)]);
    let answer = Answer(answer.map(|n| Amount("size", n)));
    println!(rt; "{label}, bytes lent {lent}: {answer}")?;
    println!(rt; "bytes: {}", Bytes(&out))
}

// From 1 to 2 at a desk.
fn to_second(
    rt: &impl Print,
    label: &str,
    desk: &Desk,
    frame: &[u8],
    lent: usize,
) -> io::Result<()> {
    converted(rt, label, lent, |out| desk.to_second_in_place(frame, out))
}

// From 2 to 1.
fn to_first(rt: &impl Print, label: &str, frame: &[u8], lent: usize) -> io::Result<()> {
    converted(rt, label, lent, |out| again::convert::to_first(frame, out))
}

// Desk 1 with its 1.1, with 2.1 in edition 1 and 3.1 in edition 2, and with its 1.2.
fn maker(rt: &impl Print) -> io::Result<Desk> {
    let mut out = EMPTY;
    let mut desk = calls::new(rt, 1)?;
    let second = stamped(id(2, 1), Past::Unsaid, &[]);
    let third = stamped(id(3, 1), Past::Said(0), &[]);
    calls::mark(rt, "1.1", &mut desk, EXTENT, &mut out)?;
    calls::receive_from(rt, "2.1 in edition 1", &mut desk, &second)?;
    calls::receive_from(rt, "3.1, past 0", &mut desk, &third)?;
    calls::mark(rt, "1.2", &mut desk, EXTENT, &mut out)?;
    Ok(desk)
}

// From 1 to 2 at desk 1, which has 1.2, and at desk 4, fresh and with 1.2 waiting: 14 comes before 12, and 12 before 13.
fn at_desks(rt: &impl Print, one: &Desk, edition1: &[u8], edition2: &[u8]) -> io::Result<()> {
    let mut four = calls::new(rt, 4)?;
    to_second(rt, "1.2 from 1 to 2", one, edition1, 34)?;
    to_second(rt, "1.2 from 1 to 2", one, edition1, 33)?;
    to_second(rt, "1.2 from 1 to 2 at desk 4", &four, edition1, 0)?;
    to_second(rt, "edition 2 from 1 to 2", one, edition2, 36)?;
    to_second(rt, "edition 2 from 1 to 2 at desk 4", &four, edition2, 0)?;
    calls::receive(rt, "1.2 in edition 1 at desk 4", &mut four, edition1)?;
    to_second(
        rt,
        "1.2 from 1 to 2 at desk 4, waiting",
        &four,
        edition1,
        36,
    )
}

// The frames of 1.2 with start 1001 and with past count 512: 8 comes before 13.
fn altered(rt: &impl Print, one: &Desk) -> io::Result<()> {
    let start =
        b"\x00\x1E\x01\x01\x00\x02\x00\x00\x03\xE9\x00\x00\x05\xDC\x00\x00\x00\x64\x00\x00\x01\x90\x03\x01\x00\x01\x02\x00\x01\x03\x00\x01";
    let past =
        b"\x00\x20\x02\x01\x00\x02\x00\x00\x03\xE8\x00\x00\x05\xDC\x00\x00\x00\x64\x00\x00\x01\x90\x03\x02\x00\x01\x00\x01\x02\x00\x01\x03\x00\x01";
    to_second(rt, "start 1001 from 1 to 2", one, start, 0)?;
    to_second(rt, "past 512 from 1 to 2", one, past, 36)
}

// From 2 to 1.
fn without_desk(rt: &impl Print, edition1: &[u8], edition2: &[u8]) -> io::Result<()> {
    to_first(rt, "1.2 from 2 to 1", edition2, 36)?;
    to_first(rt, "1.2 from 2 to 1", edition2, 31)?;
    to_first(rt, "edition 1 from 2 to 1", edition1, 36)
}

// The frames of 1.2, in 32 bytes and in 34.
fn conversions(rt: &impl Print) -> io::Result<()> {
    let edition2 =
        b"\x00\x20\x02\x01\x00\x02\x00\x00\x03\xE8\x00\x00\x05\xDC\x00\x00\x00\x64\x00\x00\x01\x90\x03\x00\x03\x01\x00\x01\x02\x00\x01\x03\x00\x01";
    let one = maker(rt)?;
    at_desks(rt, &one, EXAMPLE, edition2)?;
    altered(rt, &one)?;
    without_desk(rt, EXAMPLE, edition2)
}

pub fn run(rt: &impl Print) -> io::Result<()> {
    executed(rt)?;
    waiting_uncounted(rt)?;
    waiting_counted(rt)?;
    conversions(rt)
}
