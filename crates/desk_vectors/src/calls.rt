// The calls, each with its line: in place, at a desk that the caller lends.
use crate::frames::{self, Slot};
use crate::show::{self, Amount, Answer, Marked, Marks, Receipt, Verdict};
use desk::Desk;
use frame::{MarkBox, MarkId, Number};
use pairs::Listed;
use std::io;

/// Mark d.n: the cases name marks by two numbers.
pub fn id(desk: u8, number: u16) -> MarkId {
    MarkId {
        desk,
        number: Number(number),
    }
}

/// New.
pub fn new(rt: &impl Print, own: u8) -> io::Result<Desk> {
    let (desk, answer) = Desk::new(own);
    let answer = Answer(answer.map(|()| "empty desk"));
    println!(rt; "New {own}: {answer}")?;
    Ok(desk)
}

/// Mark into lent bytes.
pub fn mark(
    rt: &impl Print,
    label: &str,
    desk: &mut Desk,
    extent: MarkBox,
    out: &mut [u8],
) -> io::Result<()> {
    let answer = desk.mark_in_place(extent, out);
    let answer = Answer(answer.map(|made| Marked { made, out }));
    println!(rt; "{label}: {answer}")
}

/// Mark into a slot, where the line names the mark.
pub fn mark_in(rt: &impl Print, desk: &mut Desk, mark: MarkId, slot: &mut Slot) -> io::Result<()> {
    let answer = desk.mark_in_place(frames::EXTENT, slot);
    let answer = Answer(answer.map(|made| Marked { made, out: slot }));
    println!(rt; "{mark}: {answer}")
}

/// Receive.
pub fn receive(rt: &impl Print, label: &str, desk: &mut Desk, frame: &[u8]) -> io::Result<()> {
    let answer = Answer(desk.receive_in_place(frame).map(Receipt));
    println!(rt; "{label}: {answer}")
}

/// Receive of the frame in a slot.
pub fn receive_from(rt: &impl Print, label: &str, desk: &mut Desk, slot: &Slot) -> io::Result<()> {
    receive(rt, label, desk, frames::whole(slot))
}

/// The same, where the line names the desk and the mark.
pub fn hand_over(rt: &impl Print, own: u8, desk: &mut Desk, slot: &Slot) -> io::Result<()> {
    let frame = frames::whole(slot);
    let answer = Answer(desk.receive_in_place(frame).map(Receipt));
    println!(rt; "desk {own} receives {}: {answer}", show::name(frame))
}

/// Relate.
pub fn relate(rt: &impl Print, desk: &Desk, a: MarkId, b: MarkId) -> io::Result<()> {
    let answer = Answer(desk.relate_in_place(a, b));
    println!(rt; "Relate {a}, {b}: {answer}")
}

/// Evidence, with room for a chain of so many marks.
pub fn evidence(rt: &impl Print, desk: &Desk, a: MarkId, b: MarkId, room: usize) -> io::Result<()> {
    let (answer, list) = match desk.evidence_list_in_place(a, b, room) {
        Ok((evidence, list)) => (Ok(Verdict(evidence)), list),
        Err(refusal) => (Err(refusal), Listed::new()),
    };
    println!(rt;
        "Evidence of {a}, {b}, room for {room}: {}, marks{}",
        Answer(answer),
        Marks(&list)
    )
}

/// Apart, with room for so many marks.
pub fn apart(rt: &impl Print, desk: &Desk, a: MarkId, room: usize) -> io::Result<()> {
    let (answer, list) = match desk.apart_list_in_place(a, room) {
        Ok(list) => (Ok(Amount("count", list.count)), list),
        Err(refusal) => (Err(refusal), Listed::new()),
    };
    println!(rt;
        "Apart of {a}, room for {room}: {}, marks{}",
        Answer(answer),
        Marks(&list)
    )
}

/// First apart for a desk; 0 where it has no such mark.
pub fn first_apart(rt: &impl Print, desk: &Desk, a: MarkId, of: u8) -> io::Result<()> {
    let answer = desk.first_apart_in_place(a, of);
    let answer = Answer(answer.map(|first| first.map_or(0, |number| number.0)));
    println!(rt; "First apart of {a}, desk {of}: {answer}")
}

/// Frame again into lent bytes.
pub fn frame_again(rt: &impl Print, desk: &Desk, a: MarkId, out: &mut [u8]) -> io::Result<()> {
    let answer = desk.frame_again_in_place(a, out);
    let answer = Answer(answer.map(|n| Amount("size", n)));
    println!(rt; "Frame again of {a}, bytes lent {}: {answer}", out.len())
}
