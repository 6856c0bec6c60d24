// Sixteen desks in one array exchange their marks out of order, each round in an order of its own.
ghost use Rattle.std.specs.Prelude.{◌<◌};
ghost use Rattle.rows.specs.View.{width};

use crate::calls::{self, id};
use crate::frames::{EMPTY, Slot, whole};
use crate::sums::Sums;
use desk::Desk;
use frame::DESKS;
use rows::WIDTH;
use std::io;

type Desks = [Desk; WIDTH];

// The frame of each desk's mark of a round, by the desk's index.
type Frames = [Slot; WIDTH];

// In which order a desk is handed the others' frames: from desk 16 down, from desk 1 up, or from the next desk round.
// Cases and no closures, which would be no plainer: the cases name the orders, and one bound on k and i serves all three.
#[derive(Clone, Copy)]
enum Order {
    Falling,
    Rising,
    Round,
}

impl Order {
    // The index of the desk whose frame the desk at index k is handed as the i-th.
    fn sender(self, k: u8, i: u8) -> u8
        requires { (k < width) × (i < width) }
        ensures { result < width }
    {
        match self {
            Order::Falling => DESKS - 1 - i,
            Order::Rising => i,
            Order::Round => (k + i) % DESKS,
        }
    }
}

// Desks 1 to 16 take their places.
fn created(rt: &impl Print, desks: &mut Desks) -> io::Result<()> {
    for k in 0..DESKS {
        desks[usize::from(k)] = calls::new(rt, k + 1)?;
    }
    Ok(())
}

// Each desk makes its mark of a number.
fn all_make(rt: &impl Print, desks: &mut Desks, n: u16, frames: &mut Frames) -> io::Result<()> {
    for k in 0..DESKS {
        let at = usize::from(k);
        calls::mark_in(rt, &mut desks[at], id(k + 1, n), &mut frames[at])?;
    }
    Ok(())
}

// The desk at index k is handed the others' frames.
fn receives(desk: &mut Desk, k: u8, order: Order, frames: &Frames) -> Sums
    requires { k < width }
{
    let mut sums = Sums::default();
    for i in 0..DESKS {
        let sender = order.sender(k, i);
        if sender != k {
            sums.add(desk.receive_in_place(whole(&frames[usize::from(sender)])));
        }
    }
    sums
}

// Each desk is handed the others' frames.
fn all_receive(
    rt: &impl Print,
    desks: &mut Desks,
    label: &str,
    order: Order,
    frames: &Frames,
) -> io::Result<()> {
    for k in 0..DESKS {
        let sums = receives(&mut desks[usize::from(k)], k, order, frames);
        println!(rt; "desk {} receives {label}: {sums}", k + 1)?;
    }
    Ok(())
}

// Each desk makes two marks; the second marks are handed over before the first.
fn two_rounds(rt: &impl Print, desks: &mut Desks) -> io::Result<()> {
    let mut firsts = [EMPTY; WIDTH];
    let mut seconds = [EMPTY; WIDTH];
    all_make(rt, desks, 1, &mut firsts)?;
    all_make(rt, desks, 2, &mut seconds)?;
    all_receive(rt, desks, "the second marks", Order::Falling, &seconds)?;
    all_receive(rt, desks, "the first marks", Order::Rising, &firsts)
}

// The third marks, each after all that were handed over.
fn third_round(rt: &impl Print, desks: &mut Desks) -> io::Result<()> {
    let mut thirds = [EMPTY; WIDTH];
    all_make(rt, desks, 3, &mut thirds)?;
    all_receive(rt, desks, "the third marks", Order::Round, &thirds)
}

fn relations(rt: &impl Print, desk: &Desk) -> io::Result<()> {
    calls::relate(rt, desk, id(1, 1), id(DESKS, 3))?;
    calls::relate(rt, desk, id(DESKS, 3), id(1, 2))?;
    calls::relate(rt, desk, id(1, 2), id(DESKS, 2))?;
    calls::relate(rt, desk, id(1, 1), id(DESKS, 2))?;
    calls::relate(rt, desk, id(DESKS, 3), id(1, 3))?;
    calls::relate(rt, desk, id(9, 3), id(9, 3))?;
    calls::relate(rt, desk, id(1, 3), id(DESKS, 4))
}

pub fn run(rt: &impl Print) -> io::Result<()> {
    let mut desks = [Desk::new(1).0; WIDTH];
    created(rt, &mut desks)?;
    two_rounds(rt, &mut desks)?;
    third_round(rt, &mut desks)?;
    let [.., last] = &desks;
    relations(rt, last)
}
