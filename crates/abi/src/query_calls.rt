// Relate, Evidence, Apart, Pair tables, First apart, Frame again and the converter from 1 to 2, of a lent desk.
ghost use Rattle.std.specs.Prelude.{◌≡◌};
ghost use Rattle.abi.specs.Exports.{mark_id, RelateExport, EvidenceExport, ApartExport, PairTablesExport, FirstExport, AgainExport, ToSecondExport};

use desk::Desk;
use frame::{MarkId, Number};
use numbers::{ApartNumbers, EvidenceNumbers, FirstApartNumbers, RelateNumbers, WriteNumbers};

// Of a host's numbers: it names a mark by two, here and in the exports below.
fn named(desk: u8, number: u16) -> MarkId
    ensures { result ≡ mark_id desk number }
{
    MarkId {
        desk,
        number: Number(number),
    }
}

/// Relate.
#[unsafe(no_mangle)]
pub extern "C" fn kaungimewe_relate_lent(desk: &Desk, a: u8, n: u16, b: u8, m: u16) -> RelateNumbers
    ensures { RelateExport desk.now (mark_id a n) (mark_id b m) result }
{
    desk.relate_in_place(named(a, n), named(b, m)).into()
}

/// Evidence: the chain in the lent names, none where the marks are concurrent.
#[unsafe(no_mangle)]
pub extern "C" fn kaungimewe_evidence_lent(
    desk: &Desk,
    a: u8,
    n: u16,
    b: u8,
    m: u16,
    out: &mut [MarkId],
) -> EvidenceNumbers
    ensures { EvidenceExport desk.now (mark_id a n) (mark_id b m) out.old out.new result }
{
    desk.evidence_in_place(named(a, n), named(b, m), out).into()
}

/// Apart: the marks in the lent names.
#[unsafe(no_mangle)]
pub extern "C" fn kaungimewe_apart_lent(
    desk: &Desk,
    a: u8,
    n: u16,
    out: &mut [MarkId],
) -> ApartNumbers
    ensures { ApartExport desk.now (mark_id a n) out.old out.new result }
{
    desk.apart_in_place(named(a, n), out).into()
}

/// Pair tables, in the lent counts.
#[unsafe(no_mangle)]
pub extern "C" fn kaungimewe_pair_tables_lent(desk: &Desk, out: &mut [u32]) -> ApartNumbers
    ensures { PairTablesExport desk.now out.old out.new result }
{
    desk.pair_tables_in_place(out).into()
}

/// First apart of the marks of desk `of`.
#[unsafe(no_mangle)]
pub extern "C" fn kaungimewe_first_apart_lent(
    desk: &Desk,
    a: u8,
    n: u16,
    of: u8,
) -> FirstApartNumbers
    ensures { FirstExport desk.now (mark_id a n) of result }
{
    desk.first_apart_in_place(named(a, n), of).into()
}

/// Frame again.
#[unsafe(no_mangle)]
pub extern "C" fn kaungimewe_frame_again_lent(
    desk: &Desk,
    a: u8,
    n: u16,
    out: &mut [u8],
) -> WriteNumbers
    ensures { AgainExport desk.now (mark_id a n) out.old out.new result }
{
    desk.frame_again_in_place(named(a, n), out).into()
}

/// The converter from 1 to 2.
#[unsafe(no_mangle)]
pub extern "C" fn kaungimewe_to2_lent(desk: &Desk, frame: &[u8], out: &mut [u8]) -> WriteNumbers
    ensures { ToSecondExport desk.now frame.now out.old out.new result }
{
    desk.to_second_in_place(frame, out).into()
}
