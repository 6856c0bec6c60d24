// What is said of a mark's past, and the number that stands for it in `Held`.
ghost use Rattle.std.specs.Prelude.{◌≡◌, false};
ghost use Rattle.frame.specs.Frame.{past_bad};
ghost use Rattle.rows.specs.View.{past_from};

use frame::Past;

/// What is said, of the number.
#[tactic(auto, using(crate::proofs::Pasts::from_some))]
pub fn past_from(said: u16) -> Past
    ensures { result ≡ past_from said }
{
    match said {
        0 => Past::Unsaid,
        _ => Past::Said(said - 1),
    }
}

/// The number: 0 where nothing is said, else one more than the count.
#[tactic(auto, using(crate::proofs::Uses::for_past_number))]
pub fn past_number(past: Past) -> u16
    requires { past_bad past ≡ false }
    ensures { past_from result ≡ past }
{
    match past {
        Past::Unsaid => 0,
        Past::Said(n) => n + 1,
    }
}
