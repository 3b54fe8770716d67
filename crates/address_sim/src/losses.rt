//! What is lost.

ghost use Rattle.std.specs.Prelude.{◌≡◌};
ghost use Rattle.address_sim.specs.Losses.{is_loss, loses_answer, loses_read};

use address_world::UnitLoss;

/// Whether the broadcast of a number is lost for the unit at a place, from 0.
pub fn loses_read(losses: &[UnitLoss], place: usize, n: u64) -> bool
    ensures { result ≡ loses_read losses.now place n }
{
    losses.iter().any(|loss| is_loss(loss, false, place, n))
}

/// Whether the response of a number of the unit at a place is lost for the gateway.
pub fn loses_answer(losses: &[UnitLoss], place: usize, n: u64) -> bool
    ensures { result ≡ loses_answer losses.now place n }
{
    losses.iter().any(|loss| is_loss(loss, true, place, n))
}

/// Whether a line says this. It counts units from 1.
fn is_loss(loss: &UnitLoss, answer: bool, place: usize, n: u64) -> bool
    ensures { result ≡ is_loss answer place n loss.now }
{
    loss.answer == answer
        && u64::from(loss.unit) == (place as u64).saturating_add(1)
        && u64::from(loss.n) == n
}
