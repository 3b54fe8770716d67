//! What a device makes ready when it begins to run.

ghost use Rattle.std.specs.Prelude.{◌≡◌, true};
ghost use Rattle.knx_model.specs.Device.{HasCapacities};
ghost use Rattle.device_sim.specs.Indexed.{IsIndexed};

use crate::non_volatile::NonVolatile;
use device_tables::TableIndex;

/// Fills the index where the device runs with what it keeps now, and didn't before. It takes no memory.
#[tactic(auto, using(crate::proofs::WhileLoaded::table_fits))]
pub fn index_tables(index: &mut TableIndex, kept: &NonVolatile, ran: bool)
    requires capacities { HasCapacities kept.now }
    requires before { ran ≡ true → IsIndexed kept.now index.old }
    ensures { IsIndexed kept.now index.new }
{
    if !ran && kept.runs() {
        index.fill(kept.address_table.octets(), kept.association_table.octets());
    }
}
