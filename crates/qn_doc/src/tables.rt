//! How wide a combiner's table is.

ghost use Rattle.std.specs.Prelude.{◌≤◌, IfErr, OnOk, length};
ghost use Rattle.qn_charge.specs.Charges.{zero_charge};
ghost use Rattle.qn_index.specs.Extents.{IsWithinLimits};
ghost use Rattle.qn_block.specs.Refusals.{IsShapeFault};
ghost use Rattle.qn_parts.specs.Faults.{Reads};
ghost use Rattle.qn_parts.specs.Tensors.{width_fault};
ghost use Rattle.qn_doc.specs.Combiners.{table_legs, IsTable};

use qn_block::{BlockFault, Combiner};
use qn_parts::DocFault;
use qn_parts::parts::place;

// Whether the table that stands in the network is within the limits of a shape.
fn check_table<const K: usize>(c: &Combiner<K>, split: bool) -> Result<(), BlockFault>
    ensures ok { OnOk result (IsWithinLimits c.now.group (table_legs split c.now) (zero_charge c.now.group)) }
    ensures err { IfErr result (IsShapeFault c.now.group (table_legs split c.now) (zero_charge c.now.group)) }
{
    if split {
        c.check_split_table()
    } else {
        c.check_fuse_table()
    }
}

/// F13, then F14, of the combiner's table.
pub(crate) fn check_width<const K: usize>(
    c: &Combiner<K>,
    split: bool,
    tensor: u32,
) -> Result<(), DocFault>
    requires few { length c.now.legs ≤ 31 }
    ensures { Reads result (width_fault c.now.group tensor (table_legs split c.now) (zero_charge c.now.group)) (λ _. IsTable split c.now) }
{
    match check_table(c, split) {
        Ok(()) => Ok(()),
        Err(fault) => Err(place(fault, tensor)),
    }
}
