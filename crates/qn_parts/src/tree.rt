//! The tree of a document's bytes.
ghost use Rattle.std.specs.Prelude.{◌≡◌, Some};
ghost use Rattle.serde_json.specs.View.{view};
ghost use Rattle.qn_json.specs.Tree.{tree_of};
ghost use Rattle.qn_parts.specs.Faults.{Reads};
ghost use Rattle.qn_parts.specs.Tree.{json_fault};

use crate::{DocFault, Fault};
use serde_json::Value;
use std::alloc::Global;

/// The tree of the bytes, or F2 where they are no JSON.
pub fn read_tree(alloc: Global, bytes: &[u8]) -> Result<Value, DocFault>
    ensures { Reads result (json_fault bytes.now) (λ v. tree_of bytes.now ≡ Some (view v)) }
{
    match Value::from_slice(alloc, bytes) {
        Ok(value) => Ok(value),
        Err(e) => if e.is_memory() {
            Err(DocFault::Memory)
        } else {
            Err(DocFault::Bad(Fault::of_code(2)))
        },
    }
}
