// Reads a whole text.
ghost use Rattle.std.specs.Prelude.{◌≡◌, ◌≤◌, length, is_ok, IfOk, Decides};
ghost use Rattle.topology.specs.Format.{outcome};
ghost use Rattle.topology.specs.Printed.{printed, OfFormat};
ghost use Rattle.topology.specs.Tables.{nodes_in, told, ReadAlone};
ghost use Rattle.topology.specs.Trees.{WellFormed};

use crate::fault::Fault;
use crate::table::Topology;
use crate::table::make::walk::attempt;

// The topology of a text, for a caller that has so many cells, or the one fault that holds.
// Just the texts of the format are accepted: well-formed nodes in print. No two of them read the same.
pub fn read(text: &[u8], cells: usize) -> Result<Topology, Fault>
    ensures exact { told result ≡ outcome text.now cells }
    ensures accepts { Decides (is_ok result) (OfFormat text.now cells) }
    ensures sound { IfOk result (λ t. WellFormed (nodes_in t)) }
    ensures fits { IfOk result (λ t. length (nodes_in t) ≤ cells) }
    ensures prints { IfOk result (λ t. printed (nodes_in t) ≡ text.now) }
    ensures alone { IfOk result (λ t. ReadAlone text.now (nodes_in t)) }
{
    attempt(text, cells)
}
