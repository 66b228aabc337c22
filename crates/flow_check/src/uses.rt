// The stack bytes that an instruction has its routine use.
ghost use Rattle.std.specs.Prelude.{◌≡◌, ◌+◌, ◌≤◌};
ghost use Rattle.control_flow.specs.Measuring.{call_use};
ghost use Rattle.flow_check.specs.Internal.{row_use, Usable};

use control_flow::Row;

// What a call from a depth uses: 2 bytes more and the callee's need.
fn call_use(depth: usize, call: usize, needs: &[u16; 32]) -> usize
    requires { (depth ≤ 65535) × (call ≤ 32) }
    ensures { result ≡ call_use depth call needs.now }
{
    if call == 0 {
        return 0;
    }
    depth + 2 + usize::from(needs[call - 1])
}

// The stack bytes that an instruction has the routine use.
pub(crate) fn used(depth: usize, row: Row, needs: &[u16; 32]) -> usize
    requires { Usable depth row }
    ensures { result ≡ row_use depth row needs.now }
{
    let behind = depth + usize::from(row.pushes) - usize::from(row.pops);
    depth
        .max(behind)
        .max(call_use(depth, usize::from(row.call), needs))
}
