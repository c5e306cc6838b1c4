ghost use Rattle.std.specs.Prelude.{◌≡◌};
ghost use Rattle.oat_journal.specs.{Regs, call_numbered};

use oat_measure::MonitorCall;

/// The call with this number, where an instruction at `pc` found these words in X9, X10 and X30.
pub fn call_numbered(number: u16, pc: u64, x9: u64, x10: u64, x30: u64) -> Option<MonitorCall>
    ensures { (r : Regs) → r.pc ≡ pc → r.x 9 ≡ x9 → r.x 10 ≡ x10 → r.x 30 ≡ x30 → result ≡ call_numbered number r }
{
    match number {
        1 => Some(MonitorCall::Begin { op: x9, at: pc }),
        2 => Some(MonitorCall::End { op: x9 }),
        3 => Some(MonitorCall::Bit { value: x9 }),
        4 => Some(MonitorCall::Target { address: x9 }),
        5 => Some(MonitorCall::Return { address: x30 }),
        6 => Some(MonitorCall::Define {
            cell: x9,
            value: x10,
        }),
        7 => Some(MonitorCall::Use {
            cell: x9,
            value: x10,
        }),
        _ => None,
    }
}
