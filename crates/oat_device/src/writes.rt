//! The data writes that are made between instructions.
ghost use Rattle.std.specs.Prelude.{◌≡◌, ◌+◌};
ghost use Rattle.std.specs.List.{AllByRecursion};
ghost use Rattle.oat_journal.specs.{IsInLimits, RisesFrom, byte_at};
ghost use Rattle.oat_journal.specs.Run.{poked};
ghost use Rattle.oat_device.specs.Bare.{DoesFrom};

use oat_case::Write;
use oat_mem::Memory;

/// Makes the writes that are due just before an instruction, in their order, and answers those that are left.
pub fn make_due<'a>(memory: &mut Memory, writes: &'a [Write], made: u64) -> &'a [Write]
    requires fit { AllByRecursion IsInLimits writes.now }
    requires rise { RisesFrom made writes.now }
    ensures memory { byte_at memory.new ≡ poked writes.now made (byte_at memory.old) }
    ensures fit { AllByRecursion IsInLimits result.now }
    ensures rise { RisesFrom (made + 1) result.now }
    ensures left { DoesFrom (made + 1) result.now writes.now }
{
    for (count, write) in writes.iter().enumerate() {
        if write.before != made {
            return &writes[count..];
        }
        memory.poke(write.address, write.bytes.as_slice());
    }
    &[]
}
