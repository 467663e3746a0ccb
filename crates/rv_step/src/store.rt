ghost use Rattle.std.specs.Prelude.{◌≤◌};
ghost use Rattle.rv_step.specs.Machine.{stores};
ghost use Rattle.rv_step.specs.Steps.{Does};

use crate::machine::Machine;
use crate::trap::Cause;
use byteorder::{ByteOrder, LittleEndian};

impl Machine {
    /// Stores so many of the lowest bytes of a value.
    #[inline]
    pub(crate) fn store(&mut self, address: u64, count: usize, value: u64) -> Result<(), Cause>
        requires { count ≤ 8 }
        ensures { Does (stores self.old count address value) result self.old self.new }
    {
        let mut bytes = [0; 8];
        LittleEndian::write_u64(&mut bytes, value);
        if self.write(address, &bytes[..count]) {
            self.go_on();
            Ok(())
        } else {
            Err(Cause::Store)
        }
    }
}
