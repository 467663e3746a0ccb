ghost use Rattle.std.specs.Int.{cast_signed, w8, w16, w32};
ghost use Rattle.num_core.specs.Bits.{low_bits};
ghost use Rattle.rv_step.specs.Machine.{loads};
ghost use Rattle.rv_step.specs.Steps.{Does};

use crate::machine::Machine;
use crate::trap::Cause;
use crate::value;
use byteorder::{ByteOrder, LittleEndian};
use rv_isa::Register;

impl Machine {
    /// Loads 8 bits with their sign extended.
    #[inline]
    pub(crate) fn load_byte(&mut self, register: Register, address: u64) -> Result<(), Cause>
        ensures { Does (loads self.old register 1 address
            (λ n. low_bits 64 (cast_signed w8 n))) result self.old self.new }
    {
        let Some(bytes) = self.read(address, 1) else {
            return Err(Cause::Load);
        };
        let value = value::extend_byte(bytes[0]);
        self.give(register, value)
    }

    /// Loads 16 bits with their sign extended.
    #[inline]
    pub(crate) fn load_half(&mut self, register: Register, address: u64) -> Result<(), Cause>
        ensures { Does (loads self.old register 2 address
            (λ n. low_bits 64 (cast_signed w16 n))) result self.old self.new }
    {
        let Some(bytes) = self.read(address, 2) else {
            return Err(Cause::Load);
        };
        let value = value::extend_half(LittleEndian::read_u16(bytes));
        self.give(register, value)
    }

    /// Loads 32 bits with their sign extended.
    #[inline]
    pub(crate) fn load_word(&mut self, register: Register, address: u64) -> Result<(), Cause>
        ensures { Does (loads self.old register 4 address
            (λ n. low_bits 64 (cast_signed w32 n))) result self.old self.new }
    {
        let Some(bytes) = self.read(address, 4) else {
            return Err(Cause::Load);
        };
        let value = value::extend_word(LittleEndian::read_u32(bytes));
        self.give(register, value)
    }

    /// Loads 64 bits.
    #[inline]
    pub(crate) fn load_double(&mut self, register: Register, address: u64) -> Result<(), Cause>
        ensures { Does (loads self.old register 8 address (λ n. n)) result self.old self.new }
    {
        let Some(bytes) = self.read(address, 8) else {
            return Err(Cause::Load);
        };
        let value = LittleEndian::read_u64(bytes);
        self.give(register, value)
    }

    /// Loads 8 bits.
    #[inline]
    pub(crate) fn load_byte_unsigned(
        &mut self,
        register: Register,
        address: u64,
    ) -> Result<(), Cause>
        ensures { Does (loads self.old register 1 address (λ n. n)) result self.old self.new }
    {
        let Some(bytes) = self.read(address, 1) else {
            return Err(Cause::Load);
        };
        let value = bytes[0] as u64;
        self.give(register, value)
    }

    /// Loads 16 bits.
    #[inline]
    pub(crate) fn load_half_unsigned(
        &mut self,
        register: Register,
        address: u64,
    ) -> Result<(), Cause>
        ensures { Does (loads self.old register 2 address (λ n. n)) result self.old self.new }
    {
        let Some(bytes) = self.read(address, 2) else {
            return Err(Cause::Load);
        };
        let value = LittleEndian::read_u16(bytes) as u64;
        self.give(register, value)
    }

    /// Loads 32 bits.
    #[inline]
    pub(crate) fn load_word_unsigned(
        &mut self,
        register: Register,
        address: u64,
    ) -> Result<(), Cause>
        ensures { Does (loads self.old register 4 address (λ n. n)) result self.old self.new }
    {
        let Some(bytes) = self.read(address, 4) else {
            return Err(Cause::Load);
        };
        let word = LittleEndian::read_u32(bytes);
        self.give(register, word as u64)
    }
}
