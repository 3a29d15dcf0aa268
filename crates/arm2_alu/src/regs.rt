//! The registers, and all that is read of them and written to them.
ghost use Rattle.std.specs.Prelude.{◌≡◌, ◌%◌, ◌≤◌, replicate, true};
ghost use Rattle.arm2_alu.specs.Conditions.{negative, zero_flag, carry, overflow, holds, with_flags};
ghost use Rattle.arm2_alu.specs.Operands.{first_operand, whole_operand};
ghost use Rattle.arm2_alu.specs.Registers.{IsValidRegs, banked, with_banked, register, with_register, r15, at_next, jumped, takes_psr, with_psr};
ghost use Rattle.arm2_alu.specs.Results.{flagged, loaded};

use crate::operations::Computed;
use crate::pc::{PC_END, Pc};
use crate::psr::Psr;
use arm_isa::bit;
use arm_isa::numbers::{AL, R13, R15};

/// How many registers both modes share, R0 to R12.
const SHARED: usize = 13;

/// The flags under which each condition from EQ to NV holds: bit 8N + 4Z + 2C + V tells of N, Z, C and V.
const HOLDING: [u16; 16] = [
    0xf0f0, 0x0f0f, 0xcccc, 0x3333, 0xff00, 0x00ff, 0xaaaa, 0x5555, 0x0c0c, 0xf3f3, 0xaa55, 0x55aa,
    0x0a05, 0xf5fa, 0xffff, 0x0000,
];

/// The registers of the ARM2 (VL86C010 (ARM2) data manual, registers).
#[derive(Clone, Copy, Debug, PartialEq, Eq)]
pub struct Regs {
    /// R0 to R12.
    pub low: [u32; SHARED],
    /// R13 of user mode.
    pub user13: u32,
    /// R14 of user mode.
    pub user14: u32,
    /// R13 of supervisor mode.
    pub svc13: u32,
    /// R14 of supervisor mode.
    pub svc14: u32,
    /// The address of the next instruction.
    pub pc: Pc,
    /// The flags N Z C V I F.
    pub psr: Psr,
    /// Whether the processor is in supervisor mode, and not in user mode.
    pub svc: bool,
}

impl Regs {
    /// Registers that are all 0, with no flag set, in supervisor mode at an address.
    pub fn starting_at(pc: Pc) -> Regs
        ensures { result ≡ record { low = replicate 13 0; user13 = 0; user14 = 0; svc13 = 0; svc14 = 0; pc = pc; psr = 0; svc = true } }
    {
        Regs {
            low: [0; SHARED],
            user13: 0,
            user14: 0,
            svc13: 0,
            svc14: 0,
            pc,
            psr: Psr::of(0),
            svc: true,
        }
    }

    /// The law of registers: their PC is a multiple of 4 of 26 bits, and their flags are six.
    #[inline]
    pub fn are_valid(&self)
        ensures { IsValidRegs self.now }
    {
        let _ = self.pc.address();
        let _ = self.psr.bits();
    }

    #[tactic(auto, unfolding(crate::specs::Registers::banked))]
    /// A register from R0 to R14 in the bank of a mode.
    #[inline]
    pub fn banked(&self, svc: bool, n: u8) -> u32
        ensures { result ≡ banked svc self.now n }
    {
        if n < R13 {
            self.low[usize::from(n)]
        } else if n == R13 {
            if svc { self.svc13 } else { self.user13 }
        } else if svc {
            self.svc14
        } else {
            self.user14
        }
    }

    #[tactic(auto, unfolding(crate::specs::Registers::with_banked))]
    /// Sets a register from R0 to R14 in the bank of a mode.
    #[inline]
    pub fn set_banked(&mut self, svc: bool, n: u8, value: u32)
        ensures { self.new ≡ with_banked svc self.old n value }
    {
        if n < R13 {
            self.low[usize::from(n)] = value;
        } else if n == R13 {
            if svc {
                self.svc13 = value;
            } else {
                self.user13 = value;
            }
        } else if svc {
            self.svc14 = value;
        } else {
            self.user14 = value;
        }
    }

    /// A register from R0 to R14, as the current mode has it.
    #[inline]
    pub fn register(&self, n: u8) -> u32
        ensures { result ≡ register self.now n }
    {
        self.banked(self.svc, n)
    }

    /// Sets a register from R0 to R14, as the current mode has it.
    #[inline]
    pub fn set_register(&mut self, n: u8, value: u32)
        ensures { self.new ≡ with_register self.old n value }
    {
        self.set_banked(self.svc, n, value);
    }

    #[tactic(auto, unfolding(crate::specs::Registers::r15))]
    /// R15 with its flags and mode, where its address reads as `ahead` bytes ahead of the instruction.
    pub fn r15(&self, ahead: u32) -> u32
        requires { ahead % 4 ≡ 0 }
        ensures { result ≡ r15 self.now ahead }
    {
        let mode = if self.svc { 3 } else { 0 };
        u32::from(self.psr.bits()) * PC_END + self.pc.plus(ahead).address() + mode
    }

    /// A register as Rn, where R15 is an address `ahead` bytes ahead of the instruction.
    #[tactic(auto, unfolding(crate::specs::Operands::first_operand, crate::specs::Registers::banked))]
    #[inline]
    pub fn first_operand(&self, ahead: u32, n: u8) -> u32
        requires { ahead % 4 ≡ 0 }
        ensures { result ≡ first_operand self.now ahead n }
    {
        if n < R13 {
            self.low[usize::from(n)]
        } else if n == R15 {
            self.pc.plus(ahead).address()
        } else {
            self.register(n)
        }
    }

    /// A register as Rm, or as one that is stored, where R15 has its flags and mode.
    #[tactic(auto, unfolding(crate::specs::Operands::whole_operand, crate::specs::Registers::banked))]
    #[inline]
    pub fn whole_operand(&self, ahead: u32, n: u8) -> u32
        requires { ahead % 4 ≡ 0 }
        ensures { result ≡ whole_operand self.now ahead n }
    {
        if n < R13 {
            self.low[usize::from(n)]
        } else if n == R15 {
            self.r15(ahead)
        } else {
            self.register(n)
        }
    }

    /// Goes on to the next instruction.
    #[inline]
    pub fn advance(&mut self)
        ensures { self.new ≡ at_next self.old }
    {
        self.pc = self.pc.plus(4);
    }

    /// Goes on at an address, of which bits 25 to 2 count.
    #[inline]
    pub fn jump(&mut self, target: u32)
        ensures { self.new ≡ jumped self.old target }
    {
        self.pc = Pc::of(target);
    }

    #[tactic(auto, unfolding(crate::specs::Results::loaded, crate::specs::Registers::with_banked))]
    /// Gives a register a value, and goes on: for R15 at that address, else at the next instruction.
    #[inline]
    pub fn load(&mut self, rd: u8, value: u32)
        ensures { self.new ≡ loaded self.old rd value }
    {
        if rd < R13 {
            self.low[usize::from(rd)] = value;
            self.advance();
        } else if rd == R15 {
            self.jump(value);
        } else {
            self.set_register(rd, value);
            self.advance();
        }
    }

    #[inline]
    pub fn is_negative(&self) -> bool
        ensures { result ≡ negative self.now }
    {
        bit(self.psr.bits().into(), 5)
    }

    #[inline]
    pub fn is_zero(&self) -> bool
        ensures { result ≡ zero_flag self.now }
    {
        bit(self.psr.bits().into(), 4)
    }

    #[inline]
    pub fn has_carry(&self) -> bool
        ensures { result ≡ carry self.now }
    {
        bit(self.psr.bits().into(), 3)
    }

    #[inline]
    pub fn has_overflow(&self) -> bool
        ensures { result ≡ overflow self.now }
    {
        bit(self.psr.bits().into(), 2)
    }

    /// Whether a condition, 0 (EQ) to 15 (NV), holds.
    #[inline(always)]
    pub fn holds(&self, cond: u8) -> bool
        ensures { result ≡ holds cond self.now }
    {
        // Most instructions have AL.
        if cond == AL {
            return true;
        }
        match HOLDING.get(usize::from(cond)) {
            Some(flags) => (*flags >> (self.psr.bits() / 4)) % 2 == 1,
            None => cond % 2 == 0,
        }
    }

    #[tactic(auto, unfolding(crate::specs::Conditions::with_flags))]
    /// Sets N, Z, C and V.
    #[inline]
    pub fn set_flags(&mut self, negative: bool, zero: bool, carry: bool, overflow: bool)
        ensures { self.new ≡ with_flags negative zero carry overflow self.old }
    {
        self.psr = self.psr.with_flags(negative, zero, carry, overflow);
    }

    /// Sets N and Z by a result, C and V as it says.
    #[inline]
    pub fn set_flags_by(&mut self, outcome: Computed)
        ensures { self.new ≡ flagged outcome self.old }
    {
        self.set_flags(
            bit(outcome.value, 31),
            outcome.value == 0,
            outcome.carry,
            outcome.overflow,
        );
    }

    /// Whether flags and mode can be taken from a value: supervisor mode takes no mode 1 or 2.
    pub fn takes_psr(&self, value: u32) -> bool
        ensures { result ≡ takes_psr self.now value }
    {
        !self.svc || value % 4 == 0 || value % 4 == 3
    }

    #[tactic(auto, unfolding(crate::specs::Registers::with_psr))]
    /// Takes the flags from bits 31 to 28 of a value, and in supervisor mode also I, F and the mode from bits 27, 26, 1
    /// and 0.
    pub fn set_psr(&mut self, value: u32)
        ensures { self.new ≡ with_psr self.old value }
    {
        let all = (value / PC_END) as u8;
        if self.svc {
            self.psr = Psr::of(all);
            self.svc = value % 4 == 3;
        } else {
            self.psr = Psr::of(all / 4 * 4 + self.psr.bits() % 4);
        }
    }
}
