//! What the processor asks of a memory.
ghost use Rattle.std.specs.Prelude.{◌≡◌, ℕ, ◌%◌, Bool, List, length};
ghost use Rattle.arm2_cpu.specs.Memory.{Space, IsLawful, read_word, read_byte, wrote_word, wrote_byte};

/// A memory of bytes, as the processor meets it. Whether a call is refused depends on the mode and the address alone, and
/// is the same for all five calls and for the four bytes of an aligned word. The bytes of a word are lowest first. A
/// refused write changes nothing.
pub trait Memory {
    /// Where the memory begins and ends, and which of its addresses each mode may use.
    ghost space: { Space };

    /// The bytes, which both modes share.
    ghost bytes: { Self → List ℕ };

    /// The word at an address that is a multiple of 4, or `None` where it is refused to user mode (`user`) or to
    /// supervisor mode.
    fn word(&self, user: bool, at: u32) -> Option<u32>
        requires { at % 4 ≡ 0 }
        ensures value { result ≡ read_word space (bytes self.now) user at }
        ensures size { length (bytes self.now) ≡ space.size };

    /// The byte at an address, or `None` where it is refused.
    fn byte(&self, user: bool, at: u32) -> Option<u8>
        ensures value { result ≡ read_byte space (bytes self.now) user at }
        ensures size { length (bytes self.now) ≡ space.size };

    /// Stores a word at an address that is a multiple of 4. `false` where it is refused.
    fn set_word(&mut self, user: bool, at: u32, v: u32) -> bool
        requires { at % 4 ≡ 0 }
        ensures answer { result ≡ space.allows user at }
        ensures value { bytes self.new ≡ wrote_word space (bytes self.old) user at v }
        ensures size { length (bytes self.new) ≡ space.size };

    /// Stores a byte at an address. `false` where it is refused.
    fn set_byte(&mut self, user: bool, at: u32, v: u8) -> bool
        ensures answer { result ≡ space.allows user at }
        ensures value { bytes self.new ≡ wrote_byte space (bytes self.old) user at v }
        ensures size { length (bytes self.new) ≡ space.size };

    /// The instruction's word at an address that is a multiple of 4, or `None` where it is refused.
    fn fetch(&self, user: bool, at: u32) -> Option<u32>
        requires { at % 4 ≡ 0 }
        ensures value { result ≡ read_word space (bytes self.now) user at }
        ensures size { length (bytes self.now) ≡ space.size };

    ghost lawful: { IsLawful space };
}
