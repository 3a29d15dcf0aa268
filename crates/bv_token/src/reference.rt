//! References to lines.
ghost use Rattle.std.specs.Prelude.{◌≡◌, ◌<◌, ◌≤◌, slice_index};
ghost use Rattle.std.specs.List.{AllByRecursion};
ghost use Rattle.bv_token.specs.References.{reference_of, referred};

/// The byte that begins a reference to a line. Three bytes with the line's number follow it.
pub const LINE_REFERENCE: u8 = 0x8d;

/// The line number of the three bytes after `LINE_REFERENCE`.
#[tactic(auto, using(crate::proofs::References::top_of_byte))]
pub fn line_ref(bytes: [u8; 3]) -> u16
    ensures { result ≡ referred (slice_index bytes 0) (slice_index bytes 1) (slice_index bytes 2) }
{
    let [first, second, third] = bytes;
    let low = second ^ (first << 2 & 0xc0);
    let high = third ^ (first << 4 & 0xc0);
    u16::from_be_bytes([high, low])
}

/// The three bytes after `LINE_REFERENCE` that refer to this line number. Reading them gives the number again.
pub fn write_ref(number: u16) -> [u8; 3]
    ensures bytes { result ≡ reference_of number }
    ensures read_back { referred (slice_index result 0) (slice_index result 1) (slice_index result 2) ≡ number }
    ensures range { AllByRecursion (λ byte. (0x40 ≤ byte) × (byte < 0x80)) result }
{
    let [high, low] = number.to_be_bytes();
    let top_bits = ((low & 0xc0) >> 2) | ((high & 0xc0) >> 4);
    [top_bits ^ 0x54, low & 0x3f | 0x40, high & 0x3f | 0x40]
}
