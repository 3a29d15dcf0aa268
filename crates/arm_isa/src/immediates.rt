//! Immediate operands from numbers.
ghost use Rattle.std.specs.Prelude.{◌≡◌, ◌≢◌, ℕ, ◌<◌, ◌≤◌, IfSome, IfNone};
ghost use Rattle.arm_isa.specs.Immediates.{Gives, turns_of};

/// The field that gives `n` by this many rotations by two bits, if there is one.
fn immediate_by(n: u32, turns: u32) -> Option<u16>
    requires { turns < 16 }
    ensures some { IfSome result (λ field. Gives field n × (turns_of field ≡ turns)) }
    ensures none { IfNone result ((field : ℕ) → Gives field n → turns_of field ≢ turns) }
{
    let byte = n.rotate_left(2 * turns);
    if byte < 0x100 {
        Some((turns << 8 | byte) as u16)
    } else {
        None
    }
}

/// The immediate operand that gives `n`, with the smallest rotation (VL86C010 (ARM2) data manual, immediate operand
/// rotates): bits 7 to 0 of the field are turned right by twice bits 11 to 8. `None` where no operand gives `n`.
pub fn immediate(n: u32) -> Option<u16>
    ensures some { IfSome result (λ field. Gives field n) }
    ensures smallest { IfSome result (λ field. (other : ℕ) → Gives other n → turns_of field ≤ turns_of other) }
    ensures none { IfNone result ((field : ℕ) → Gives field n → ⊥) }
{
    'rotations: for turns in 0..16 {
        if let Some(field) = immediate_by(n, turns) {
            return Some(field);
        }
    }
    None
}
