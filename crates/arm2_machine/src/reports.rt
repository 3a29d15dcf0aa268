//! Traps and reports by their numbers, as registers hand them over.
ghost use Rattle.std.specs.Prelude.{◌≡◌};
ghost use Rattle.arm2_machine.specs.Reports.{trap_of, stray_of, report_of, trap_number};

use bv_run::{Report, Trap};

/// The number of a trap's kind.
pub fn trap_number(kind: Trap) -> u32
    ensures { result ≡ trap_number kind }
{
    match kind {
        Trap::Data => 1,
        Trap::Fetch => 2,
        Trap::Undefined => 3,
        Trap::Unpredictable => 4,
        Trap::Swi => 5,
    }
}

/// The kind of a trap by its number.
fn trap_kind(number: u32) -> Option<Trap>
    ensures { result ≡ trap_of number }
{
    match number {
        1 => Some(Trap::Data),
        2 => Some(Trap::Fetch),
        3 => Some(Trap::Undefined),
        4 => Some(Trap::Unpredictable),
        5 => Some(Trap::Swi),
        _ => None,
    }
}

fn stray(kind: Option<Trap>, address: u32, line: u16) -> Option<Report>
    ensures { result ≡ stray_of kind address line }
{
    let kind = kind?;
    Some(Report::Stray {
        kind,
        address,
        line,
    })
}

/// The report that the registers stand for, if they do.
pub fn report(registers: &[u32; 13]) -> Option<Report>
    ensures { result ≡ report_of registers.now }
{
    let line = (registers[2] % 0x1_0000) as u16;
    match registers[0] {
        0 => Some(Report::Done),
        1 => {
            let error = registers[1].cast_signed();
            Some(Report::Failed { error, line })
        }
        2 => stray(trap_kind(registers[1]), registers[3], line),
        3 => Some(Report::InputEnded { line }),
        _ => None,
    }
}
