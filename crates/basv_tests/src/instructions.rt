//! Words and their instructions, from the table of classes.

use arm_isa::{Class, Instr, class_of, decode, encode, immediate};

#[test]
fn words_are_decoded(rt: HostRuntime) {
    let table = [
        // MOV PC,R14.
        (
            0xe1a0_f00e,
            Instr::Data {
                cond: 14,
                imm: false,
                op: 13,
                s: false,
                rn: 0,
                rd: 15,
                op2: 0x00e,
            },
        ),
        // BL to itself.
        (
            0xebff_fffe,
            Instr::Branch {
                cond: 14,
                link: true,
                words: -2,
            },
        ),
    ];
    for (word, expected) in table {
        assert_eq!(rt; decode(word), expected, "at {word}");
    }
}

#[test]
fn classes_and_their_neighbours(rt: HostRuntime) {
    let table = [
        // MOVNV R0,R0: the condition plays no part.
        (0xf1a0_0000, Class::Data),
        // MUL R1,R2,R3, and words that differ from it in one bit of its class.
        (0xe001_0392, Class::Multiply),
        (0xe001_03b2, Class::Undefined),
        (0xe041_0392, Class::Undefined),
        (0xe101_0392, Class::Undefined),
        (0xe201_0392, Class::Data),
        (0xe001_0312, Class::Data),
        (0xe001_0382, Class::Data),
        // LDR R1,[R2,#16], and with a register for the offset.
        (0xe592_1010, Class::Single),
        (0xe792_1003, Class::Single),
        (0xe792_1013, Class::Undefined),
        // LDMFD R13!,{R0,PC}, B, BL.
        (0xe8bd_8001, Class::Block),
        (0xea00_0000, Class::Branch),
        (0xeb00_0000, Class::Branch),
        // Coprocessors.
        (0xec00_0000, Class::Undefined),
        (0xed00_0000, Class::Undefined),
        (0xee00_0010, Class::Undefined),
        (0xef00_0011, Class::Swi),
    ];
    for (word, class) in table {
        assert_eq!(rt; class_of(word), class, "at {word}");
        let instruction = decode(word);
        assert!(rt; instruction.is_valid(), "at {word}");
        assert_eq!(rt; encode(&instruction), word, "at {word}");
    }
}

#[test]
fn immediates_have_the_smallest_rotation(rt: HostRuntime) {
    let table = [
        (0, Some(0x000)),
        (255, Some(0x0ff)),
        (256, Some(0xc01)),
        (257, None),
        (0xff00_0000, Some(0x4ff)),
        (0xf000_000f, Some(0x2ff)),
        (0x3fc00, Some(0xbff)),
    ];
    for (number, field) in table {
        assert_eq!(rt; immediate(number), field, "at {number}");
    }
}
