//! A memory of raw bytes, written in all ways.

ghost use Rattle.std.specs.Prelude.{◌≡◌, length};

use bv_ram::Ram;

fn put_all(ram: &mut Ram)
    requires { length ram.old ≡ 16 }
    ensures { length ram.new ≡ 16 }
{
    ram.fill(1, 7, 0xaa);
    ram.set_byte(0, 0x11);
    ram.set_word(8, 0x8070_6050);
    ram.copy_in(13, &[1, 2, 3]);
}

fn holds_all(ram: &Ram) -> bool
    requires { length ram.now ≡ 16 }
{
    let bytes = [
        0x11, 0xaa, 0xaa, 0xaa, 0xaa, 0xaa, 0xaa, 0, 0x50, 0x60, 0x70, 0x80, 0, 1, 2, 3,
    ];
    ram.part(0, 16) == bytes.as_slice()
        && ram.part(5, 5).is_empty()
        && ram.byte(9) == 0x60
        && ram.word(0) == 0xaaaa_aa11
        && ram.word(8) == 0x8070_6050
        && ram.word(12) == 0x0302_0100
}

#[test]
fn bytes_words_and_parts(rt: HostRuntime) {
    let Ok(mut ram) = Ram::new(rt.alloc(), 16) else {
        panic!(rt; "no memory");
    };
    assert!(rt; ram.part(0, 16) == [0u8; 16].as_slice());
    put_all(&mut ram);
    assert!(rt; holds_all(&ram));
}

#[test]
fn no_bytes(rt: HostRuntime) {
    let Ok(ram) = Ram::new(rt.alloc(), 0) else {
        panic!(rt; "no memory");
    };
    assert_eq!(rt; ram.len(), 0);
    assert!(rt; ram.part(0, 0).is_empty());
}
