use crate::cipher::apply_keystream;
use crate::{BoxFault, fingerprint, hmac256, seal, seal_in_place, unseal, unseal_in_place};
use field61::Fe;
use sharefile::KeyName;
use std::alloc::Global;
use std::test::Fail;

/// The SHA-256 of the byte 3 and the 40 bytes of the key 7, 0, 0, 0, 0.
const FINGERPRINT: [u8; 32] = [
    0x13, 0x3e, 0x7f, 0x97, 0xad, 0x4b, 0x6a, 0x1f, 0xc1, 0xbe, 0xbc, 0x9e, 0x6a, 0x35, 0xd4, 0x95,
    0xf3, 0xde, 0x8d, 0x4d, 0xf7, 0x61, 0x5d, 0x75, 0xd0, 0x74, 0xb6, 0x9f, 0x4d, 0x1e, 0xc0, 0xc3,
];

/// The box of `Meet at noon.` and a line feed under the key 7, 0, 0, 0, 0 and the name `k1`, with the
/// number 3, made of the ChaCha20 of OpenSSL and of an HMAC of another program.
const LETTER_BOX: [u8; 94] = [
    0x44, 0x4b, 0x42, 0x31, 0x00, 0x00, 0x00, 0x03, 0x00, 0x00, 0x00, 0x00, 0x00, 0x00, 0x00, 0x0e,
    0x6b, 0x31, 0x00, 0x00, 0x00, 0x00, 0x00, 0x00, 0x00, 0x00, 0x00, 0x00, 0x00, 0x00, 0x00, 0x00,
    0x00, 0x00, 0x00, 0x00, 0x00, 0x00, 0x00, 0x00, 0x00, 0x00, 0x00, 0x00, 0x00, 0x00, 0x00, 0x00,
    0xde, 0xdf, 0xb0, 0x6c, 0x58, 0x92, 0xc4, 0xb4, 0xe1, 0x06, 0x63, 0x48, 0x30, 0x0f, 0x1e, 0x6d,
    0x65, 0x86, 0x23, 0x49, 0x37, 0x0c, 0x72, 0x49, 0x4a, 0x19, 0x8b, 0xc8, 0x8a, 0x9b, 0xa0, 0x1f,
    0x34, 0xec, 0x41, 0xfd, 0xe0, 0xa8, 0xcb, 0xe0, 0xf3, 0xf8, 0xb5, 0x83, 0x39, 0x61,
];

const LETTER: &[u8; 14] = b"Meet at noon.\n";

fn seven() -> [Fe; 5] {
    [Fe::reduce(7), Fe::ZERO, Fe::ZERO, Fe::ZERO, Fe::ZERO]
}

/// Seals and opens `size` bytes of one value, by copies and in place, and says whether they came back.
fn comes_back(alloc: Global, name: &KeyName, size: u32) -> Result<bool, BoxFault> {
    let mut document = Vec::new(alloc);
    let size = size.min(100_000) as usize;
    document.resize(size, 0x5a)?;
    let sealed = seal(alloc, &seven(), name, 9, &document).map_err(|_| BoxFault::OutOfMemory)?;
    let (number, opened) = unseal(alloc, &seven(), name, &sealed)?;
    let comes = number == 9
        && sealed.len() == size + 80
        && opened.len() == size
        && opened.as_slice() == document.as_slice();
    let whole = seal_in_place(&seven(), name, 9, document).map_err(|_| BoxFault::OutOfMemory)?;
    let same = whole.as_slice() == sealed.as_slice();
    let (number, back) = unseal_in_place(&seven(), name, whole)?;
    Ok(comes && same && number == 9 && back.as_slice() == opened.as_slice())
}

#[test]
fn a_tag_and_a_fingerprint_are_those_of_the_standards(rt: HostRuntime) -> Result<(), Fail> {
    // RFC 4231, case 2.
    let tag = hmac256(rt.alloc(), b"Jefe", b"what do ya want for nothing?")?;
    let expected = [
        0x5b, 0xdc, 0xc1, 0x46, 0xbf, 0x60, 0x75, 0x4e, 0x6a, 0x04, 0x24, 0x26, 0x08, 0x95, 0x75,
        0xc7, 0x5a, 0x00, 0x3f, 0x08, 0x9d, 0x27, 0x39, 0x83, 0x9d, 0xec, 0x58, 0xb9, 0x64, 0xec,
        0x38, 0x43,
    ];
    assert!(rt; tag == expected);
    // RFC 4231, case 6: a key of 131 bytes is hashed first.
    let text = b"Test Using Larger Than Block-Size Key - Hash Key First";
    let tag = hmac256(rt.alloc(), &[0xaa; 131], text)?;
    assert_eq!(rt; &tag[..4], [0x60, 0xe4, 0x31, 0x59].as_slice());
    assert!(rt; fingerprint(rt.alloc(), &seven())? == FINGERPRINT);
    Ok(())
}

#[test]
fn the_keystream_of_zeros_is_the_first_vector_of_rfc_8439(rt: HostRuntime) {
    let mut bytes = [0; 18];
    apply_keystream(&mut bytes, [0; 32], 0);
    let words = [0xade0b876u32, 0x903df1a0, 0xe56a5d40, 0x28bd8653];
    for (bytes, word) in bytes.chunks_exact(4).zip(words.iter()) {
        assert_eq!(rt; bytes, word.to_le_bytes().as_slice());
    }
}

#[test]
fn a_letter_has_the_box_that_other_programs_make(rt: HostRuntime) -> Result<(), Fail> {
    let alloc = rt.alloc();
    let name = KeyName::from_text("k1").ok_or("a name")?;
    let sealed = seal(alloc, &seven(), &name, 3, LETTER)?;
    assert_eq!(rt; sealed.as_slice(), LETTER_BOX.as_slice());
    let (number, letter) = unseal(alloc, &seven(), &name, &LETTER_BOX)
        .ok()
        .ok_or("a letter")?;
    assert_eq!(rt; number, 3);
    assert_eq!(rt; letter.as_slice(), LETTER.as_slice());
    let sealed = seal_in_place(&seven(), &name, 3, letter)?;
    assert_eq!(rt; sealed.as_slice(), LETTER_BOX.as_slice());
    let opened = unseal_in_place(&seven(), &name, sealed);
    let (number, letter) = opened.ok().ok_or("a letter")?;
    assert_eq!(rt; number, 3);
    assert_eq!(rt; letter.as_slice(), LETTER.as_slice());
    Ok(())
}

#[test]
fn each_part_of_a_box_that_is_changed_has_its_fault(rt: HostRuntime) -> Result<(), Fail> {
    let alloc = rt.alloc();
    let name = KeyName::from_text("k1").ok_or("a name")?;
    // A byte of each part, and the number of its fault.
    for (place, number) in [
        (0, 2),
        (7, 5),
        (15, 3),
        (16, 4),
        (47, 4),
        (48, 5),
        (61, 5),
        (93, 5),
    ] {
        let mut changed = LETTER_BOX;
        changed[place] ^= 1;
        let fault = unseal(alloc, &seven(), &name, &changed).err();
        assert!(rt;
            fault.map(|fault| fault.number()) == Some(number),
            "byte {place}"
        );
    }
    let mut longer = LETTER_BOX;
    longer[15] = 15;
    let length = Some(BoxFault::Length {
        found: 15,
        have: 94,
    });
    assert!(rt; unseal(alloc, &seven(), &name, &longer).err() == length);
    let other = KeyName::from_text("k2").ok_or("a name")?;
    assert!(rt; unseal(alloc, &seven(), &other, &LETTER_BOX).err() == Some(BoxFault::Name));
    let zero = [Fe::ZERO; 5];
    let fault = unseal(alloc, &zero, &name, &LETTER_BOX).err();
    assert!(rt; fault.map(|fault| fault.number()) == Some(5), "another key");
    let fault = unseal_in_place(&zero, &name, LETTER_BOX.to_vec(alloc)?).err();
    assert!(rt;
        fault.map(|fault| fault.number()) == Some(5),
        "another key, in place"
    );
    Ok(())
}

#[test]
fn an_empty_document_has_a_box_of_80_bytes(rt: HostRuntime) -> Result<(), Fail> {
    let alloc = rt.alloc();
    let name = KeyName::from_text("k1").ok_or("a name")?;
    let empty = seal(alloc, &seven(), &name, 0, b"")?;
    assert_eq!(rt; empty.len(), 80);
    let short = Some(BoxFault::Short { have: 79, need: 80 });
    let (_, most) = empty.as_slice().split_last().ok_or("a box")?;
    assert!(rt; unseal(alloc, &seven(), &name, most).err() == short);
    let opened = unseal(alloc, &seven(), &name, &empty);
    assert!(rt; opened.is_ok_and(|(number, document)| number == 0 && document.is_empty()));
    Ok(())
}

#[test]
fn documents_of_many_sizes_come_back(rt: HostRuntime) -> Result<(), Fail> {
    let name = KeyName::from_text("k1").ok_or("a name")?;
    for size in [0, 1, 63, 64, 65, 100_000] {
        assert!(rt;
            comes_back(rt.alloc(), &name, size) == Ok(true),
            "{size} bytes"
        );
    }
    Ok(())
}
