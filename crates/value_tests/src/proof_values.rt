//! Texts that are refused, the lines of faults, and values that are written back.

use base64::engine::general_purpose::URL_SAFE_NO_PAD;
use proof_cbor::{
    CborFault, Hash, Memory, Part, ValueFault, decode_base, decode_derived, draft_base,
    encode_base, encode_derived,
};
use std::alloc::Global;
use std::test::Fail;

/// A base value whose signature, key and secret are zeros with a last byte of 1, with the one pointer ``.
const BASE: &str =
    "u2V0AhVhAAAAAAAAAAAAAAAAAAAAAAAAAAAAAAAAAAAAAAAAAAAAAAAAAAAAAAAAAAAAAAAAAAAAAAAAAAAAAAAAAAAAAAVgjAAEAAAAAAAAAAAAAAAAAAAAAAAAAAAAAAAAAAAAAAAAAAAFYIAAAAAAAAAAAAAAAAAAAAAAAAAAAAAAAAAAAAAAAAAABgIFg";

/// A derived value of the same signature and key, with the one mandatory index 0.
const DERIVED: &str =
    "u2V0BhVhAAAAAAAAAAAAAAAAAAAAAAAAAAAAAAAAAAAAAAAAAAAAAAAAAAAAAAAAAAAAAAAAAAAAAAAAAAAAAAAAAAAAAAVgjAAEAAAAAAAAAAAAAAAAAAAAAAAAAAAAAAAAAAAAAAAAAAAGAoIEA";

/// One part of a value, as CBOR.
#[derive(Drop)]
enum Spelled {
    /// A byte string of so many zeros.
    Zeros(u8),
    /// These bytes.
    Raw(&'static [u8]),
    /// A map from 0 to a byte string of so many zeros.
    Digest(u8),
}

/// The text of a value with these parts.
fn text_of(alloc: Global, head: [u8; 4], parts: &[Spelled]) -> Result<String, Memory> {
    let mut bytes = Vec::new(alloc);
    bytes.extend_from_slice(head.as_slice())?;
    for part in parts {
        match part {
            Spelled::Zeros(count) => {
                bytes.extend_from_slice([0x58, *count].as_slice())?;
                for _ in 0..*count {
                    bytes.push(0)?;
                }
            }
            Spelled::Raw(raw) => bytes.extend_from_slice(raw)?,
            Spelled::Digest(count) => {
                bytes.extend_from_slice([0xa1, 0x00, 0x58, *count].as_slice())?;
                for _ in 0..*count {
                    bytes.push(0)?;
                }
            }
        }
    }
    let mut text = String::from_str(alloc, "u")?;
    URL_SAFE_NO_PAD.encode_string(&bytes, &mut text)?;
    Ok(text)
}

#[test]
fn texts_that_are_cut(rt: HostRuntime) {
    assert!(rt; decode_base(rt.alloc(), BASE).is_ok());
    assert!(rt; decode_derived(rt.alloc(), DERIVED).is_ok());
    assert!(rt; decode_base(rt.alloc(), DERIVED).err() == Some(ValueFault::Header));
    assert!(rt; decode_derived(rt.alloc(), BASE).err() == Some(ValueFault::Header));
    let cases: [(&str, ValueFault); 12] = [
        ("", ValueFault::NotMultibase),
        ("u2", ValueFault::NotMultibase),
        ("u2V", ValueFault::NotMultibase),
        ("z2V0A", ValueFault::NotMultibase),
        ("u2V0A=", ValueFault::NotMultibase),
        ("u", ValueFault::Header),
        ("u2V0", ValueFault::Header),
        ("u2V0A", ValueFault::Cbor(CborFault::Truncated(0))),
        ("u2V0AhVhA", ValueFault::Cbor(CborFault::Truncated(3))),
        ("u2V0g", ValueFault::Cbor(CborFault::Truncated(0))),
        ("u2V0ghVhA", ValueFault::Cbor(CborFault::Truncated(3))),
        ("u2V0hhVhA", ValueFault::Header),
    ];
    for (text, want) in cases {
        assert!(rt;
            decode_base(rt.alloc(), text).err() == Some(want),
            "at {text}"
        );
    }
}

#[test]
fn parts_of_another_kind_or_length(rt: HostRuntime) {
    use Spelled::{Raw, Zeros};
    let base: [([Spelled; 5], Option<ValueFault>); 13] = [
        (
            [Zeros(64), Zeros(35), Zeros(32), Raw(&[0x80]), Raw(&[0x80])],
            None,
        ),
        (
            [
                Raw(&[0x00]),
                Zeros(35),
                Zeros(32),
                Raw(&[0x80]),
                Raw(&[0x80]),
            ],
            Some(ValueFault::Shape(Part::BaseSignature)),
        ),
        (
            [
                Zeros(63),
                Raw(&[0x00]),
                Zeros(32),
                Raw(&[0x80]),
                Raw(&[0x80]),
            ],
            Some(ValueFault::Length(Part::BaseSignature)),
        ),
        (
            [
                Zeros(64),
                Raw(&[0x60]),
                Zeros(31),
                Raw(&[0x80]),
                Raw(&[0x80]),
            ],
            Some(ValueFault::Shape(Part::PublicKey)),
        ),
        (
            [Zeros(64), Zeros(36), Zeros(31), Raw(&[0x80]), Raw(&[0x80])],
            Some(ValueFault::Length(Part::PublicKey)),
        ),
        (
            [
                Zeros(64),
                Zeros(35),
                Raw(&[0x80]),
                Raw(&[0x00]),
                Raw(&[0x80]),
            ],
            Some(ValueFault::Shape(Part::HmacKey)),
        ),
        (
            [Zeros(64), Zeros(35), Zeros(35), Raw(&[0x00]), Raw(&[0x80])],
            Some(ValueFault::Length(Part::HmacKey)),
        ),
        (
            [Zeros(64), Zeros(35), Zeros(32), Raw(&[0x40]), Raw(&[0x00])],
            Some(ValueFault::Shape(Part::Signatures)),
        ),
        (
            [
                Zeros(64),
                Zeros(35),
                Zeros(32),
                Raw(&[0x82, 0x40, 0x60]),
                Raw(&[0x00]),
            ],
            Some(ValueFault::Shape(Part::Signatures)),
        ),
        (
            [
                Zeros(64),
                Zeros(35),
                Zeros(32),
                Raw(&[0x82, 0x40, 0x41, 0x00]),
                Raw(&[0x00]),
            ],
            Some(ValueFault::Length(Part::Signatures)),
        ),
        (
            [Zeros(64), Zeros(35), Zeros(32), Raw(&[0x80]), Raw(&[0x60])],
            Some(ValueFault::Shape(Part::Pointers)),
        ),
        (
            [
                Zeros(64),
                Zeros(35),
                Zeros(32),
                Raw(&[0x80]),
                Raw(&[0x81, 0x40]),
            ],
            Some(ValueFault::Shape(Part::Pointers)),
        ),
        (
            [
                Zeros(64),
                Zeros(35),
                Zeros(32),
                Raw(&[0x80]),
                Raw(&[0x82, 0x61, 0x61, 0x60]),
            ],
            None,
        ),
    ];
    for (parts, want) in base {
        let text = text_of(rt.alloc(), [0xd9, 0x5d, 0x00, 0x85], parts.as_slice()).expect(
            &rt, "memory",
        );
        assert!(rt; decode_base(rt.alloc(), &text).err() == want, "at {text}");
    }
    let derived: [([Spelled; 5], Option<ValueFault>); 13] = [
        (
            [
                Zeros(64),
                Zeros(35),
                Raw(&[0x80]),
                Raw(&[0xa0]),
                Raw(&[0x82, 0x01, 0x18, 0x18]),
            ],
            None,
        ),
        (
            [
                Raw(&[0x60]),
                Zeros(35),
                Raw(&[0x80]),
                Raw(&[0xa0]),
                Raw(&[0x80]),
            ],
            Some(ValueFault::Shape(Part::BaseSignature)),
        ),
        (
            [
                Zeros(65),
                Zeros(35),
                Raw(&[0x80]),
                Raw(&[0xa0]),
                Raw(&[0x80]),
            ],
            Some(ValueFault::Length(Part::BaseSignature)),
        ),
        (
            [
                Zeros(64),
                Raw(&[0xa0]),
                Raw(&[0x80]),
                Raw(&[0xa0]),
                Raw(&[0x80]),
            ],
            Some(ValueFault::Shape(Part::PublicKey)),
        ),
        (
            [
                Zeros(64),
                Zeros(64),
                Raw(&[0x00]),
                Raw(&[0xa0]),
                Raw(&[0x80]),
            ],
            Some(ValueFault::Length(Part::PublicKey)),
        ),
        (
            [
                Zeros(64),
                Zeros(35),
                Raw(&[0xa0]),
                Raw(&[0x80]),
                Raw(&[0x80]),
            ],
            Some(ValueFault::Shape(Part::Signatures)),
        ),
        (
            [
                Zeros(64),
                Zeros(35),
                Raw(&[0x81, 0x40]),
                Raw(&[0x80]),
                Raw(&[0x80]),
            ],
            Some(ValueFault::Length(Part::Signatures)),
        ),
        (
            [
                Zeros(64),
                Zeros(35),
                Raw(&[0x80]),
                Raw(&[0x80]),
                Raw(&[0xa0]),
            ],
            Some(ValueFault::Shape(Part::LabelMap)),
        ),
        (
            [
                Zeros(64),
                Zeros(35),
                Raw(&[0x80]),
                Raw(&[0xa2, 0x00, 0x40, 0x01, 0x00]),
                Raw(&[0x00]),
            ],
            Some(ValueFault::Shape(Part::LabelMap)),
        ),
        (
            [
                Zeros(64),
                Zeros(35),
                Raw(&[0x80]),
                Raw(&[0xa1, 0x00, 0x40]),
                Raw(&[0x00]),
            ],
            Some(ValueFault::Length(Part::LabelMap)),
        ),
        (
            [
                Zeros(64),
                Zeros(35),
                Raw(&[0x80]),
                Raw(&[0xa0]),
                Raw(&[0x82, 0x01, 0x60]),
            ],
            Some(ValueFault::Shape(Part::Indexes)),
        ),
        (
            [
                Zeros(64),
                Zeros(35),
                Raw(&[0x80]),
                Raw(&[0xa0]),
                Raw(&[0x82, 0x01, 0x01]),
            ],
            Some(ValueFault::Indexes),
        ),
        (
            [
                Zeros(64),
                Zeros(35),
                Raw(&[0x80]),
                Raw(&[0xa0]),
                Raw(&[0x83, 0x00, 0x02, 0x01]),
            ],
            Some(ValueFault::Indexes),
        ),
    ];
    for (parts, want) in derived {
        let text = text_of(rt.alloc(), [0xd9, 0x5d, 0x01, 0x85], parts.as_slice()).expect(
            &rt, "memory",
        );
        assert!(rt;
            decode_derived(rt.alloc(), &text).err() == want,
            "at {text}"
        );
    }
    let four = [Zeros(64), Zeros(35), Zeros(32), Raw(&[0x80])];
    let text = text_of(rt.alloc(), [0xd9, 0x5d, 0x00, 0x84], four.as_slice()).expect(&rt, "memory");
    assert!(rt; decode_base(rt.alloc(), &text).err() == Some(ValueFault::Shape(Part::Array)));
    let six = [
        Zeros(64),
        Zeros(35),
        Zeros(32),
        Raw(&[0x80]),
        Raw(&[0x80]),
        Raw(&[0x80]),
    ];
    let text = text_of(rt.alloc(), [0xd9, 0x5d, 0x20, 0x86], six.as_slice()).expect(&rt, "memory");
    assert!(rt; decode_base(rt.alloc(), &text).err() == Some(ValueFault::Shape(Part::Array)));
}

/// A digest has 32 bytes behind the header of SHA-256 and 48 behind that of SHA-384, no fewer and no
/// more.
#[test]
fn digests_of_another_length(rt: HostRuntime) -> Result<(), Fail> {
    use Spelled::{Digest, Raw, Zeros};
    let wrong = Some(ValueFault::Length(Part::LabelMap));
    let rows = [
        (0x01, 31, wrong),
        (0x01, 32, None),
        (0x01, 33, wrong),
        (0x01, 48, wrong),
        (0x21, 32, wrong),
        (0x21, 47, wrong),
        (0x21, 48, None),
        (0x21, 49, wrong),
        (0x20, 48, Some(ValueFault::Header)),
        (0x02, 32, Some(ValueFault::Header)),
        (0x22, 48, Some(ValueFault::Header)),
    ];
    for (third, count, want) in rows {
        let parts = [
            Zeros(64),
            Zeros(35),
            Raw(&[0x80]),
            Digest(count),
            Raw(&[0x80]),
        ];
        let text = text_of(rt.alloc(), [0xd9, 0x5d, third, 0x85], parts.as_slice())?;
        assert!(rt;
            decode_derived(rt.alloc(), &text).err() == want,
            "at {third} and {count}"
        );
    }
    Ok(())
}

/// A base value with two signatures and two pointers, as Python's `base64` and `struct` write it.
const BASE_FULL: &str =
    "u2V0AhVhAAAECAwQFBgcICQoLDA0ODxAREhMUFRYXGBkaGxwdHh8gISIjJCUmJygpKissLS4vMDEyMzQ1Njc4OTo7PD0-P1gjZGVmZ2hpamtsbW5vcHFyc3R1dnd4eXp7fH1-f4CBgoOEhYZYIMjJysvMzc7P0NHS09TV1tfY2drb3N3e3-Dh4uPk5ebnglhAIiIiIiIiIiIiIiIiIiIiIiIiIiIiIiIiIiIiIiIiIiIiIiIiIiIiIiIiIiIiIiIiIiIiIiIiIiIiIiIiIiIiI1hARERERERERERERERERERERERERERERERERERERERERERERERERERERERERERERERERERERERERERERERERERERYJgZy9hfjFiLzA";

/// The same value by SHA-384, as the same program writes it.
const BASE_FULL_384: &str =
    "u2V0ghVhAAAECAwQFBgcICQoLDA0ODxAREhMUFRYXGBkaGxwdHh8gISIjJCUmJygpKissLS4vMDEyMzQ1Njc4OTo7PD0-P1gjZGVmZ2hpamtsbW5vcHFyc3R1dnd4eXp7fH1-f4CBgoOEhYZYIMjJysvMzc7P0NHS09TV1tfY2drb3N3e3-Dh4uPk5ebnglhAIiIiIiIiIiIiIiIiIiIiIiIiIiIiIiIiIiIiIiIiIiIiIiIiIiIiIiIiIiIiIiIiIiIiIiIiIiIiIiIiIiIiI1hARERERERERERERERERERERERERERERERERERERERERERERERERERERERERERERERERERERERERERERERERERERYJgZy9hfjFiLzA";

/// The value by SHA-256 with a signature of bytes 255.
const BASE_SIGNED: &str =
    "u2V0AhVhA_____________________________________________________________________________________1gjZGVmZ2hpamtsbW5vcHFyc3R1dnd4eXp7fH1-f4CBgoOEhYZYIMjJysvMzc7P0NHS09TV1tfY2drb3N3e3-Dh4uPk5ebnglhAIiIiIiIiIiIiIiIiIiIiIiIiIiIiIiIiIiIiIiIiIiIiIiIiIiIiIiIiIiIiIiIiIiIiIiIiIiIiIiIiIiIiI1hARERERERERERERERERERERERERERERERERERERERERERERERERERERERERERERERERERERERERERERERERERERYJgZy9hfjFiLzA";

/// The value by SHA-384 with that signature.
const BASE_SIGNED_384: &str =
    "u2V0ghVhA_____________________________________________________________________________________1gjZGVmZ2hpamtsbW5vcHFyc3R1dnd4eXp7fH1-f4CBgoOEhYZYIMjJysvMzc7P0NHS09TV1tfY2drb3N3e3-Dh4uPk5ebnglhAIiIiIiIiIiIiIiIiIiIiIiIiIiIiIiIiIiIiIiIiIiIiIiIiIiIiIiIiIiIiIiIiIiIiIiIiIiIiIiIiIiIiI1hARERERERERERERERERERERERERERERERERERERERERERERERERERERERERERERERERERERERERERERERERERERYJgZy9hfjFiLzA";

/// A derived value with two signatures, the labels 1000, 24 and 0, in this order, and the indexes 1, 23
/// and 500.
const FALLING: &str =
    "u2V0BhVhAAAECAwQFBgcICQoLDA0ODxAREhMUFRYXGBkaGxwdHh8gISIjJCUmJygpKissLS4vMDEyMzQ1Njc4OTo7PD0-P1gjZGVmZ2hpamtsbW5vcHFyc3R1dnd4eXp7fH1-f4CBgoOEhYaCWEAiIiIiIiIiIiIiIiIiIiIiIiIiIiIiIiIiIiIiIiIiIiIiIiIiIiIiIiIiIiIiIiIiIiIiIiIiIiIiIiIiIiIjWEBERERERERERERERERERERERERERERERERERERERERERERERERERERERERERERERERERERERERERERERERERERFoxkD6FggVVVVVVVVVVVVVVVVVVVVVVVVVVVVVVVVVVVVVVVVVVYYGFggMzMzMzMzMzMzMzMzMzMzMzMzMzMzMzMzMzMzMzMzMzQAWCAREREREREREREREREREREREREREREREREREREREREREoMBFxkB9A";

/// The same value with its labels by rising number.
const RISING: &str =
    "u2V0BhVhAAAECAwQFBgcICQoLDA0ODxAREhMUFRYXGBkaGxwdHh8gISIjJCUmJygpKissLS4vMDEyMzQ1Njc4OTo7PD0-P1gjZGVmZ2hpamtsbW5vcHFyc3R1dnd4eXp7fH1-f4CBgoOEhYaCWEAiIiIiIiIiIiIiIiIiIiIiIiIiIiIiIiIiIiIiIiIiIiIiIiIiIiIiIiIiIiIiIiIiIiIiIiIiIiIiIiIiIiIjWEBERERERERERERERERERERERERERERERERERERERERERERERERERERERERERERERERERERERERERERERERERERFowBYIBERERERERERERERERERERERERERERERERERERERERESGBhYIDMzMzMzMzMzMzMzMzMzMzMzMzMzMzMzMzMzMzMzMzM0GQPoWCBVVVVVVVVVVVVVVVVVVVVVVVVVVVVVVVVVVVVVVVVVVoMBFxkB9A";

/// The first of the two by SHA-384, whose digests have 48 bytes, as another program writes it.
const FALLING_384: &str =
    "u2V0hhVhAAAECAwQFBgcICQoLDA0ODxAREhMUFRYXGBkaGxwdHh8gISIjJCUmJygpKissLS4vMDEyMzQ1Njc4OTo7PD0-P1gjZGVmZ2hpamtsbW5vcHFyc3R1dnd4eXp7fH1-f4CBgoOEhYaCWEAiIiIiIiIiIiIiIiIiIiIiIiIiIiIiIiIiIiIiIiIiIiIiIiIiIiIiIiIiIiIiIiIiIiIiIiIiIiIiIiIiIiIjWEBERERERERERERERERERERERERERERERERERERERERERERERERERERERERERERERERERERERERERERERERERERFoxkD6FgwVVVVVVVVVVVVVVVVVVVVVVVVVVVVVVVVVVVVVVVVVVVVVVVVVVVVVVVVVVVVVVVWGBhYMDMzMzMzMzMzMzMzMzMzMzMzMzMzMzMzMzMzMzMzMzMzMzMzMzMzMzMzMzMzMzMzNABYMBEREREREREREREREREREREREREREREREREREREREREREREREREREREREREREREREoMBFxkB9A";

/// The same value with its labels by rising number.
const RISING_384: &str =
    "u2V0hhVhAAAECAwQFBgcICQoLDA0ODxAREhMUFRYXGBkaGxwdHh8gISIjJCUmJygpKissLS4vMDEyMzQ1Njc4OTo7PD0-P1gjZGVmZ2hpamtsbW5vcHFyc3R1dnd4eXp7fH1-f4CBgoOEhYaCWEAiIiIiIiIiIiIiIiIiIiIiIiIiIiIiIiIiIiIiIiIiIiIiIiIiIiIiIiIiIiIiIiIiIiIiIiIiIiIiIiIiIiIjWEBERERERERERERERERERERERERERERERERERERERERERERERERERERERERERERERERERERERERERERERERERERFowBYMBEREREREREREREREREREREREREREREREREREREREREREREREREREREREREREREREhgYWDAzMzMzMzMzMzMzMzMzMzMzMzMzMzMzMzMzMzMzMzMzMzMzMzMzMzMzMzMzMzMzMzQZA-hYMFVVVVVVVVVVVVVVVVVVVVVVVVVVVVVVVVVVVVVVVVVVVVVVVVVVVVVVVVVVVVVVVoMBFxkB9A";

/// Whether the bytes count on from the first.
fn count_on(bytes: &[u8], first: u8) -> bool {
    let mut want = first;
    for byte in bytes {
        if *byte != want {
            return false;
        }
        want = want.wrapping_add(1);
    }
    true
}

/// Whether all bytes are the first, but the last one, which is one more.
fn ends_one_up(bytes: &[u8], first: u8) -> bool {
    let [front @ .., last] = bytes else {
        return false;
    };
    front.iter().all(|byte| *byte == first) && *last == first.wrapping_add(1)
}

#[test]
fn parts_of_a_base_value(rt: HostRuntime) {
    let base = decode_base(rt.alloc(), BASE_FULL).expect(&rt, "a value");
    assert!(rt; base.hash == Hash::Sha256);
    assert!(rt;
        count_on(&base.signature, 0) && count_on(&base.key, 100) && count_on(&base.secret, 200)
    );
    assert!(rt; base.signatures.len() == 2 && base.pointers.len() == 2);
    for (signature, first) in base.signatures.as_slice().iter().zip([0x22, 0x44]) {
        assert!(rt; ends_one_up(signature, first), "at {first}");
    }
    for (pointer, want) in base.pointers.as_slice().iter().zip(["", "/a~1b/0"]) {
        assert!(rt; pointer.as_str() == want, "at {want}");
    }
    let text = encode_base(rt.alloc(), &base).expect(&rt, "a value");
    assert!(rt; text.as_str() == BASE_FULL);
    let draft = draft_base(rt.alloc(), &base).expect(&rt, "a value");
    let text = draft.finish(&[255; 64]);
    assert!(rt; text.as_str() == BASE_SIGNED);
    let base = decode_base(rt.alloc(), BASE).expect(&rt, "a value");
    let text = encode_base(rt.alloc(), &base).expect(&rt, "a value");
    assert!(rt; text.as_str() == BASE);
}

/// A value by SHA-384 has the same parts behind another header.
#[test]
fn parts_of_a_base_value_by_sha384(rt: HostRuntime) {
    let base = decode_base(rt.alloc(), BASE_FULL_384).expect(&rt, "a value");
    let other = decode_base(rt.alloc(), BASE_FULL).expect(&rt, "a value");
    assert!(rt; base.hash == Hash::Sha384 && base != other);
    assert!(rt;
        count_on(&base.signature, 0) && count_on(&base.key, 100) && count_on(&base.secret, 200)
    );
    assert!(rt; base.signatures.as_slice() == other.signatures.as_slice());
    assert!(rt; base.pointers.as_slice() == other.pointers.as_slice());
    let text = encode_base(rt.alloc(), &base).expect(&rt, "a value");
    assert!(rt; text.as_str() == BASE_FULL_384);
    let draft = draft_base(rt.alloc(), &base).expect(&rt, "a value");
    let text = draft.finish(&[255; 64]);
    assert!(rt; text.as_str() == BASE_SIGNED_384);
}

#[test]
fn parts_of_a_derived_value(rt: HostRuntime) {
    let rows = [
        (Hash::Sha256, FALLING, RISING),
        (Hash::Sha256, RISING, RISING),
        (Hash::Sha384, FALLING_384, RISING_384),
        (Hash::Sha384, RISING_384, RISING_384),
    ];
    for (hash, read, written) in rows {
        let derived = decode_derived(rt.alloc(), read).expect(&rt, "a value");
        assert!(rt;
            derived.hash == hash && count_on(&derived.signature, 0) && count_on(&derived.key, 100)
        );
        assert!(rt; derived.signatures.len() == 2 && derived.labels.len() == 3);
        for (signature, first) in derived.signatures.as_slice().iter().zip([0x22, 0x44]) {
            assert!(rt; ends_one_up(signature, first), "at {first}");
        }
        for (label, (number, first)) in derived
            .labels
            .as_slice()
            .iter()
            .zip([(0, 0x11), (24, 0x33), (1000, 0x55)])
        {
            assert!(rt;
                label.number == number && ends_one_up(label.digest.as_slice(), first),
                "at {number}"
            );
        }
        assert!(rt; derived.indexes.as_slice() == [1, 23, 500].as_slice());
        let text = encode_derived(rt.alloc(), &derived).expect(&rt, "a value");
        assert!(rt; text.as_str() == written, "at {read}");
    }
    let derived = decode_derived(rt.alloc(), DERIVED).expect(&rt, "a value");
    let text = encode_derived(rt.alloc(), &derived).expect(&rt, "a value");
    assert!(rt; text.as_str() == DERIVED);
}

/// Values are equal where all of their parts are, however their texts spell them.
#[test]
fn values_are_compared(rt: HostRuntime) {
    let base = decode_base(rt.alloc(), BASE_FULL).expect(&rt, "a value");
    let again = decode_base(rt.alloc(), BASE_FULL).expect(&rt, "a value");
    let signed = decode_base(rt.alloc(), BASE_SIGNED).expect(&rt, "a value");
    assert!(rt; base == again && base != signed);
    let falling = decode_derived(rt.alloc(), FALLING).expect(&rt, "a value");
    let rising = decode_derived(rt.alloc(), RISING).expect(&rt, "a value");
    let other = decode_derived(rt.alloc(), DERIVED).expect(&rt, "a value");
    assert!(rt; falling == rising && falling != other);
}

/// The line of each fault.
#[test]
fn lines_of_faults(rt: HostRuntime) -> Result<(), Fail> {
    let cases: [(ValueFault, &str); 8] = [
        (
            ValueFault::NotMultibase,
            "the text is not `u` and unpadded base64url",
        ),
        (
            ValueFault::Header,
            "the three bytes of the kind do not come first",
        ),
        (
            ValueFault::Cbor(CborFault::Truncated(3)),
            "behind the header, the input ends at byte 3, inside an item",
        ),
        (
            ValueFault::Cbor(CborFault::TooMany),
            "behind the header, more than 100,000 items begin",
        ),
        (
            ValueFault::Shape(Part::Array),
            "the list of five parts, or an item in it, has the wrong kind",
        ),
        (
            ValueFault::Length(Part::HmacKey),
            "the HMAC key, or an item in it, has the wrong length",
        ),
        (ValueFault::Indexes, "the mandatory indexes do not rise"),
        (ValueFault::Memory, "out of memory"),
    ];
    for (fault, want) in cases {
        let line = fault.to_string(rt.alloc())?;
        assert!(rt; line.as_str() == want);
    }
    Ok(())
}

/// The line of a fault in each part.
#[test]
fn lines_of_parts(rt: HostRuntime) -> Result<(), Fail> {
    let cases: [(Part, &str); 7] = [
        (
            Part::BaseSignature,
            "the base signature, or an item in it, has the wrong kind",
        ),
        (
            Part::PublicKey,
            "the public key, or an item in it, has the wrong kind",
        ),
        (
            Part::HmacKey,
            "the HMAC key, or an item in it, has the wrong kind",
        ),
        (
            Part::Signatures,
            "the list of signatures, or an item in it, has the wrong kind",
        ),
        (
            Part::Pointers,
            "the list of mandatory pointers, or an item in it, has the wrong kind",
        ),
        (
            Part::LabelMap,
            "the label map, or an item in it, has the wrong kind",
        ),
        (
            Part::Indexes,
            "the list of mandatory indexes, or an item in it, has the wrong kind",
        ),
    ];
    for (part, want) in cases {
        let line = ValueFault::Shape(part).to_string(rt.alloc())?;
        assert!(rt; line.as_str() == want);
    }
    let list = Part::Array.to_string(rt.alloc())?;
    assert!(rt; list.as_str() == "list of five parts");
    Ok(())
}
