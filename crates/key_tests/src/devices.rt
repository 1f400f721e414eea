//! What the calls give: signatures, keys and secrets by their numbers, by HMAC and by ChaCha20; who is
//! refused, and which calls fail.

use key_device::{
    BrokenDevice, DeviceError, FailingDevice, HmacDevice, KeyDevice, KeyEntry, KeyName, KeyTable,
    LedgerDevice, Sequence, Signature, Text, sign_among_others, sign_and_check, sign_for_log,
    sign_with_fresh_key, sign_with_new_ledger,
};
use std::test::Fail;

/// A key of zero bytes but for the second and the last.
fn key(second: u8, last: u8) -> KeyName {
    let mut bytes = [0; 35];
    bytes[1] = second;
    bytes[34] = last;
    KeyName { bytes }
}

/// A signature of zero bytes but for the first and the last.
fn signature(first: u8, last: u8) -> Signature {
    let mut bytes = [0; 64];
    bytes[0] = first;
    bytes[63] = last;
    Signature { bytes }
}

/// A secret of zero bytes but for the last.
fn secret(last: u8) -> [u8; 32] {
    let mut bytes = [0; 32];
    bytes[31] = last;
    bytes
}

#[test]
fn signs_and_checks(rt: HostRuntime) -> Result<(), Fail> {
    let mut ledger = LedgerDevice::new(rt.alloc(), &[key(0, 0), key(0, 7)])?;
    assert_eq!(rt; ledger.sign(&key(0, 1), b"ab"), Err(DeviceError::NoKey));
    let made: [(KeyName, &[u8], Signature); 3] = [
        (key(0, 0), b"ab", signature(0, 1)),
        (key(0, 7), b"", signature(0, 2)),
        (key(0, 7), b"ab", signature(0, 3)),
    ];
    for (name, bytes, mark) in made {
        assert_eq!(rt; ledger.sign(&name, bytes), Ok(mark));
    }
    // the log is in the order of signing
    assert_eq!(rt; ledger.log().len(), 3);
    for (at, (name, bytes, mark)) in made.into_iter().enumerate() {
        assert_eq!(rt; ledger.log()[at].key, name);
        assert_eq!(rt; ledger.log()[at].bytes.as_slice(), bytes);
        assert_eq!(rt; ledger.log()[at].signature, mark);
    }
    let cases: [(KeyName, &[u8], Signature, bool); 11] = [
        (key(0, 0), b"ab", signature(0, 1), true),
        (key(0, 7), b"", signature(0, 2), true),
        (key(0, 7), b"ab", signature(0, 3), true),
        (key(0, 7), b"ab", signature(0, 1), false),
        (key(0, 1), b"ab", signature(0, 1), false),
        (key(0, 0), b"ac", signature(0, 1), false),
        (key(0, 0), b"a", signature(0, 1), false),
        (key(0, 0), b"ab", signature(0, 3), false),
        (key(0, 0), b"ab", signature(1, 1), false),
        (key(0, 0), b"ab", signature(0, 0), false),
        (key(0, 0), b"ab", signature(0, 4), false),
    ];
    for (name, bytes, mark, accepted) in cases {
        assert_eq!(rt; ledger.check(&name, bytes, &mark), Ok(accepted));
    }
    Ok(())
}

#[test]
fn fresh_keys_pass_over_owned_ones(rt: HostRuntime) -> Result<(), Fail> {
    let mut ledger = LedgerDevice::new(rt.alloc(), &[key(1, 2), key(0, 0), key(1, 1)])?;
    assert_eq!(rt; ledger.fresh_key(), Ok(key(1, 3)));
    assert_eq!(rt; ledger.fresh_key(), Ok(key(1, 4)));
    let mut other = LedgerDevice::new(rt.alloc(), &[key(1, 2), key(1, 2)])?;
    assert_eq!(rt; other.sign(&key(1, 1), b"a"), Err(DeviceError::NoKey));
    assert_eq!(rt; other.fresh_key(), Ok(key(1, 1)));
    assert_eq!(rt; other.fresh_key(), Ok(key(1, 3)));
    assert_eq!(rt; other.sign(&key(1, 1), b"a"), Ok(signature(0, 1)));
    Ok(())
}

#[test]
fn secrets_in_order(rt: HostRuntime) -> Result<(), Fail> {
    let mut ledger = LedgerDevice::new(rt.alloc(), &[])?;
    for number in 1..4 {
        assert_eq!(rt; ledger.fresh_secret(), Ok(secret(number)));
    }
    Ok(())
}

/// What a caller that knows the trait alone gets: a checked signature, and one under a fresh key.
fn through_the_bound<D: KeyDevice>(
    device: &mut D,
    name: &KeyName,
) -> Result<(bool, Signature, KeyName, Signature), DeviceError> {
    let yes = sign_and_check(device, name, b"ab")?;
    let second = sign_for_log(device, name, b"ab")?;
    let (fresh, third) = sign_with_fresh_key(device, b"cd")?;
    let still = sign_among_others(device, name, b"ef", b"gh")?;
    Ok((yes && still, second, fresh, third))
}

#[test]
fn any_device(rt: HostRuntime) -> Result<(), Fail> {
    let mut ledger = LedgerDevice::new(rt.alloc(), &[key(0, 0)])?;
    assert_eq!(rt;
        through_the_bound(&mut ledger, &key(0, 0)),
        Ok((true, signature(0, 2), key(1, 1), signature(0, 3)))
    );
    assert_eq!(rt;
        through_the_bound(&mut ledger, &key(0, 9)),
        Err(DeviceError::NoKey)
    );
    for (name, answer) in [
        (key(0, 0), Ok(signature(0, 1))),
        (key(0, 9), Err(DeviceError::NoKey)),
    ] {
        assert_eq!(rt;
            sign_with_new_ledger(rt.alloc(), &[key(0, 0)], &name, b"ab"),
            answer
        );
    }
    Ok(())
}

#[test]
fn names_and_tables(rt: HostRuntime) -> Result<(), Fail> {
    let bytes = [7; 36];
    assert_eq!(rt; KeyName::from_slice(&bytes[..34]), None);
    assert_eq!(rt;
        KeyName::from_slice(&bytes[..35]),
        Some(KeyName { bytes: [7; 35] })
    );
    assert_eq!(rt; KeyName::from_slice(&bytes), None);

    let mut entries = Sequence::new(rt.alloc());
    for (method, name) in [
        ("urn:a", key(0, 1)),
        ("urn:b", key(0, 2)),
        ("urn:b", key(0, 3)),
    ] {
        entries.push(KeyEntry {
            method: Text::from_str(rt.alloc(), method)?,
            key: name,
        })?;
    }
    let table = KeyTable { entries };
    assert_eq!(rt; table.find("urn:a"), Some(key(0, 1)));
    assert_eq!(rt; table.find("urn:b"), Some(key(0, 2)));
    assert_eq!(rt; table.find("urn:"), None);
    Ok(())
}

#[test]
fn errors_say_why(rt: HostRuntime) -> Result<(), Fail> {
    let failed = DeviceError::Failed;
    assert_eq!(rt;
        format!(in rt.alloc(); "{failed}")?.as_str(),
        "the key device failed"
    );
    let no_key = DeviceError::NoKey;
    let line = "the key device does not own the key";
    assert_eq!(rt; format!(in rt.alloc(); "{no_key}")?.as_str(), line);
    let memory = DeviceError::Memory;
    assert_eq!(rt;
        format!(in rt.alloc(); "{memory}")?.as_str(),
        "out of memory"
    );
    Ok(())
}

/// The root of a device by HMAC.
const ROOT: &[u8; 32] = b"the root of keys, in 32 letters.";

/// The name with these first bytes and these behind them.
fn named(front: [u8; 3], rest: &[u8; 32]) -> KeyName {
    let mut bytes = [0; 35];
    bytes[..3].copy_from_slice(front.as_slice());
    bytes[3..].copy_from_slice(rest.as_slice());
    KeyName { bytes }
}

/// The name with these first bytes and then letters.
fn letters(front: [u8; 3]) -> KeyName {
    named(front, b"0123456789abcdef0123456789abcdef")
}

/// What `ROOT` signs `abc` with under a name that begins with 0, 0 and 1, as another implementation
/// makes it.
const OF_ABC: [u8; 64] = [
    0x64, 0x8e, 0x07, 0x34, 0x1b, 0xa3, 0x15, 0x68, 0x8e, 0x53, 0x99, 0x4e, 0x40, 0x3c, 0x1f, 0x11,
    0x74, 0xd5, 0x16, 0x56, 0xf9, 0x19, 0x6c, 0xbe, 0x97, 0x73, 0x9d, 0x59, 0x22, 0x51, 0xc1, 0xa6,
    0x0b, 0xa2, 0x2e, 0x00, 0xca, 0x98, 0x84, 0xc9, 0x1b, 0x01, 0xe4, 0xd2, 0xfe, 0x47, 0x30, 0x84,
    0x77, 0xc3, 0x8d, 0x82, 0x35, 0xa9, 0x3f, 0x69, 0x57, 0x06, 0x25, 0x8b, 0x0e, 0xf7, 0xe7, 0xf3,
];

/// The same of no bytes.
const OF_NOTHING: [u8; 64] = [
    0x91, 0x24, 0xdc, 0x55, 0xc1, 0x9b, 0x77, 0x9a, 0x66, 0xa1, 0x1c, 0x7c, 0x8d, 0x13, 0xa3, 0x31,
    0x86, 0x3c, 0xaa, 0x01, 0x34, 0x32, 0x04, 0x2b, 0xa1, 0x62, 0xef, 0x2b, 0x48, 0x5a, 0xe9, 0x7c,
    0x48, 0x0d, 0xeb, 0xec, 0x30, 0x5f, 0x47, 0xd1, 0x4d, 0xd3, 0x8b, 0xa4, 0x1a, 0xe8, 0x8f, 0x29,
    0xd5, 0x69, 0x0b, 0xe7, 0x57, 0x3d, 0x1d, 0x8b, 0x20, 0x32, 0x98, 0x2c, 0x34, 0xff, 0x1b, 0x63,
];

/// What would be the signature on `abc` under a name that begins with 0, 1 and 1.
const OF_SECOND_ONE: [u8; 64] = [
    0xf6, 0x8e, 0x3a, 0xa1, 0xb4, 0x45, 0x77, 0xa7, 0xcf, 0xf3, 0xd7, 0x98, 0x36, 0x49, 0x1d, 0x84,
    0xf4, 0x46, 0x16, 0x49, 0x23, 0x64, 0xe5, 0xa7, 0x1c, 0x8f, 0xa9, 0x89, 0x4f, 0x54, 0x84, 0xcd,
    0xe0, 0xe4, 0xb6, 0xbf, 0xe7, 0x89, 0x04, 0x05, 0x61, 0x43, 0xf0, 0xb7, 0xd5, 0x0a, 0xa3, 0x03,
    0x2d, 0x72, 0x4e, 0x54, 0x12, 0x9f, 0x7f, 0x86, 0x97, 0x70, 0xae, 0xf7, 0xfb, 0xc0, 0x2f, 0x56,
];

/// And under one that begins with 1, 0 and 1.
const OF_FIRST_ONE: [u8; 64] = [
    0xc4, 0xb3, 0xf4, 0x66, 0x46, 0x7d, 0xbb, 0x17, 0xa7, 0x75, 0xec, 0xf9, 0xd9, 0xd3, 0x73, 0x3a,
    0xfc, 0xb7, 0x73, 0xbe, 0x7f, 0xf2, 0x01, 0xe6, 0x84, 0x64, 0xab, 0x92, 0xbd, 0xf3, 0x78, 0xe0,
    0x09, 0x7a, 0x75, 0x44, 0xd6, 0xa3, 0xcd, 0x2b, 0x59, 0xa7, 0x74, 0xfe, 0x6d, 0xec, 0x4e, 0xa7,
    0x0b, 0x3c, 0x0b, 0x80, 0xca, 0x1e, 0x10, 0x61, 0x66, 0x14, 0xe2, 0xc1, 0x73, 0x50, 0xfe, 0x7f,
];

#[test]
fn signs_by_hmac(rt: HostRuntime) {
    let mut device = HmacDevice::new(*ROOT, [0; 32]);
    let own = letters([0, 0, 1]);
    let of_abc = Signature { bytes: OF_ABC };
    assert_eq!(rt; device.sign(&own, b"abc"), Ok(of_abc));
    assert_eq!(rt; device.sign(&own, b""), Ok(Signature { bytes: OF_NOTHING }));
    for front in [[0, 1, 1], [1, 0, 1], [1, 1, 1]] {
        assert_eq!(rt;
            device.sign(&letters(front), b"abc"),
            Err(DeviceError::NoKey)
        );
    }
    let mut exchanged = of_abc;
    let mut last_bit = of_abc;
    exchanged.bytes[..32].copy_from_slice(&OF_ABC[32..]);
    exchanged.bytes[32..].copy_from_slice(&OF_ABC[..32]);
    last_bit.bytes[63] ^= 1;
    let cases: [(&str, KeyName, &[u8], Signature, bool); 8] = [
        ("what it signed", own, b"abc", of_abc, true),
        ("other bytes", own, b"ab", of_abc, false),
        ("another name", letters([0, 0, 2]), b"abc", of_abc, false),
        ("the halves exchanged", own, b"abc", exchanged, false),
        ("another last bit", own, b"abc", last_bit, false),
        (
            "of other bytes",
            own,
            b"abc",
            Signature { bytes: OF_NOTHING },
            false,
        ),
        (
            "a name whose second byte is 1",
            letters([0, 1, 1]),
            b"abc",
            Signature {
                bytes: OF_SECOND_ONE,
            },
            false,
        ),
        (
            "a name whose first byte is 1",
            letters([1, 0, 1]),
            b"abc",
            Signature {
                bytes: OF_FIRST_ONE,
            },
            false,
        ),
    ];
    for (what, name, bytes, signature, accepted) in cases {
        assert_eq!(rt;
            device.check(&name, bytes, &signature),
            Ok(accepted),
            "at {what}"
        );
    }
    let mut with_other_seed = HmacDevice::new(*ROOT, [7; 32]);
    assert_eq!(rt; with_other_seed.check(&own, b"abc", &of_abc), Ok(true));
    let mut with_other_root = HmacDevice::new([7; 32], [0; 32]);
    assert_eq!(rt; with_other_root.check(&own, b"abc", &of_abc), Ok(false));
}

/// The key stream of ChaCha20 under a key of zeros: RFC 8439, A.1, test vectors 1 and 2.
const KEY_STREAM: [[u8; 32]; 4] = [
    [
        0x76, 0xb8, 0xe0, 0xad, 0xa0, 0xf1, 0x3d, 0x90, 0x40, 0x5d, 0x6a, 0xe5, 0x53, 0x86, 0xbd,
        0x28, 0xbd, 0xd2, 0x19, 0xb8, 0xa0, 0x8d, 0xed, 0x1a, 0xa8, 0x36, 0xef, 0xcc, 0x8b, 0x77,
        0x0d, 0xc7,
    ],
    [
        0xda, 0x41, 0x59, 0x7c, 0x51, 0x57, 0x48, 0x8d, 0x77, 0x24, 0xe0, 0x3f, 0xb8, 0xd8, 0x4a,
        0x37, 0x6a, 0x43, 0xb8, 0xf4, 0x15, 0x18, 0xa1, 0x1c, 0xc3, 0x87, 0xb6, 0x69, 0xb2, 0xee,
        0x65, 0x86,
    ],
    [
        0x9f, 0x07, 0xe7, 0xbe, 0x55, 0x51, 0x38, 0x7a, 0x98, 0xba, 0x97, 0x7c, 0x73, 0x2d, 0x08,
        0x0d, 0xcb, 0x0f, 0x29, 0xa0, 0x48, 0xe3, 0x65, 0x69, 0x12, 0xc6, 0x53, 0x3e, 0x32, 0xee,
        0x7a, 0xed,
    ],
    [
        0x29, 0xb7, 0x21, 0x76, 0x9c, 0xe6, 0x4e, 0x43, 0xd5, 0x71, 0x33, 0xb0, 0x74, 0xd8, 0x39,
        0xd5, 0x31, 0xed, 0x1f, 0x28, 0x51, 0x0a, 0xfb, 0x45, 0xac, 0xe1, 0x0a, 0x1f, 0x4b, 0x79,
        0x4d, 0x6f,
    ],
];

/// The front of its second block under the key that ends with a 1 behind zeros: test vector 3.
const SECOND_BLOCK: [u8; 32] = [
    0x3a, 0xeb, 0x52, 0x24, 0xec, 0xf8, 0x49, 0x92, 0x9b, 0x9d, 0x82, 0x8d, 0xb1, 0xce, 0xd4, 0xdd,
    0x83, 0x20, 0x25, 0xe8, 0x01, 0x8b, 0x81, 0x60, 0xb8, 0x22, 0x84, 0xf3, 0xc9, 0x49, 0xaa, 0x5a,
];

#[test]
fn draws_from_the_key_stream(rt: HostRuntime) {
    let mut device = HmacDevice::new(*ROOT, [0; 32]);
    for (secret, name) in [
        (KEY_STREAM[0], KEY_STREAM[1]),
        (KEY_STREAM[2], KEY_STREAM[3]),
    ] {
        assert_eq!(rt; device.fresh_secret(), Ok(secret));
        let fresh = named([0, 0, 1], &name);
        assert_eq!(rt; device.fresh_key(), Ok(fresh));
        assert!(rt; device.sign(&fresh, b"abc").is_ok());
    }
    let mut seed = [0; 32];
    seed[31] = 1;
    let mut other = HmacDevice::new(*ROOT, seed);
    for _ in 0..2 {
        assert!(rt; other.fresh_secret().is_ok());
    }
    assert_eq!(rt; other.fresh_secret(), Ok(SECOND_BLOCK));
}

#[test]
fn fails_at_the_listed_calls(rt: HostRuntime) -> Result<(), Fail> {
    let ledger = LedgerDevice::new(rt.alloc(), &[key(0, 0)])?;
    let fails = Vec::from_slice(rt.alloc(), &[2, 4, 5, 7])?;
    let mut device = FailingDevice::new(ledger, fails);
    let (own, mark) = (key(0, 0), signature(0, 1));
    assert_eq!(rt; device.sign(&own, b"ab"), Ok(mark));
    assert_eq!(rt; device.sign(&own, b"ab"), Err(DeviceError::Failed));
    assert_eq!(rt; device.check(&own, b"ab", &mark), Ok(true));
    assert_eq!(rt; device.check(&own, b"ab", &mark), Err(DeviceError::Failed));
    assert_eq!(rt; device.fresh_key(), Err(DeviceError::Failed));
    assert_eq!(rt; device.fresh_key(), Ok(key(1, 1)));
    assert_eq!(rt; device.fresh_secret(), Err(DeviceError::Failed));
    // the ledger was not asked where the device failed by itself: its numbers go on by one
    assert_eq!(rt; device.fresh_secret(), Ok(secret(1)));
    assert_eq!(rt; device.sign(&own, b"ab"), Ok(signature(0, 2)));
    assert_eq!(rt; device.sign(&key(0, 1), b"ab"), Err(DeviceError::NoKey));
    Ok(())
}

#[test]
fn fails_always(rt: HostRuntime) {
    let mut device = BrokenDevice::new();
    assert_eq!(rt; device.sign(&key(0, 0), b"ab"), Err(DeviceError::Failed));
    assert_eq!(rt;
        device.check(&key(0, 0), b"ab", &signature(0, 1)),
        Err(DeviceError::Failed)
    );
    assert_eq!(rt; device.fresh_key(), Err(DeviceError::Failed));
    assert_eq!(rt; device.fresh_secret(), Err(DeviceError::Failed));
}

#[test]
fn other_devices_through_the_bound(rt: HostRuntime) -> Result<(), Fail> {
    let mut by_hmac = HmacDevice::new(*ROOT, [0; 32]);
    let (yes, _, _, _) = through_the_bound(&mut by_hmac, &letters([0, 0, 1]))?;
    assert!(rt; yes);
    let ledger = LedgerDevice::new(rt.alloc(), &[key(0, 0)])?;
    let mut failing = FailingDevice::new(ledger, Vec::from_slice(rt.alloc(), &[3])?);
    assert_eq!(rt;
        through_the_bound(&mut failing, &key(0, 0)),
        Err(DeviceError::Failed)
    );
    assert_eq!(rt;
        through_the_bound(&mut failing, &key(0, 0)),
        Ok((true, signature(0, 3), key(1, 1), signature(0, 4)))
    );
    let mut over_broken = FailingDevice::new(BrokenDevice::new(), Vec::new(rt.alloc()));
    assert_eq!(rt;
        through_the_bound(&mut over_broken, &key(0, 0)),
        Err(DeviceError::Failed)
    );
    Ok(())
}
