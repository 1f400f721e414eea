//! The examples of FIPS 180-4 and the empty message, the keyed digests of RFC 4231, and keys about as
//! long as a block, as another implementation gives them.

use digest_mac::{Hash, digest_hex, digest_of, hmac, label_text, sha256, sha256_hex};
use std::test::Fail;

/// Messages with the digits of their digests, as other implementations print them.
const DIGESTS: [(&[u8], &[u8; 64]); 4] = [
    (
        b"",
        b"e3b0c44298fc1c149afbf4c8996fb92427ae41e4649b934ca495991b7852b855",
    ),
    (
        b"abc",
        b"ba7816bf8f01cfea414140de5dae2223b00361a396177a9cb410ff61f20015ad",
    ),
    (
        b"abcdbcdecdefdefgefghfghighijhijkijkljklmklmnlmnomnopnopq",
        b"248d6a61d20638b8e5c026930c3e6039a33ce45964ff2167f6ecedd419db06c1",
    ),
    (
        b"abcdefghbcdefghicdefghijdefghijkefghijklfghijklmghijklmnhijklmnoijklmnopjklmnopqklmnopqrlmnopqrsmnopqrstnopqrstu",
        b"cf5b16a778af8380036ce59e7b0492370b249b11e8f07a51afac45037afee9d1",
    ),
];

#[test]
fn known_digests(rt: HostRuntime) {
    for row in &DIGESTS {
        let (message, digits) = *row;
        assert_eq!(rt; sha256_hex(message), *digits);
    }
    assert_eq!(rt;
        sha256(b"abc"),
        [
            0xba, 0x78, 0x16, 0xbf, 0x8f, 0x01, 0xcf, 0xea, 0x41, 0x41, 0x40, 0xde, 0x5d, 0xae,
            0x22, 0x23, 0xb0, 0x03, 0x61, 0xa3, 0x96, 0x17, 0x7a, 0x9c, 0xb4, 0x10, 0xff, 0x61,
            0xf2, 0x00, 0x15, 0xad
        ]
    );
}

/// Messages with the digits of their SHA-384 digests, as other implementations print them.
const LONG_DIGESTS: [(&[u8], &str); 3] = [
    (
        b"",
        "38b060a751ac96384cd9327eb1b1e36a21fdb71114be07434c0cc7bf63f6e1da274edebfe76f65fbd51ad2f14898b95b",
    ),
    (
        b"abc",
        "cb00753f45a35e8bb5a03d699ac65007272c32ab0eded1631a8b605a43ff5bed8086072ba1e7cc2358baeca134c825a7",
    ),
    (
        b"abcdefghbcdefghicdefghijdefghijkefghijklfghijklmghijklmnhijklmnoijklmnopjklmnopqklmnopqrlmnopqrsmnopqrstnopqrstu",
        "09330c33f71147e83d192fc782cd1b4753111b173b3b05d22fa08086e3b0f712fcc7c71a557e2db966c3e9fa91746039",
    ),
];

#[test]
fn digests_by_either_hash(rt: HostRuntime) -> Result<(), Fail> {
    for row in &DIGESTS {
        let (message, digits) = *row;
        let digest = digest_hex(Hash::Sha256, message);
        assert_eq!(rt; digest.as_str().as_bytes(), digits.as_slice());
        assert_eq!(rt;
            digest_of(Hash::Sha256, message).as_slice(),
            sha256(message).as_slice()
        );
    }
    for row in &LONG_DIGESTS {
        let (message, digits) = *row;
        let digest = digest_hex(Hash::Sha384, message);
        assert_eq!(rt; digest.as_str(), digits);
        let bytes = digest_of(Hash::Sha384, message);
        assert_eq!(rt; hex::encode(rt.alloc(), bytes.as_slice())?.as_str(), digits);
    }
    Ok(())
}

#[test]
fn sizes_and_order(rt: HostRuntime) {
    let sizes = [
        Hash::Sha256.digest_size(),
        Hash::Sha256.block_size(),
        Hash::Sha384.digest_size(),
        Hash::Sha384.block_size(),
    ];
    assert_eq!(rt; sizes, [32, 64, 48, 128]);
    let abc = digest_hex(Hash::Sha256, b"abc");
    let copied = abc;
    assert_eq!(rt; copied, abc);
    assert!(rt; abc < digest_hex(Hash::Sha384, b"abc"));
    assert!(rt; abc < digest_hex(Hash::Sha256, b""));
    assert!(rt; digest_of(Hash::Sha256, b"abc") != digest_of(Hash::Sha384, b"abc"));
}

/// A key, a text, and the digits of their keyed digests by SHA-256 and SHA-384: the test cases 1, 2, 3,
/// 4, 6 and 7 of RFC 4231, and keys of a block and a byte more.
const KEYED_DIGESTS: [(&[u8], &[u8], &str, &str); 10] = [
    (
        &[0x0b; 20],
        b"Hi There",
        "b0344c61d8db38535ca8afceaf0bf12b881dc200c9833da726e9376c2e32cff7",
        "afd03944d84895626b0825f4ab46907f15f9dadbe4101ec682aa034c7cebc59cfaea9ea9076ede7f4af152e8b2fa9cb6",
    ),
    (
        b"Jefe",
        b"what do ya want for nothing?",
        "5bdcc146bf60754e6a042426089575c75a003f089d2739839dec58b964ec3843",
        "af45d2e376484031617f78d2b58a6b1b9c7ef464f5a01b47e42ec3736322445e8e2240ca5e69e2c78b3239ecfab21649",
    ),
    (
        &[0xaa; 20],
        &[0xdd; 50],
        "773ea91e36800e46854db8ebd09181a72959098b3ef8c122d9635514ced565fe",
        "88062608d3e6ad8a0aa2ace014c8a86f0aa635d947ac9febe83ef4e55966144b2a5ab39dc13814b94e3ab6e101a34f27",
    ),
    (
        &[
            0x01, 0x02, 0x03, 0x04, 0x05, 0x06, 0x07, 0x08, 0x09, 0x0a, 0x0b, 0x0c, 0x0d, 0x0e,
            0x0f, 0x10, 0x11, 0x12, 0x13, 0x14, 0x15, 0x16, 0x17, 0x18, 0x19,
        ],
        &[0xcd; 50],
        "82558a389a443c0ea4cc819899f2083a85f0faa3e578f8077a2e3ff46729665b",
        "3e8a69b7783c25851933ab6290af6ca77a9981480850009cc5577c6e1f573b4e6801dd23c4a7d679ccf8a386c674cffb",
    ),
    (
        &[0xaa; 131],
        b"Test Using Larger Than Block-Size Key - Hash Key First",
        "60e431591ee0b67f0d8a26aacbf5b77f8e0bc6213728c5140546040f0ee37f54",
        "4ece084485813e9088d2c63a041bc5b44f9ef1012a2b588f3cd11f05033ac4c60c2ef6ab4030fe8296248df163f44952",
    ),
    (
        &[0xaa; 131],
        b"This is a test using a larger than block-size key and a larger than block-size data. The key needs to be hashed before being used by the HMAC algorithm.",
        "9b09ffa71b942fcb27635fbcd5b0e944bfdc63644f0713938a7f51535c3a35e2",
        "6617178e941f020d351e2f254e8fd32c602420feb0b8fb9adccebb82461e99c5a678cc31e799176d3860e6110c46523e",
    ),
    (
        &[b'k'; 64],
        b"text",
        "0414bb1d8c0c4556cdb2028727b16610ae377b1a194b6db1f853d4297f2329bc",
        "0ac83449db0cb2f0367c9e0dc122ac2d0385a7d2e073885f453f9db8588fba70bb1917e77ce1b7af3016a6f05168727d",
    ),
    (
        &[b'k'; 65],
        b"text",
        "5b69580123e3d7e788b7e8352ac37a3247b911c5ec0837147b74109a6382d3f5",
        "4802abe4f34faef13cd9bb3940fcde8adcc4188d35899001404990742019944c211ad1aaaa9a107609aa54ae33c77c23",
    ),
    (
        &[b'k'; 128],
        b"text",
        "45e99812fad5e4a011b7eaeade4d079afb74236bde40538797cdcb7bf32c4112",
        "a7d9402ab1fa09cab60ef3e7e8012e22b1df7effff5676dd8bbfe6d282da409d9de388a17101e1ccd100d9a560299136",
    ),
    (
        &[b'k'; 129],
        b"text",
        "95ef5ad24165eaeb8756fa950601736fa9f2113623a6bcad936f934bec337d65",
        "0f898869d8a5a7a840f71677fa38989015860be6336603c4eb31286872e4f3f431c63f04f207084aa600d645bc3505a6",
    ),
];

#[test]
fn known_keyed_digests(rt: HostRuntime) -> Result<(), Fail> {
    let alloc = rt.alloc();
    for row in &KEYED_DIGESTS {
        let (key, text, short, long) = *row;
        let digest = hmac(Hash::Sha256, key, text, b"");
        assert_eq!(rt; hex::encode(alloc, digest.as_slice())?.as_str(), short);
        let digest = hmac(Hash::Sha384, key, b"", text);
        assert_eq!(rt; hex::encode(alloc, digest.as_slice())?.as_str(), long);
    }
    Ok(())
}

#[test]
fn a_text_in_two_pieces(rt: HostRuntime) {
    let text = b"what do ya want for nothing?";
    for hash in [Hash::Sha256, Hash::Sha384] {
        let whole = hmac(hash, b"Jefe", text, b"");
        for place in 0..=text.len() {
            let (first, second) = text.split_at(place);
            assert_eq!(rt; hmac(hash, b"Jefe", first, second), whole);
        }
    }
}

/// Bytes with their labels, as another implementation prints them.
const LABELS: [(&[u8], &str); 10] = [
    (b"", "u"),
    (b"f", "uZg"),
    (b"fo", "uZm8"),
    (b"foo", "uZm9v"),
    (b"foob", "uZm9vYg"),
    (b"fooba", "uZm9vYmE"),
    (b"foobar", "uZm9vYmFy"),
    (&[0x3e, 0x3f, 0xfe, 0xff], "uPj_-_w"),
    (&[0xff; 32], "u__________________________________________8"),
    (
        &[0; 48],
        "uAAAAAAAAAAAAAAAAAAAAAAAAAAAAAAAAAAAAAAAAAAAAAAAAAAAAAAAAAAAAAAAA",
    ),
];

#[test]
fn known_labels(rt: HostRuntime) -> Result<(), Fail> {
    for row in &LABELS {
        let (bytes, label) = *row;
        assert_eq!(rt; label_text(rt.alloc(), bytes)?.as_str(), label);
    }
    Ok(())
}
