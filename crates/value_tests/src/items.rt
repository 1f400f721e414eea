//! Refusals and their texts, limits, and the examples of RFC 8949, appendix A.

use cbor_core::{CborFault, Item, decode, encode, head};
use std::test::Fail;

/// The rows of RFC 8949, appendix A, that lie outside of the grammar: negative numbers, floats, simple
/// values, tags, keys that are texts, and indefinite lengths. Each is refused at the first head of
/// such a kind.
#[test]
fn appendix_a_outside(rt: HostRuntime) {
    let cases: [(&str, &[u8], u64); 55] = [
        (
            "18446744073709551616",
            b"\xc2\x49\x01\x00\x00\x00\x00\x00\x00\x00\x00",
            0,
        ),
        (
            "-18446744073709551616",
            b"\x3b\xff\xff\xff\xff\xff\xff\xff\xff",
            0,
        ),
        (
            "-18446744073709551617",
            b"\xc3\x49\x01\x00\x00\x00\x00\x00\x00\x00\x00",
            0,
        ),
        ("-1", b"\x20", 0),
        ("-10", b"\x29", 0),
        ("-100", b"\x38\x63", 0),
        ("-1000", b"\x39\x03\xe7", 0),
        ("0.0", b"\xf9\x00\x00", 0),
        ("-0.0", b"\xf9\x80\x00", 0),
        ("1.0", b"\xf9\x3c\x00", 0),
        ("1.1", b"\xfb\x3f\xf1\x99\x99\x99\x99\x99\x9a", 0),
        ("1.5", b"\xf9\x3e\x00", 0),
        ("65504.0", b"\xf9\x7b\xff", 0),
        ("100000.0", b"\xfa\x47\xc3\x50\x00", 0),
        ("3.4028234663852886e+38", b"\xfa\x7f\x7f\xff\xff", 0),
        ("1.0e+300", b"\xfb\x7e\x37\xe4\x3c\x88\x00\x75\x9c", 0),
        ("5.960464477539063e-8", b"\xf9\x00\x01", 0),
        ("0.00006103515625", b"\xf9\x04\x00", 0),
        ("-4.0", b"\xf9\xc4\x00", 0),
        ("-4.1", b"\xfb\xc0\x10\x66\x66\x66\x66\x66\x66", 0),
        ("Infinity", b"\xf9\x7c\x00", 0),
        ("NaN", b"\xf9\x7e\x00", 0),
        ("-Infinity", b"\xf9\xfc\x00", 0),
        ("Infinity, 4 bytes", b"\xfa\x7f\x80\x00\x00", 0),
        ("NaN, 4 bytes", b"\xfa\x7f\xc0\x00\x00", 0),
        ("-Infinity, 4 bytes", b"\xfa\xff\x80\x00\x00", 0),
        (
            "Infinity, 8 bytes",
            b"\xfb\x7f\xf0\x00\x00\x00\x00\x00\x00",
            0,
        ),
        ("NaN, 8 bytes", b"\xfb\x7f\xf8\x00\x00\x00\x00\x00\x00", 0),
        (
            "-Infinity, 8 bytes",
            b"\xfb\xff\xf0\x00\x00\x00\x00\x00\x00",
            0,
        ),
        ("false", b"\xf4", 0),
        ("true", b"\xf5", 0),
        ("null", b"\xf6", 0),
        ("undefined", b"\xf7", 0),
        ("simple(16)", b"\xf0", 0),
        ("simple(255)", b"\xf8\xff", 0),
        (
            r#"0("2013-03-21T20:04:00Z")"#,
            b"\xc0\x74\x32\x30\x31\x33\x2d\x30\x33\x2d\x32\x31\x54\x32\x30\x3a\x30\x34\x3a\x30\x30\x5a",
            0,
        ),
        ("1(1363896240)", b"\xc1\x1a\x51\x4b\x67\xb0", 0),
        (
            "1(1363896240.5)",
            b"\xc1\xfb\x41\xd4\x52\xd9\xec\x20\x00\x00",
            0,
        ),
        ("23(h'01020304')", b"\xd7\x44\x01\x02\x03\x04", 0),
        ("24(h'6449455446')", b"\xd8\x18\x45\x64\x49\x45\x54\x46", 0),
        (
            r#"32("http://www.example.com")"#,
            b"\xd8\x20\x76\x68\x74\x74\x70\x3a\x2f\x2f\x77\x77\x77\x2e\x65\x78\x61\x6d\x70\x6c\x65\x2e\x63\x6f\x6d",
            0,
        ),
        (
            r#"{"a": 1, "b": [2, 3]}"#,
            b"\xa2\x61\x61\x01\x61\x62\x82\x02\x03",
            1,
        ),
        (
            r#"["a", {"b": "c"}]"#,
            b"\x82\x61\x61\xa1\x61\x62\x61\x63",
            4,
        ),
        (
            r#"{"a": "A", .. "e": "E"}"#,
            b"\xa5\x61\x61\x61\x41\x61\x62\x61\x42\x61\x63\x61\x43\x61\x64\x61\x44\x61\x65\x61\x45",
            1,
        ),
        (
            "(_ h'0102', h'030405')",
            b"\x5f\x42\x01\x02\x43\x03\x04\x05\xff",
            0,
        ),
        (
            r#"(_ "strea", "ming")"#,
            b"\x7f\x65\x73\x74\x72\x65\x61\x64\x6d\x69\x6e\x67\xff",
            0,
        ),
        ("[_ ]", b"\x9f\xff", 0),
        (
            "[_ 1, [2, 3], [_ 4, 5]]",
            b"\x9f\x01\x82\x02\x03\x9f\x04\x05\xff\xff",
            0,
        ),
        (
            "[_ 1, [2, 3], [4, 5]]",
            b"\x9f\x01\x82\x02\x03\x82\x04\x05\xff",
            0,
        ),
        (
            "[1, [2, 3], [_ 4, 5]]",
            b"\x83\x01\x82\x02\x03\x9f\x04\x05\xff",
            5,
        ),
        (
            "[1, [_ 2, 3], [4, 5]]",
            b"\x83\x01\x9f\x02\x03\xff\x82\x04\x05",
            2,
        ),
        (
            "[_ 1, 2, .. 25]",
            b"\x9f\x01\x02\x03\x04\x05\x06\x07\x08\x09\x0a\x0b\x0c\x0d\x0e\x0f\x10\x11\x12\x13\x14\x15\x16\x17\x18\x18\x18\x19\xff",
            0,
        ),
        (
            r#"{_ "a": 1, "b": [_ 2, 3]}"#,
            b"\xbf\x61\x61\x01\x61\x62\x9f\x02\x03\xff\xff",
            0,
        ),
        (
            r#"["a", {_ "b": "c"}]"#,
            b"\x82\x61\x61\xbf\x61\x62\x61\x63\xff",
            3,
        ),
        (
            r#"{_ "Fun": true, "Amt": -2}"#,
            b"\xbf\x63\x46\x75\x6e\xf5\x63\x41\x6d\x74\x21\xff",
            0,
        ),
    ];
    for (name, bytes, at) in cases {
        let fault = decode(rt.alloc(), bytes).err();
        assert!(rt; fault == Some(CborFault::Forbidden(at)), "at {name}");
    }
}

/// The rows that lie in the grammar, and lists as deep as they may nest: each is read, and written as
/// it stands.
#[test]
fn appendix_a_inside(rt: HostRuntime) -> Result<(), Fail> {
    let cases: [(&str, &[u8]); 27] = [
        ("0", b"\x00"),
        ("1", b"\x01"),
        ("10", b"\x0a"),
        ("23", b"\x17"),
        ("24", b"\x18\x18"),
        ("25", b"\x18\x19"),
        ("100", b"\x18\x64"),
        ("1000", b"\x19\x03\xe8"),
        ("1000000", b"\x1a\x00\x0f\x42\x40"),
        ("1000000000000", b"\x1b\x00\x00\x00\xe8\xd4\xa5\x10\x00"),
        (
            "18446744073709551615",
            b"\x1b\xff\xff\xff\xff\xff\xff\xff\xff",
        ),
        ("h''", b"\x40"),
        ("h'01020304'", b"\x44\x01\x02\x03\x04"),
        (r#""""#, b"\x60"),
        (r#""a""#, b"\x61\x61"),
        (r#""IETF""#, b"\x64\x49\x45\x54\x46"),
        (r#""\"\\""#, b"\x62\x22\x5c"),
        (r#""\u00fc""#, b"\x62\xc3\xbc"),
        (r#""\u6c34""#, b"\x63\xe6\xb0\xb4"),
        (r#""\ud800\udd51""#, b"\x64\xf0\x90\x85\x91"),
        ("[]", b"\x80"),
        ("[1, 2, 3]", b"\x83\x01\x02\x03"),
        ("[1, [2, 3], [4, 5]]", b"\x83\x01\x82\x02\x03\x82\x04\x05"),
        (
            "[1, 2, .. 25]",
            b"\x98\x19\x01\x02\x03\x04\x05\x06\x07\x08\x09\x0a\x0b\x0c\x0d\x0e\x0f\x10\x11\x12\x13\x14\x15\x16\x17\x18\x18\x18\x19",
        ),
        ("{}", b"\xa0"),
        ("{1: 2, 3: 4}", b"\xa2\x01\x02\x03\x04"),
        ("four deep", b"\x81\x81\x81\x80"),
    ];
    for (name, bytes) in cases {
        let item = decode(rt.alloc(), bytes)
            .ok()
            .ok_or("an example of the standard")?;
        let written = encode(rt.alloc(), &item).ok().ok_or("memory")?;
        assert!(rt; written.as_slice() == bytes, "at {name}");
    }
    Ok(())
}

/// The refusals beside these, each at the first place from the left where it is known.
#[test]
fn refusals(rt: HostRuntime) {
    let cases: [(&str, &[u8], CborFault); 27] = [
        ("no byte", b"", CborFault::Truncated(0)),
        ("a second item", b"\x00\x00", CborFault::Trailing(1)),
        ("code 24, no argument", b"\x18", CborFault::Truncated(1)),
        (
            "code 24, an argument below 24",
            b"\x18\x17",
            CborFault::NotShortest(0),
        ),
        (
            "code 25, a byte missing",
            b"\x19\x01",
            CborFault::Truncated(2),
        ),
        (
            "code 25, cut, not the shortest",
            b"\x19\x00",
            CborFault::Truncated(2),
        ),
        (
            "code 25, below 2^8",
            b"\x19\x00\xff",
            CborFault::NotShortest(0),
        ),
        (
            "code 26, below 2^16",
            b"\x1a\x00\x00\xff\xff",
            CborFault::NotShortest(0),
        ),
        (
            "code 27, below 2^32",
            b"\x1b\x00\x00\x00\x00\xff\xff\xff\xff",
            CborFault::NotShortest(0),
        ),
        (
            "code 27, a byte missing",
            b"\x1b\x00\x00\x00\x01\x00\x00\x00",
            CborFault::Truncated(8),
        ),
        ("code 28", b"\x1c", CborFault::Forbidden(0)),
        ("code 31", b"\x1f\x00", CborFault::Forbidden(0)),
        ("a tag", b"\xc0\x00", CborFault::Forbidden(0)),
        (
            "a length that is not the shortest",
            b"\x81\x58\x17",
            CborFault::NotShortest(1),
        ),
        (
            "a text that is not UTF-8",
            b"\x81\x62\xc3\x28",
            CborFault::Forbidden(1),
        ),
        ("a text that is cut", b"\x62\xff", CborFault::Truncated(2)),
        (
            "a key that is a byte string",
            b"\xa1\x40\x00",
            CborFault::Forbidden(1),
        ),
        (
            "five lists deep",
            b"\x81\x81\x81\x81\x80",
            CborFault::Forbidden(4),
        ),
        (
            "a map five deep",
            b"\xa1\x00\x81\x81\x81\xa0",
            CborFault::Forbidden(5),
        ),
        (
            "a key twice",
            b"\xa2\x00\x40\x00\x40",
            CborFault::RepeatedKey(3),
        ),
        (
            "a key twice, its value missing",
            b"\xa2\x00\x40\x00",
            CborFault::RepeatedKey(3),
        ),
        (
            "a key twice, not the shortest",
            b"\xa2\x00\x40\x18\x00\x40",
            CborFault::NotShortest(3),
        ),
        (
            "forbidden before the end",
            b"\x82\x20",
            CborFault::Forbidden(1),
        ),
        (
            "2^63 items",
            b"\x9b\x80\x00\x00\x00\x00\x00\x00\x00\x00",
            CborFault::Truncated(10),
        ),
        (
            "2^64 - 1 bytes",
            b"\x5b\xff\xff\xff\xff\xff\xff\xff\xff\x00",
            CborFault::Truncated(10),
        ),
        (
            "2^63 pairs",
            b"\xbb\x80\x00\x00\x00\x00\x00\x00\x00\x00",
            CborFault::Truncated(10),
        ),
        ("a value missing", b"\xa1\x00", CborFault::Truncated(2)),
    ];
    for (name, bytes, want) in cases {
        assert!(rt; decode(rt.alloc(), bytes).err() == Some(want), "at {name}");
    }
}

/// A list that claims so many items, with so many zeros.
fn list_of(rt: &HostRuntime, claim: u32, zeros: u32) -> Result<Vec<u8>, Fail> {
    let mut bytes = vec![in rt.alloc(); 0x9a]?;
    bytes.extend_from_slice(&claim.to_be_bytes())?;
    for _ in 0..zeros {
        bytes.push(0)?;
    }
    Ok(bytes)
}

/// A map from so many numbers, those from 0, to zeros.
fn map_of(rt: &HostRuntime, pairs: u16) -> Result<Vec<u8>, Fail> {
    let mut bytes = vec![in rt.alloc(); 0xb9]?;
    bytes.extend_from_slice(&pairs.to_be_bytes())?;
    for key in 0..pairs {
        let head = head(0, key as u64);
        for byte in head.bytes.iter().take(head.len as usize) {
            bytes.push(*byte)?;
        }
        bytes.push(0)?;
    }
    Ok(bytes)
}

/// At most 100,000 items begin, the list and the map themselves and keys counted.
#[test]
fn items_are_counted(rt: HostRuntime) -> Result<(), Fail> {
    let all = decode(rt.alloc(), list_of(&rt, 99_999, 99_999)?.as_slice());
    assert!(rt; matches!(&all, Ok(Item::List(items)) if items.len() == 99_999));
    let map = decode(rt.alloc(), map_of(&rt, 49_999)?.as_slice());
    assert!(rt; matches!(&map, Ok(Item::Map(pairs)) if pairs.len() == 49_999));
    let cases: [(&str, Vec<u8>, CborFault); 4] = [
        (
            "100,000 items",
            list_of(&rt, 100_000, 100_000)?,
            CborFault::TooMany,
        ),
        (
            "100,000 items, 99,999 there",
            list_of(&rt, 100_000, 99_999)?,
            CborFault::Truncated(100_004),
        ),
        (
            "99,999 items, 99,998 there",
            list_of(&rt, 99_999, 99_998)?,
            CborFault::Truncated(100_003),
        ),
        ("50,000 pairs", map_of(&rt, 50_000)?, CborFault::TooMany),
    ];
    for (name, bytes, want) in cases {
        assert!(rt; decode(rt.alloc(), &bytes).err() == Some(want), "at {name}");
    }
    Ok(())
}

/// The numbers of RFC 8949, appendix A, by their heads, and heads of other major types.
#[test]
fn heads(rt: HostRuntime) {
    let cases: [(u8, u64, &[u8]); 12] = [
        (0, 0, b"\x00"),
        (0, 23, b"\x17"),
        (0, 24, b"\x18\x18"),
        (0, 100, b"\x18\x64"),
        (0, 255, b"\x18\xff"),
        (0, 256, b"\x19\x01\x00"),
        (0, 1000, b"\x19\x03\xe8"),
        (0, 1_000_000, b"\x1a\x00\x0f\x42\x40"),
        (
            0,
            1_000_000_000_000,
            b"\x1b\x00\x00\x00\xe8\xd4\xa5\x10\x00",
        ),
        (0, u64::MAX, b"\x1b\xff\xff\xff\xff\xff\xff\xff\xff"),
        (2, 64, b"\x58\x40"),
        (6, 0x5d00, b"\xd9\x5d\x00"),
    ];
    for (major, value, want) in cases {
        if major < 8 {
            let head = head(major, value);
            assert!(rt; head.len <= 9);
            assert!(rt; &head.bytes[..head.len as usize] == want, "at {value}");
        }
        if major == 0 {
            let item = decode(rt.alloc(), want);
            assert!(rt;
                matches!(item, Ok(Item::Whole(read)) if read == value),
                "at {value}"
            );
        }
    }
}

/// The heads of whole numbers rise by their bytes as the numbers do, so that keys sorted by number are
/// sorted as RFC 8949, 4.2.1 has it.
#[test]
fn heads_rise(rt: HostRuntime) {
    let numbers: [u64; 11] = [
        0,
        1,
        23,
        24,
        255,
        256,
        65_535,
        65_536,
        4_294_967_295,
        4_294_967_296,
        u64::MAX,
    ];
    for (low, high) in numbers.iter().zip(numbers.iter().skip(1)) {
        let below = head(0, *low);
        let above = head(0, *high);
        assert!(rt; below.bytes.as_slice() < above.bytes.as_slice(), "at {low}");
    }
}

/// What a map holds, by rising keys, in whatever order it was spelled.
#[test]
fn values_of_a_map(rt: HostRuntime) -> Result<(), Fail> {
    let spelled: &[u8] = b"\xa3\x18\x19\x41\x0b\x00\x61\x6e\x01\x82\x07\x40";
    let item = decode(rt.alloc(), spelled).ok().ok_or("a map")?;
    let Item::Map(pairs) = &item else {
        return Err("no map".into());
    };
    let [first, second, third] = pairs.as_slice() else {
        return Err("not three pairs".into());
    };
    assert!(rt; (first.key, second.key, third.key) == (0, 1, 25));
    assert!(rt; matches!(&first.value, Item::Text(text) if text.as_str() == "n"));
    assert!(rt; matches!(&third.value, Item::Blob(bytes) if bytes.as_slice() == [11].as_slice()));
    let Item::List(items) = &second.value else {
        return Err("no list".into());
    };
    let [seven, empty] = items.as_slice() else {
        return Err("not two items".into());
    };
    assert!(rt; matches!(seven, Item::Whole(7)));
    assert!(rt; matches!(empty, Item::Blob(bytes) if bytes.is_empty()));
    let written = encode(rt.alloc(), &item).ok().ok_or("memory")?;
    let by_keys: &[u8] = b"\xa3\x00\x61\x6e\x01\x82\x07\x40\x18\x19\x41\x0b";
    assert!(rt; written.as_slice() == by_keys);
    Ok(())
}

/// The line of each fault.
#[test]
fn lines_of_faults(rt: HostRuntime) -> Result<(), Fail> {
    let cases: [(CborFault, &str); 7] = [
        (
            CborFault::Truncated(7),
            "the input ends at byte 7, inside an item",
        ),
        (
            CborFault::NotShortest(0),
            "the head at byte 0 has a shorter spelling",
        ),
        (
            CborFault::Forbidden(12),
            "what begins at byte 12 may not stand there",
        ),
        (
            CborFault::RepeatedKey(3),
            "the key at byte 3 stands in its map before",
        ),
        (
            CborFault::Trailing(u64::MAX),
            "bytes follow the item, from byte 18446744073709551615 on",
        ),
        (CborFault::TooMany, "more than 100,000 items begin"),
        (CborFault::Memory, "out of memory"),
    ];
    for (fault, want) in cases {
        let line = fault.to_string(rt.alloc())?;
        assert!(rt; line.as_str() == want);
    }
    Ok(())
}

/// Keys are sorted as numbers and not as texts: 2 comes before 10.
#[test]
fn keys_are_sorted_as_numbers(rt: HostRuntime) -> Result<(), Fail> {
    let spelled: &[u8] = b"\xa2\x0a\x40\x02\x80";
    let item = decode(rt.alloc(), spelled).ok().ok_or("a map")?;
    let Item::Map(pairs) = &item else {
        return Err("no map".into());
    };
    let [first, second] = pairs.as_slice() else {
        return Err("not two pairs".into());
    };
    assert!(rt; (first.key, second.key) == (2, 10));
    let written = encode(rt.alloc(), &item).ok().ok_or("memory")?;
    let by_keys: &[u8] = b"\xa2\x02\x80\x0a\x40";
    assert!(rt; written.as_slice() == by_keys);
    Ok(())
}

/// Of these items no two are equal, and each is equal to itself.
#[test]
fn items_are_compared(rt: HostRuntime) -> Result<(), Fail> {
    let spellings: [&[u8]; 13] = [
        b"\x00",
        b"\x01",
        b"\x40",
        b"\x60",
        b"\x41\x61",
        b"\x61\x61",
        b"\x80",
        b"\xa0",
        b"\x81\x00",
        b"\x82\x00\x00",
        b"\xa1\x00\x00",
        b"\xa1\x00\x01",
        b"\xa1\x01\x00",
    ];
    for (i, first) in spellings.iter().enumerate() {
        let item = decode(rt.alloc(), first).ok().ok_or("an item")?;
        for (j, second) in spellings.iter().enumerate() {
            let other = decode(rt.alloc(), second).ok().ok_or("an item")?;
            assert!(rt; (item == other) == (i == j), "at {i} and {j}");
        }
    }
    Ok(())
}

/// A map is equal to the same entries in another order.
#[test]
fn maps_are_compared(rt: HostRuntime) -> Result<(), Fail> {
    let falling: &[u8] = b"\xa3\x18\x19\x41\x0b\x00\x61\x6e\x01\x82\x07\x40";
    let rising: &[u8] = b"\xa3\x00\x61\x6e\x01\x82\x07\x40\x18\x19\x41\x0b";
    let item = decode(rt.alloc(), falling).ok().ok_or("a map")?;
    let other = decode(rt.alloc(), rising).ok().ok_or("a map")?;
    assert!(rt; item == other);
    Ok(())
}
