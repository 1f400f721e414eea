//! Key files of one line and of two, and bytes that are none.

use crate::key_files::{KeyFile, key_file};
use nquads::Memory;
use std::alloc::Global;
use std::test::Fail;

/// The first line of a key file, and the bytes that it is of.
const ROOT_LINE: &str = "000102030405060708090a0b0c0d0e0f101112131415161718191a1b1c1d1e1f";

pub(crate) const ROOT: [u8; 32] = [
    0x00, 0x01, 0x02, 0x03, 0x04, 0x05, 0x06, 0x07, 0x08, 0x09, 0x0a, 0x0b, 0x0c, 0x0d, 0x0e, 0x0f,
    0x10, 0x11, 0x12, 0x13, 0x14, 0x15, 0x16, 0x17, 0x18, 0x19, 0x1a, 0x1b, 0x1c, 0x1d, 0x1e, 0x1f,
];

/// A second line, and its bytes.
const SEED_LINE: &str = "202122232425262728292a2b2c2d2e2f303132333435363738393a3b3c3d3e3f";

pub(crate) const SEED: [u8; 32] = [
    0x20, 0x21, 0x22, 0x23, 0x24, 0x25, 0x26, 0x27, 0x28, 0x29, 0x2a, 0x2b, 0x2c, 0x2d, 0x2e, 0x2f,
    0x30, 0x31, 0x32, 0x33, 0x34, 0x35, 0x36, 0x37, 0x38, 0x39, 0x3a, 0x3b, 0x3c, 0x3d, 0x3e, 0x3f,
];

/// Lines of 63 digits, with a letter in upper case and with one past `f`.
const SHORT_LINE: &str = "00102030405060708090a0b0c0d0e0f101112131415161718191a1b1c1d1e1f";

const UPPER_LINE: &str = "000102030405060708090a0b0c0d0e0f101112131415161718191a1b1c1d1e1F";

const OTHER_LINE: &str = "000102030405060708090a0b0c0d0e0f101112131415161718191a1b1c1d1e1g";

/// The bytes of these texts, one after the other.
fn joined(alloc: Global, parts: &[&str]) -> Result<Vec<u8>, Memory> {
    let mut bytes = Vec::new(alloc);
    for part in parts {
        bytes.extend_from_slice(part.as_bytes())?;
    }
    Ok(bytes)
}

#[test]
fn key_files(rt: HostRuntime) -> Result<(), Fail> {
    let one_line = Some(KeyFile {
        root: ROOT,
        seed: None,
    });
    let two_lines = Some(KeyFile {
        root: ROOT,
        seed: Some(SEED),
    });
    let cases: [(&str, &[&str], Option<KeyFile>); 19] = [
        ("64 digits", &[ROOT_LINE], one_line),
        ("64 digits and LF", &[ROOT_LINE, "\n"], one_line),
        ("two lines", &[ROOT_LINE, "\n", SEED_LINE], two_lines),
        (
            "two lines with LF",
            &[ROOT_LINE, "\n", SEED_LINE, "\n"],
            two_lines,
        ),
        ("no byte", &[], None),
        ("LF alone", &["\n"], None),
        ("63 digits", &[SHORT_LINE], None),
        ("63 digits and LF", &[SHORT_LINE, "\n"], None),
        ("65 digits", &[ROOT_LINE, "0"], None),
        ("upper case", &[UPPER_LINE], None),
        ("a letter past f", &[OTHER_LINE], None),
        ("CR and LF", &[ROOT_LINE, "\r\n"], None),
        ("two LFs", &[ROOT_LINE, "\n\n"], None),
        ("LF first", &["\n", ROOT_LINE], None),
        ("no LF between two lines", &[ROOT_LINE, SEED_LINE], None),
        (
            "a space between two lines",
            &[ROOT_LINE, " ", SEED_LINE],
            None,
        ),
        (
            "a second line of 63 digits",
            &[ROOT_LINE, "\n", SHORT_LINE, "\n"],
            None,
        ),
        (
            "a second line in upper case",
            &[ROOT_LINE, "\n", UPPER_LINE],
            None,
        ),
        (
            "three lines",
            &[ROOT_LINE, "\n", SEED_LINE, "\n", ROOT_LINE],
            None,
        ),
    ];
    for (what, parts, file) in cases {
        let bytes = joined(rt.alloc(), parts)?;
        assert!(rt; key_file(&bytes) == file, "at {what}");
    }
    Ok(())
}
