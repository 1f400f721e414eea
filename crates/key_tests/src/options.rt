//! Stamps beside the instants that Python's `datetime` gives them, and options whose fields leave
//! their shape one by one.
use json_tree::{print, read};
use proof_options::{OptionFault, Suite, check, check_as, read_stamp, split, split_as};
use std::alloc::Global;
use std::test::Fail;

/// Stamps with their instants in nanoseconds, by Python's `datetime`.
const STAMPS: [(&str, &str); 28] = [
    ("1970-01-01T00:00:00Z", "0"),
    ("1970-01-01T00:00:00.000000001Z", "1"),
    ("1969-12-31T23:59:59.999999999Z", "-1"),
    // The examples of RFC 3339, 5.8, without a leap second.
    ("1985-04-12T23:20:50.52Z", "482196050520000000"),
    ("1996-12-19T16:39:57-08:00", "851042397000000000"),
    ("1937-01-01T12:00:27.87+00:20", "-1041337172130000000"),
    // Leap days, and ends of months and years.
    ("2024-02-29T12:00:00Z", "1709208000000000000"),
    ("2000-02-29T00:00:00Z", "951782400000000000"),
    ("1600-02-29T00:00:00Z", "-11670998400000000000"),
    ("2023-02-28T23:59:59Z", "1677628799000000000"),
    ("1900-02-28T23:59:59Z", "-2203891201000000000"),
    ("1900-03-01T00:00:00Z", "-2203891200000000000"),
    ("2024-01-31T00:00:00Z", "1706659200000000000"),
    ("2024-04-30T00:00:00Z", "1714435200000000000"),
    ("2024-12-31T23:59:59.123456789Z", "1735689599123456789"),
    // The first and the last year, and the widest offsets.
    ("0001-01-01T00:00:00Z", "-62135596800000000000"),
    ("0001-01-01T00:00:00+14:00", "-62135647200000000000"),
    ("9999-12-31T23:59:59.999999999Z", "253402300799999999999"),
    (
        "9999-12-31T23:59:59.999999999-14:00",
        "253402351199999999999",
    ),
    ("2024-01-01T01:00:00+01:00", "1704067200000000000"),
    ("2024-01-01T00:00:00Z", "1704067200000000000"),
    ("2024-01-01T00:00:00+14:00", "1704016800000000000"),
    ("2024-01-01T00:00:00-14:00", "1704117600000000000"),
    ("2024-01-01T00:00:00-13:59", "1704117540000000000"),
    ("2024-01-01T00:00:00+00:00", "1704067200000000000"),
    ("2024-01-01T00:00:00-00:00", "1704067200000000000"),
    ("2024-01-01T00:00:00.000000000Z", "1704067200000000000"),
    ("2024-06-30T23:59:59Z", "1719791999000000000"),
];

/// Texts that are no stamps.
const NO_STAMPS: [&str; 44] = [
    // Dates that the calendar lacks.
    "2023-02-29T00:00:00Z",
    "1900-02-29T00:00:00Z",
    "2100-02-29T00:00:00Z",
    "2024-02-30T00:00:00Z",
    "2024-04-31T00:00:00Z",
    "2024-06-31T00:00:00Z",
    "2024-09-31T00:00:00Z",
    "2024-11-31T00:00:00Z",
    "2024-01-32T00:00:00Z",
    "2024-01-00T00:00:00Z",
    "2024-00-01T00:00:00Z",
    "2024-13-01T00:00:00Z",
    "0000-01-01T00:00:00Z",
    // Times of day.
    "2024-01-01T24:00:00Z",
    "2024-01-01T00:60:00Z",
    "2016-12-31T23:59:60Z",
    // Fractions.
    "2024-01-01T00:00:00.Z",
    "2024-01-01T00:00:00.1234567890Z",
    "2024-01-01T00:00:00,5Z",
    // Offsets.
    "2024-01-01T00:00:00+14:01",
    "2024-01-01T00:00:00-14:01",
    "2024-01-01T00:00:00+15:00",
    "2024-01-01T00:00:00+01:60",
    "2024-01-01T00:00:00",
    "2024-01-01T00:00:00+1:00",
    "2024-01-01T00:00:00+0100",
    "2024-01-01T00:00:00 01:00",
    "2024-01-01T00:00:00+01:00Z",
    // Marks and digits.
    "2024-01-01t00:00:00Z",
    "2024-01-01T00:00:00z",
    "2024-01-01 00:00:00Z",
    "2024/01/01T00:00:00Z",
    "20240101T000000Z",
    "2024-01-01T00:00Z",
    "2024-1-01T00:00:00Z",
    "02024-01-01T00:00:00Z",
    "-2024-01-01T00:00:00Z",
    "+2024-01-01T00:00:00Z",
    "2o24-01-01T00:00:00Z",
    " 2024-01-01T00:00:00Z",
    "2024-01-01T00:00:00Z ",
    "2024-01-01T00:00:00.5",
    "2024-01-01",
    "",
];

/// The instant of a stamp and its text, or that there is none.
fn instant_and_text(alloc: Global, text: &str) -> Result<String, Fail> {
    match read_stamp(alloc, text)? {
        Some(stamp) => {
            let instant = stamp.nanosecond;
            Ok(format!(in alloc; "{instant} {}", stamp.text.as_str())?)
        }
        None => Ok(format!(in alloc; "none")?),
    }
}

#[test]
fn stamps_have_their_instants(rt: HostRuntime) -> Result<(), Fail> {
    for row in &STAMPS {
        let (text, expected) = *row;
        let wanted = format!(in rt.alloc(); "{expected} {text}")?;
        assert_eq!(rt;
            instant_and_text(rt.alloc(), text)?.as_str(),
            wanted.as_str()
        );
    }
    for text in NO_STAMPS {
        assert_eq!(rt;
            instant_and_text(rt.alloc(), text)?.as_str(),
            "none",
            "at {text}"
        );
    }
    Ok(())
}

/// Options by themselves, each with the first bad field, or with their method and `expires`.
const OPTIONS: [(&str, &str); 22] = [
    (
        "{\"type\":\"DataIntegrityProof\",\"cryptosuite\":\"ecdsa-sd-2023\",\"verificationMethod\":\"urn:k\",\"proofPurpose\":\"assertionMethod\"}",
        "urn:k -",
    ),
    (
        "{\"type\":\"DataIntegrityProof\",\"cryptosuite\":\"ecdsa-sd-2023\",\"created\":\"2024-01-01T00:00:00Z\",\"expires\":\"2025-01-01T00:00:00+01:00\",\"verificationMethod\":\"urn:k\",\"proofPurpose\":\"p\",\"domain\":[1]}",
        "urn:k 2025-01-01T00:00:00+01:00",
    ),
    ("[]", "proof"),
    ("null", "proof"),
    ("\"type\"", "proof"),
    ("{\"@context\":null}", "@context"),
    ("{}", "type"),
    ("{\"type\":[\"DataIntegrityProof\"]}", "type"),
    ("{\"type\":\"dataIntegrityProof\",\"created\":0}", "type"),
    ("{\"type\":\"DataIntegrityProof\"}", "cryptosuite"),
    (
        "{\"type\":\"DataIntegrityProof\",\"cryptosuite\":\"ecdsa-rdfc-2019\",\"created\":\"now\"}",
        "cryptosuite",
    ),
    (
        "{\"type\":\"DataIntegrityProof\",\"cryptosuite\":{\"id\":\"ecdsa-sd-2023\"}}",
        "cryptosuite",
    ),
    (
        "{\"type\":\"DataIntegrityProof\",\"cryptosuite\":\"ecdsa-sd-2023\",\"created\":null,\"expires\":null}",
        "created",
    ),
    (
        "{\"type\":\"DataIntegrityProof\",\"cryptosuite\":\"ecdsa-sd-2023\",\"created\":\"2023-02-29T00:00:00Z\",\"expires\":0}",
        "created",
    ),
    (
        "{\"type\":\"DataIntegrityProof\",\"cryptosuite\":\"ecdsa-sd-2023\",\"created\":\"2024-02-29T00:00:00Z\",\"expires\":0}",
        "expires",
    ),
    (
        "{\"type\":\"DataIntegrityProof\",\"cryptosuite\":\"ecdsa-sd-2023\",\"expires\":\"2024-01-01T00:00:00z\",\"proofValue\":\"u\"}",
        "expires",
    ),
    (
        "{\"type\":\"DataIntegrityProof\",\"cryptosuite\":\"ecdsa-sd-2023\",\"proofPurpose\":0}",
        "verificationMethod",
    ),
    (
        "{\"type\":\"DataIntegrityProof\",\"cryptosuite\":\"ecdsa-sd-2023\",\"verificationMethod\":{\"id\":\"urn:k\"},\"proofPurpose\":\"p\"}",
        "verificationMethod",
    ),
    (
        "{\"type\":\"DataIntegrityProof\",\"cryptosuite\":\"ecdsa-sd-2023\",\"verificationMethod\":\"urn:k\"}",
        "proofPurpose",
    ),
    (
        "{\"type\":\"DataIntegrityProof\",\"cryptosuite\":\"ecdsa-sd-2023\",\"verificationMethod\":\"urn:k\",\"proofPurpose\":true,\"proofValue\":\"u\"}",
        "proofPurpose",
    ),
    (
        "{\"type\":\"DataIntegrityProof\",\"cryptosuite\":\"ecdsa-sd-2023\",\"verificationMethod\":\"urn:k\",\"proofPurpose\":\"p\",\"proofValue\":\"u\"}",
        "proofValue",
    ),
    (
        "{\"type\":\"DataIntegrityProof\",\"cryptosuite\":\"ecdsa-sd-2023\",\"verificationMethod\":\"urn:k\",\"proofPurpose\":\"p\",\"proofValue\":null}",
        "proofValue",
    ),
];

/// The method and `expires` of options, or the first bad field.
fn checked(alloc: Global, text: &str, suite: Suite) -> Result<String, Fail> {
    let tree = read(alloc, text.as_bytes())?;
    match check_as(alloc, &tree, suite) {
        Ok(options) => match &options.expires {
            Some(stamp) => {
                Ok(format!(in alloc; "{} {}", options.method.as_str(), stamp.text.as_str())?)
            }
            None => Ok(format!(in alloc; "{} -", options.method.as_str())?),
        },
        Err(OptionFault::Bad(field)) => Ok(format!(in alloc; "{field}")?),
        Err(OptionFault::Memory) => Ok(format!(in alloc; "out of memory")?),
    }
}

#[test]
fn options_are_refused_at_their_first_bad_field(rt: HostRuntime) -> Result<(), Fail> {
    for row in &OPTIONS {
        let (text, expected) = *row;
        let shown = checked(rt.alloc(), text, Suite::Selective)?;
        assert_eq!(rt; shown.as_str(), expected, "at {text}");
    }
    let whole =
        "{\"type\":\"DataIntegrityProof\",\"cryptosuite\":\"ecdsa-rdfc-2019\",\"verificationMethod\":\"urn:k\",\"proofPurpose\":\"p\"}";
    assert_eq!(rt;
        checked(rt.alloc(), whole, Suite::Whole)?.as_str(),
        "urn:k -"
    );
    let selective = "{\"type\":\"DataIntegrityProof\",\"cryptosuite\":\"ecdsa-sd-2023\"}";
    assert_eq!(rt;
        checked(rt.alloc(), selective, Suite::Whole)?.as_str(),
        "cryptosuite"
    );
    Ok(())
}

/// A secured document of either suite, with its body, options and proof value.
const DOCUMENTS: [(Suite, &str, &str, &str, &str); 2] = [
    (
        Suite::Selective,
        "{\"a\":1,\"proof\":{\"type\":\"DataIntegrityProof\",\"cryptosuite\":\"ecdsa-sd-2023\",\"verificationMethod\":\"urn:k\",\"proofPurpose\":\"p\",\"proofValue\":\"uAA\"},\"z\":{\"proof\":2}}",
        "{\"a\":1,\"z\":{\"proof\":2}}",
        "{\"cryptosuite\":\"ecdsa-sd-2023\",\"proofPurpose\":\"p\",\"type\":\"DataIntegrityProof\",\"verificationMethod\":\"urn:k\"}",
        "uAA",
    ),
    (
        Suite::Whole,
        "{\"proof\":{\"type\":\"DataIntegrityProof\",\"cryptosuite\":\"ecdsa-rdfc-2019\",\"verificationMethod\":\"urn:k\",\"proofPurpose\":\"p\",\"proofValue\":\"\"}}",
        "{}",
        "{\"cryptosuite\":\"ecdsa-rdfc-2019\",\"proofPurpose\":\"p\",\"type\":\"DataIntegrityProof\",\"verificationMethod\":\"urn:k\"}",
        "",
    ),
];

#[test]
fn documents_are_split(rt: HostRuntime) -> Result<(), Fail> {
    for row in &DOCUMENTS {
        let (suite, text, body, options, value) = *row;
        let document = read(rt.alloc(), text.as_bytes())?;
        let Ok(parts) = split_as(rt.alloc(), &document, suite) else {
            panic!(rt; "refused: {text}");
        };
        assert_eq!(rt; print(rt.alloc(), &parts.body)?.as_slice(), body.as_bytes());
        assert_eq!(rt;
            print(rt.alloc(), &parts.options.tree)?.as_slice(),
            options.as_bytes()
        );
        assert_eq!(rt; parts.options.method.as_str(), "urn:k");
        assert_eq!(rt; parts.value.as_str(), value);
    }
    Ok(())
}

/// Documents that are refused, each with the first bad field.
const REFUSED: [(&str, &str); 7] = [
    ("{\"a\":1}", "proof"),
    ("[{\"proof\":{}}]", "proof"),
    ("{\"proof\":[{}]}", "proof"),
    ("{\"proof\":\"u\"}", "proof"),
    ("{\"proof\":{\"@context\":\"urn:c\"}}", "@context"),
    (
        "{\"proof\":{\"type\":\"DataIntegrityProof\",\"cryptosuite\":\"ecdsa-sd-2023\",\"verificationMethod\":\"urn:k\",\"proofPurpose\":\"p\"}}",
        "proofValue",
    ),
    (
        "{\"proof\":{\"type\":\"DataIntegrityProof\",\"cryptosuite\":\"ecdsa-sd-2023\",\"verificationMethod\":\"urn:k\",\"proofPurpose\":\"p\",\"proofValue\":[\"u\"]}}",
        "proofValue",
    ),
];

#[test]
fn documents_are_refused_at_their_first_bad_field(rt: HostRuntime) -> Result<(), Fail> {
    for row in &REFUSED {
        let (text, expected) = *row;
        let document = read(rt.alloc(), text.as_bytes())?;
        match split(rt.alloc(), &document) {
            Err(OptionFault::Bad(field)) => {
                let shown = format!(in rt.alloc(); "{field}")?;
                assert_eq!(rt; shown.as_str(), expected, "at {text}");
            }
            Err(OptionFault::Memory) => panic!(rt; "out of memory: {text}"),
            Ok(parts) => {
                drop(parts);
                panic!(rt; "no refusal: {text}");
            }
        }
    }
    let options = read(rt.alloc(), b"{}")?;
    match check(rt.alloc(), &options) {
        Err(fault) => {
            let line = format!(in rt.alloc(); "{fault}")?;
            assert_eq!(rt; line.as_str(), "`type` is not as a proof must have it");
        }
        Ok(options) => {
            drop(options);
            panic!(rt; "no refusal of an empty object");
        }
    }
    Ok(())
}
