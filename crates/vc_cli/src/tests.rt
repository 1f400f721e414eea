//! The program over worked rows: each has a name, the one edit of a request, the status and the line of
//! the reply. The lines, digests and proof values were made apart from this program.

use crate::key_files_tests::{ROOT, SEED};
use crate::run::run;
use crate::status::Status;
use crate::watched_device::WatchedDevice;
use key_device::{BrokenDevice, HmacDevice, KeyDevice, KeyName, LedgerDevice};
use nquads::{Memory, Text};
use std::alloc::Global;
use std::test::Fail;
use vc_io::{MemorySink, MemorySource};
use vc_session::Reply;

/// A row: its name, what it puts in place of what, how the run ends, and what it writes but for LF.
type Row = (
    &'static str,
    &'static str,
    &'static str,
    Status,
    &'static str,
);

/// A request for the statements of a document.
const STATEMENTS: &str = r#"{
  "contexts": {"https://ex.org/t": {"@context": {
    "name": "https://ex.org/z", "alias": "https://ex.org/z", "born": "https://ex.org/y"}}},
  "document": {"@context": "https://ex.org/t", "@id": "https://ex.org/a", "name": "Ann"}
}"#;

/// Edits of it.
const STATEMENTS_ROWS: &[Row] = &[
    (
        "one statement",
        r#""Ann""#,
        r#""Ann""#,
        Status::Done,
        r#"<https://ex.org/a> <https://ex.org/z> "Ann" ."#,
    ),
    (
        "a text with escapes",
        r#""Ann""#,
        r#""a\nb\tc\"d\\e\u007f""#,
        Status::Done,
        r#"<https://ex.org/a> <https://ex.org/z> "a\nb\tc\"d\\e\u007F" ."#,
    ),
    (
        "a name twice, of which the last counts",
        r#""name": "Ann""#,
        r#""name": "Bob", "name": "Ann""#,
        Status::Done,
        r#"<https://ex.org/a> <https://ex.org/z> "Ann" ."#,
    ),
    (
        "two terms of one property, and one before it",
        r#""name": "Ann""#,
        r#""name": "1", "alias": "1", "born": "2""#,
        Status::Done,
        r#"<https://ex.org/a> <https://ex.org/y> "2" .
<https://ex.org/a> <https://ex.org/z> "1" ."#,
    ),
    (
        "a term of no context",
        r#""name": "Ann""#,
        r#""name": "Ann", "age": 3"#,
        Status::Input,
        r#"{"refused":{"name":"NotBuilt"}}"#,
    ),
    (
        "a number that is not whole",
        r#""Ann""#,
        "1.0",
        Status::Input,
        r#"{"refused":{"name":"NotWhole","place":"/document/name"}}"#,
    ),
    (
        "a number too great, under a name that is escaped",
        r#""name": "Ann""#,
        r#""a\n~": [0, 18446744073709551616]"#,
        Status::Input,
        r#"{"refused":{"name":"NotWhole","place":"/document/a\n~0/1"}}"#,
    ),
    (
        "no document of its own",
        r#""document": {"#,
        r#""documents": {"#,
        Status::Input,
        r#"{"refused":{"name":"NotBuilt"}}"#,
    ),
];

/// A request for issuing: a document of one statement, which is mandatory.
const ISSUE: &str = r#"{
  "contexts": {"https://ex.org/f": {"@context": {
    "name": "https://ex.org/f#name",
    "type": "https://ex.org/f#type",
    "cryptosuite": "https://ex.org/f#cryptosuite",
    "verificationMethod": "https://ex.org/f#verificationMethod",
    "proofPurpose": "https://ex.org/f#proofPurpose",
    "created": "https://ex.org/f#created",
    "expires": "https://ex.org/f#expires",
    "proof": "https://ex.org/f#proof",
    "proofValue": "https://ex.org/f#proofValue"
  }}},
  "document": {"@context": "https://ex.org/f", "@id": "https://ex.org/a", "name": "Ann"},
  "keys": {"urn:k": "802403abcdef0123456789abcdef0123456789abcdef0123456789abcdef0123456789"},
  "mandatory": [""],
  "options": {"@id": "https://ex.org/o", "type": "DataIntegrityProof",
    "cryptosuite": "ecdsa-sd-2023", "proofPurpose": "assertionMethod",
    "verificationMethod": "urn:k"}
}"#;

/// The document with its base proof.
const ISSUED: &str =
    r#"{"document":{"@context":"https://ex.org/f","@id":"https://ex.org/a","name":"Ann","proof":{"@id":"https://ex.org/o","cryptosuite":"ecdsa-sd-2023","proofPurpose":"assertionMethod","proofValue":"u2V0AhVhAAAAAAAAAAAAAAAAAAAAAAAAAAAAAAAAAAAAAAAAAAAAAAAAAAAAAAAAAAAAAAAAAAAAAAAAAAAAAAAAAAAAAAVgjAAEAAAAAAAAAAAAAAAAAAAAAAAAAAAAAAAAAAAAAAAAAAAFYIAAAAAAAAAAAAAAAAAAAAAAAAAAAAAAAAAAAAAAAAAABgIFg","type":"DataIntegrityProof","verificationMethod":"urn:k"}},"mandatory":1,"statements":1,"tie":false}"#;

/// Edits of the request, for which nothing is issued.
const ISSUE_ROWS: &[Row] = &[
    (
        "a further member",
        r#""mandatory": [""],"#,
        r#""mandatory": [""], "more": 1,"#,
        Status::Input,
        r#"{"refused":{"name":"NotBuilt"}}"#,
    ),
    (
        "a document with a proof",
        r#""name": "Ann""#,
        r#""name": "Ann", "proof": "x""#,
        Status::Input,
        r#"{"refused":{"name":"NotBuilt"}}"#,
    ),
    (
        "a short key",
        r#""802403"#,
        r#""24"#,
        Status::Input,
        r#"{"refused":{"name":"NotBuilt"}}"#,
    ),
    (
        "a key with upper-case digits",
        "802403abcdef",
        "802403ABCDEF",
        Status::Input,
        r#"{"refused":{"name":"NotBuilt"}}"#,
    ),
    (
        "no pointer",
        r#"[""]"#,
        "[]",
        Status::Input,
        r#"{"refused":{"name":"NotBuilt"}}"#,
    ),
    (
        "two pointers",
        r#"[""]"#,
        r#"["", ""]"#,
        Status::Input,
        r#"{"refused":{"name":"NotBuilt"}}"#,
    ),
    (
        "a pointer to a member",
        r#"[""]"#,
        r#"["/name"]"#,
        Status::Input,
        r#"{"refused":{"name":"NotBuilt"}}"#,
    ),
    (
        "another type",
        r#""DataIntegrityProof""#,
        r#""DataIntegrity""#,
        Status::Input,
        r#"{"refused":{"name":"NotBuilt"}}"#,
    ),
    (
        "no type",
        r#""type": "DataIntegrityProof","#,
        "",
        Status::Input,
        r#"{"refused":{"name":"NotBuilt"}}"#,
    ),
    (
        "another cryptosuite",
        r#""ecdsa-sd-2023""#,
        r#""ecdsa-rdfc-2019""#,
        Status::Input,
        r#"{"refused":{"name":"NotBuilt"}}"#,
    ),
    (
        "no purpose",
        r#" "proofPurpose": "assertionMethod","#,
        "",
        Status::Input,
        r#"{"refused":{"name":"NotBuilt"}}"#,
    ),
    (
        "a time of creation",
        r#""verificationMethod": "urn:k""#,
        r#""verificationMethod": "urn:k", "created": "2026-12-01T00:00:00Z""#,
        Status::Input,
        r#"{"refused":{"name":"NotBuilt"}}"#,
    ),
    (
        "a time of expiry",
        r#""verificationMethod": "urn:k""#,
        r#""verificationMethod": "urn:k", "expires": "2026-12-01T00:00:00Z""#,
        Status::Input,
        r#"{"refused":{"name":"NotBuilt"}}"#,
    ),
    (
        "a proof value",
        r#""verificationMethod": "urn:k""#,
        r#""verificationMethod": "urn:k", "proofValue": "u""#,
        Status::Input,
        r#"{"refused":{"name":"NotBuilt"}}"#,
    ),
    (
        "a context of the options",
        r#""@id": "https://ex.org/o""#,
        r#""@context": "https://ex.org/f", "@id": "https://ex.org/o""#,
        Status::Input,
        r#"{"refused":{"name":"NotBuilt"}}"#,
    ),
    (
        "no statement",
        r#", "name": "Ann""#,
        "",
        Status::Input,
        r#"{"refused":{"name":"NoStatements"}}"#,
    ),
    (
        "a method without a key",
        r#""urn:k": "80"#,
        r#""urn:l": "80"#,
        Status::Input,
        r#"{"refused":{"method":"urn:k","name":"UnknownMethod"}}"#,
    ),
    (
        "a key that the device does not own",
        "802403",
        "802402",
        Status::Input,
        r#"{"refused":{"key":"802402abcdef0123456789abcdef0123456789abcdef0123456789abcdef0123456789","name":"NoKey"}}"#,
    ),
];

/// A request for verifying the same document, with a derived proof of it.
const VERIFY: &str = r#"{
  "contexts": {"https://ex.org/f": {"@context": {
    "name": "https://ex.org/f#name",
    "type": "https://ex.org/f#type",
    "cryptosuite": "https://ex.org/f#cryptosuite",
    "verificationMethod": "https://ex.org/f#verificationMethod",
    "proofPurpose": "https://ex.org/f#proofPurpose",
    "created": "https://ex.org/f#created",
    "expires": "https://ex.org/f#expires",
    "proof": "https://ex.org/f#proof",
    "proofValue": "https://ex.org/f#proofValue"
  }}},
  "document": {"@context": "https://ex.org/f", "@id": "https://ex.org/a", "name": "Ann", "proof": {
    "@id": "https://ex.org/o", "type": "DataIntegrityProof",
    "cryptosuite": "ecdsa-sd-2023", "proofPurpose": "assertionMethod",
    "verificationMethod": "urn:k",
    "proofValue": "u2V0BhVhAAAAAAAAAAAAAAAAAAAAAAAAAAAAAAAAAAAAAAAAAAAAAAAAAAAAAAAAAAAAAAAAAAAAAAAAAAAAAAAAAAAAAAVgjAAEAAAAAAAAAAAAAAAAAAAAAAAAAAAAAAAAAAAAAAAAAAAGAoIEA"}},
  "keys": {"urn:k": "802403abcdef0123456789abcdef0123456789abcdef0123456789abcdef0123456789"}
}"#;

/// That it verifies.
const VERIFIED: &str =
    r#"{"key":"802403abcdef0123456789abcdef0123456789abcdef0123456789abcdef0123456789","labels":{},"mandatory":[0],"statementKey":"0001000000000000000000000000000000000000000000000000000000000000000001","statements":1,"tie":false,"verified":true}"#;

/// Edits of the request, for which the document does not verify.
const VERIFY_ROWS: &[Row] = &[
    (
        "no proof value",
        "u2V0BhVhAAAAAAAAAAAAAAAAAAAAAAAAAAAAAAAAAAAAAAAAAAAAAAAAAAAAAAAAAAAAAAAAAAAAAAAAAAAAAAAAAAAAAAVgjAAEAAAAAAAAAAAAAAAAAAAAAAAAAAAAAAAAAAAAAAAAAAAGAoIEA",
        "u2",
        Status::Input,
        r#"{"refused":{"fault":"NotMultibase","name":"ProofValue"}}"#,
    ),
    (
        "a base value",
        "u2V0BhVhAAAAAAAAAAAAAAAAAAAAAAAAAAAAAAAAAAAAAAAAAAAAAAAAAAAAAAAAAAAAAAAAAAAAAAAAAAAAAAAAAAAAAAVgjAAEAAAAAAAAAAAAAAAAAAAAAAAAAAAAAAAAAAAAAAAAAAAGAoIEA",
        "u2V0AhVhAAAAAAAAAAAAAAAAAAAAAAAAAAAAAAAAAAAAAAAAAAAAAAAAAAAAAAAAAAAAAAAAAAAAAAAAAAAAAAAAAAAAAAVgjAAEAAAAAAAAAAAAAAAAAAAAAAAAAAAAAAAAAAAAAAAAAAAFYIAAAAAAAAAAAAAAAAAAAAAAAAAAAAAAAAAAAAAAAAAABgIFg",
        Status::Input,
        r#"{"refused":{"fault":"Header","name":"ProofValue"}}"#,
    ),
    (
        "a value by SHA-384",
        "u2V0BhVhA",
        "u2V0hhVhA",
        Status::Input,
        r#"{"refused":{"fault":"Header","name":"ProofValue"}}"#,
    ),
    (
        "a value cut off",
        "u2V0BhVhAAAAAAAAAAAAAAAAAAAAAAAAAAAAAAAAAAAAAAAAAAAAAAAAAAAAAAAAAAAAAAAAAAAAAAAAAAAAAAAAAAAAAAVgjAAEAAAAAAAAAAAAAAAAAAAAAAAAAAAAAAAAAAAAAAAAAAAGAoIEA",
        "u2V0BhQ",
        Status::Input,
        r#"{"refused":{"at":1,"fault":"Truncated","name":"ProofValue"}}"#,
    ),
    (
        "a value with a signature",
        "u2V0BhVhAAAAAAAAAAAAAAAAAAAAAAAAAAAAAAAAAAAAAAAAAAAAAAAAAAAAAAAAAAAAAAAAAAAAAAAAAAAAAAAAAAAAAAVgjAAEAAAAAAAAAAAAAAAAAAAAAAAAAAAAAAAAAAAAAAAAAAAGAoIEA",
        "u2V0BhVhAAAAAAAAAAAAAAAAAAAAAAAAAAAAAAAAAAAAAAAAAAAAAAAAAAAAAAAAAAAAAAAAAAAAAAAAAAAAAAAAAAAAAAVgjAAEAAAAAAAAAAAAAAAAAAAAAAAAAAAAAAAAAAAAAAAAAAAGBWEAAAAAAAAAAAAAAAAAAAAAAAAAAAAAAAAAAAAAAAAAAAAAAAAAAAAAAAAAAAAAAAAAAAAAAAAAAAAAAAAAAAAAAoIEA",
        Status::Input,
        r#"{"refused":{"name":"NotBuilt"}}"#,
    ),
    (
        "a value with a label",
        "u2V0BhVhAAAAAAAAAAAAAAAAAAAAAAAAAAAAAAAAAAAAAAAAAAAAAAAAAAAAAAAAAAAAAAAAAAAAAAAAAAAAAAAAAAAAAAVgjAAEAAAAAAAAAAAAAAAAAAAAAAAAAAAAAAAAAAAAAAAAAAAGAoIEA",
        "u2V0BhVhAAAAAAAAAAAAAAAAAAAAAAAAAAAAAAAAAAAAAAAAAAAAAAAAAAAAAAAAAAAAAAAAAAAAAAAAAAAAAAAAAAAAAAVgjAAEAAAAAAAAAAAAAAAAAAAAAAAAAAAAAAAAAAAAAAAAAAAGAoQBYIAAAAAAAAAAAAAAAAAAAAAAAAAAAAAAAAAAAAAAAAAAAgQA",
        Status::Input,
        r#"{"refused":{"name":"NotBuilt"}}"#,
    ),
    (
        "a further member",
        r#""keys": {"#,
        r#""more": 1, "keys": {"#,
        Status::Input,
        r#"{"refused":{"name":"NotBuilt"}}"#,
    ),
    (
        "a key with upper-case digits",
        "802403abcdef",
        "802403ABCDEF",
        Status::Input,
        r#"{"refused":{"name":"NotBuilt"}}"#,
    ),
    (
        "another cryptosuite",
        r#""ecdsa-sd-2023""#,
        r#""ecdsa-rdfc-2019""#,
        Status::Input,
        r#"{"refused":{"name":"NotBuilt"}}"#,
    ),
    (
        "no purpose",
        r#" "proofPurpose": "assertionMethod","#,
        "",
        Status::Input,
        r#"{"refused":{"name":"NotBuilt"}}"#,
    ),
    (
        "a time of expiry",
        r#""verificationMethod": "urn:k""#,
        r#""verificationMethod": "urn:k", "expires": "2026-12-01T00:00:00Z""#,
        Status::Input,
        r#"{"refused":{"name":"NotBuilt"}}"#,
    ),
    (
        "no statement",
        r#", "name": "Ann""#,
        "",
        Status::No,
        r#"{"cause":{"name":"Nothing"},"verified":false}"#,
    ),
    (
        "an index over the lines",
        "u2V0BhVhAAAAAAAAAAAAAAAAAAAAAAAAAAAAAAAAAAAAAAAAAAAAAAAAAAAAAAAAAAAAAAAAAAAAAAAAAAAAAAAAAAAAAAVgjAAEAAAAAAAAAAAAAAAAAAAAAAAAAAAAAAAAAAAAAAAAAAAGAoIEA",
        "u2V0BhVhAAAAAAAAAAAAAAAAAAAAAAAAAAAAAAAAAAAAAAAAAAAAAAAAAAAAAAAAAAAAAAAAAAAAAAAAAAAAAAAAAAAAAAVgjAAEAAAAAAAAAAAAAAAAAAAAAAAAAAAAAAAAAAAAAAAAAAAGAoIEB",
        Status::No,
        r#"{"cause":{"index":0,"name":"Indexes"},"verified":false}"#,
    ),
    (
        "no index",
        "u2V0BhVhAAAAAAAAAAAAAAAAAAAAAAAAAAAAAAAAAAAAAAAAAAAAAAAAAAAAAAAAAAAAAAAAAAAAAAAAAAAAAAAAAAAAAAVgjAAEAAAAAAAAAAAAAAAAAAAAAAAAAAAAAAAAAAAAAAAAAAAGAoIEA",
        "u2V0BhVhAAAAAAAAAAAAAAAAAAAAAAAAAAAAAAAAAAAAAAAAAAAAAAAAAAAAAAAAAAAAAAAAAAAAAAAAAAAAAAAAAAAAAAVgjAAEAAAAAAAAAAAAAAAAAAAAAAAAAAAAAAAAAAAAAAAAAAAGAoIA",
        Status::No,
        r#"{"cause":{"name":"Count","signatures":0,"statements":1},"verified":false}"#,
    ),
    (
        "a method without a key",
        r#""urn:k",
"#,
        r#""urn:l",
"#,
        Status::Input,
        r#"{"refused":{"method":"urn:l","name":"UnknownMethod"}}"#,
    ),
    (
        "such a method, and an index over the lines",
        r#""verificationMethod": "urn:k",
    "proofValue": "u2V0BhVhAAAAAAAAAAAAAAAAAAAAAAAAAAAAAAAAAAAAAAAAAAAAAAAAAAAAAAAAAAAAAAAAAAAAAAAAAAAAAAAAAAAAAAVgjAAEAAAAAAAAAAAAAAAAAAAAAAAAAAAAAAAAAAAAAAAAAAAGAoIEA""#,
        r#""verificationMethod": "urn:l",
    "proofValue": "u2V0BhVhAAAAAAAAAAAAAAAAAAAAAAAAAAAAAAAAAAAAAAAAAAAAAAAAAAAAAAAAAAAAAAAAAAAAAAAAAAAAAAAAAAAAAAVgjAAEAAAAAAAAAAAAAAAAAAAAAAAAAAAAAAAAAAAAAAAAAAAGAoIEB""#,
        Status::No,
        r#"{"cause":{"index":0,"name":"Indexes"},"verified":false}"#,
    ),
    (
        "such a method, and no index",
        r#""verificationMethod": "urn:k",
    "proofValue": "u2V0BhVhAAAAAAAAAAAAAAAAAAAAAAAAAAAAAAAAAAAAAAAAAAAAAAAAAAAAAAAAAAAAAAAAAAAAAAAAAAAAAAAAAAAAAAVgjAAEAAAAAAAAAAAAAAAAAAAAAAAAAAAAAAAAAAAAAAAAAAAGAoIEA""#,
        r#""verificationMethod": "urn:l",
    "proofValue": "u2V0BhVhAAAAAAAAAAAAAAAAAAAAAAAAAAAAAAAAAAAAAAAAAAAAAAAAAAAAAAAAAAAAAAAAAAAAAAAAAAAAAAAAAAAAAAVgjAAEAAAAAAAAAAAAAAAAAAAAAAAAAAAAAAAAAAAAAAAAAAAGAoIA""#,
        Status::No,
        r#"{"cause":{"name":"Count","signatures":0,"statements":1},"verified":false}"#,
    ),
    (
        "another text",
        r#""Ann""#,
        r#""Bob""#,
        Status::No,
        r#"{"cause":{"name":"BaseSignature"},"verified":false}"#,
    ),
    (
        "other options",
        "https://ex.org/o",
        "https://ex.org/p",
        Status::No,
        r#"{"cause":{"name":"BaseSignature"},"verified":false}"#,
    ),
    (
        "another signature",
        "u2V0BhVhAAAAAAAAAAAAAAAAAAAAAAAAAAAAAAAAAAAAAAAAAAAAAAAAAAAAAAAAAAAAAAAAAAAAAAAAAAAAAAAAAAAAAAVgjAAEAAAAAAAAAAAAAAAAAAAAAAAAAAAAAAAAAAAAAAAAAAAGAoIEA",
        "u2V0BhVhAAAAAAAAAAAAAAAAAAAAAAAAAAAAAAAAAAAAAAAAAAAAAAAAAAAAAAAAAAAAAAAAAAAAAAAAAAAAAAAAAAAAAAlgjAAEAAAAAAAAAAAAAAAAAAAAAAAAAAAAAAAAAAAAAAAAAAAGAoIEA",
        Status::No,
        r#"{"cause":{"name":"BaseSignature"},"verified":false}"#,
    ),
    (
        "another issuer's key",
        "802403",
        "802402",
        Status::No,
        r#"{"cause":{"name":"BaseSignature"},"verified":false}"#,
    ),
];

/// The issuer's key of these requests.
const ISSUER: KeyName = KeyName {
    bytes: [
        0x80, 0x24, 0x03, 0xab, 0xcd, 0xef, 0x01, 0x23, 0x45, 0x67, 0x89, 0xab, 0xcd, 0xef, 0x01,
        0x23, 0x45, 0x67, 0x89, 0xab, 0xcd, 0xef, 0x01, 0x23, 0x45, 0x67, 0x89, 0xab, 0xcd, 0xef,
        0x01, 0x23, 0x45, 0x67, 0x89,
    ],
};

/// What the device is asked in issuing and in verifying: a secret, a statement key and the issuer's
/// signature, and later whether that is one. It is on the digest of the options' lines, the statement key
/// and the digest of the mandatory lines.
const CALLS: &str = "secret
key
sign 802403abcdef0123456789abcdef0123456789abcdef0123456789abcdef0123456789 083ef7d5be9c8717234c11f938c5a76b8df85fb7c185c4020b7ad0b5d58072ac00010000000000000000000000000000000000000000000000000000000000000000012333130ed4af9f6aa1e601529a32c4ea6df3ea0b2eea0775fd166eb3515e3dd7
check 802403abcdef0123456789abcdef0123456789abcdef0123456789abcdef0123456789 083ef7d5be9c8717234c11f938c5a76b8df85fb7c185c4020b7ad0b5d58072ac00010000000000000000000000000000000000000000000000000000000000000000012333130ed4af9f6aa1e601529a32c4ea6df3ea0b2eea0775fd166eb3515e3dd7
";

/// How a run over memory ends, and what it wrote.
fn outcome<D: KeyDevice>(
    alloc: Global,
    words: &[&str],
    input: Vec<u8>,
    device: &mut D,
) -> Result<(Status, Vec<u8>), Memory> {
    outcome_with_faults(alloc, words, input, &Faults::NONE, device)
}

/// The calls of the source and of the sink that fail, and the most that the sink takes at once.
#[derive(Drop)]
struct Faults<'a> {
    reads: &'a [u64],
    piece: u64,
    writes: &'a [u64],
}

impl Faults<'static> {
    const NONE: Faults<'static> = Faults {
        reads: &[],
        piece: 1_048_576,
        writes: &[],
    };
}

/// The same where some calls fail.
fn outcome_with_faults<D: KeyDevice>(
    alloc: Global,
    words: &[&str],
    input: Vec<u8>,
    faults: &Faults<'_>,
    device: &mut D,
) -> Result<(Status, Vec<u8>), Memory> {
    let mut given = Vec::new(alloc);
    for word in words {
        given.push(Text::from_str(alloc, word)?)?;
    }
    let reads = Vec::from_slice(alloc, faults.reads)?;
    let writes = Vec::from_slice(alloc, faults.writes)?;
    let mut source = MemorySource::new(input, 4_096, reads);
    let mut sink = MemorySink::new(alloc, 1_048_576, faults.piece, writes)?;
    let status = run(alloc, given.as_slice(), &mut source, &mut sink, device);
    Ok((status, sink.into_written()))
}

/// The request with the one edit of a row.
fn edited(alloc: Global, request: &str, row: &Row) -> Result<Vec<u8>, Memory> {
    Ok(request.replacen(alloc, row.1, row.2, 1)?.into_bytes())
}

/// The line of a reply, with LF.
fn line(alloc: Global, text: &str) -> Result<Vec<u8>, Memory> {
    let mut line = Vec::from_slice(alloc, text.as_bytes())?;
    line.push(b'\n')?;
    Ok(line)
}

#[test]
fn statements(rt: HostRuntime) -> Result<(), Fail> {
    let alloc = rt.alloc();
    let mut device = LedgerDevice::new(alloc, &[])?;
    for row in STATEMENTS_ROWS {
        let input = edited(alloc, STATEMENTS, row)?;
        let ended = outcome(alloc, &["statements"], input, &mut device)?;
        assert_eq!(rt; ended.0, row.3, "at {}", row.0);
        assert_eq!(rt; ended.1, line(alloc, row.4)?, "at {}", row.0);
    }
    Ok(())
}

#[test]
fn words_and_inputs(rt: HostRuntime) -> Result<(), Fail> {
    let alloc = rt.alloc();
    let mut device = LedgerDevice::new(alloc, &[])?;
    let usage = "usage: vc_cli statements|issue|verify";
    let not_json = r#"{"refused":{"name":"NotJson"}}"#;
    let not_built = r#"{"refused":{"name":"NotBuilt"}}"#;
    let not_whole = r#"{"refused":{"name":"NotWhole","place":""}}"#;
    let cases: [(&[&str], &[u8], Status, &str); 11] = [
        (&[], b"{}", Status::Usage, usage),
        (&["--help"], b"{}", Status::Usage, usage),
        (&["issue", "issue"], b"{}", Status::Usage, usage),
        (&["statement"], b"{}", Status::Usage, usage),
        (&["Verify"], b"{}", Status::Usage, usage),
        (&["statements"], b"", Status::Input, not_json),
        (&["issue"], b"\"\xff\"", Status::Input, not_json),
        (&["verify"], b"{} {}", Status::Input, not_json),
        (&["statements"], b"1e0", Status::Input, not_whole),
        (
            &["issue"],
            b"18446744073709551615",
            Status::Input,
            not_built,
        ),
        (&["verify"], b"{}", Status::Input, not_built),
    ];
    for (words, input, status, reply) in cases {
        let input = Vec::from_slice(alloc, input)?;
        let ended = outcome(alloc, words, input, &mut device)?;
        assert_eq!(rt; ended.0, status, "at {reply}");
        assert_eq!(rt; ended.1, line(alloc, reply)?, "at {reply}");
    }
    Ok(())
}

/// So many lists, each in the one before.
fn nested(alloc: Global, depth: usize) -> Result<Vec<u8>, Memory> {
    let mut input = Vec::new(alloc);
    for _ in 0..depth {
        input.push(b'[')?;
    }
    for _ in 0..depth {
        input.push(b']')?;
    }
    Ok(input)
}

/// The request for statements with blanks behind it, so many bytes in all.
fn padded(alloc: Global, length: usize) -> Result<Vec<u8>, Memory> {
    let mut input = Vec::from_slice(alloc, STATEMENTS.as_bytes())?;
    for _ in input.len()..length {
        input.push(b' ')?;
    }
    Ok(input)
}

#[test]
fn limits(rt: HostRuntime) -> Result<(), Fail> {
    let alloc = rt.alloc();
    let mut device = LedgerDevice::new(alloc, &[])?;
    let cases = [
        (
            nested(alloc, 100)?,
            Status::Input,
            r#"{"refused":{"name":"NotBuilt"}}"#,
        ),
        (
            nested(alloc, 101)?,
            Status::Input,
            r#"{"refused":{"limit":100,"name":"TreeTooDeep"}}"#,
        ),
        (
            nested(alloc, 128)?,
            Status::Input,
            r#"{"refused":{"name":"NotJson"}}"#,
        ),
        (
            padded(alloc, 8_388_608)?,
            Status::Done,
            r#"<https://ex.org/a> <https://ex.org/z> "Ann" ."#,
        ),
        (
            padded(alloc, 8_388_609)?,
            Status::Input,
            r#"{"refused":{"limit":8388608,"name":"TooLong"}}"#,
        ),
    ];
    for (input, status, reply) in cases {
        let ended = outcome(alloc, &["statements"], input, &mut device)?;
        assert_eq!(rt; ended.0, status, "at {reply}");
        assert_eq!(rt; ended.1, line(alloc, reply)?, "at {reply}");
    }
    Ok(())
}

#[test]
fn failing_calls(rt: HostRuntime) -> Result<(), Fail> {
    let alloc = rt.alloc();
    let read_fault = "{\"refused\":{\"name\":\"ReadFault\"}}\n";
    let cases: [(&[u64], &[u64], Status, &str); 3] = [
        (&[], &[3], Status::WriteFault, "<https://ex.org/a> <"),
        (&[1], &[], Status::ReadFault, read_fault),
        (&[1], &[1], Status::WriteFault, ""),
    ];
    let mut device = LedgerDevice::new(alloc, &[])?;
    for (reads, writes, status, written) in cases {
        let faults = Faults {
            reads,
            piece: 10,
            writes,
        };
        let input = Vec::from_slice(alloc, STATEMENTS.as_bytes())?;
        let ended = outcome_with_faults(alloc, &["statements"], input, &faults, &mut device)?;
        assert_eq!(rt; ended.0, status, "at {written}");
        assert_eq!(rt; ended.1.as_slice(), written.as_bytes(), "at {written}");
    }
    for (word, request) in [("issue", ISSUE), ("verify", VERIFY)] {
        let mut device = BrokenDevice::new();
        let input = Vec::from_slice(alloc, request.as_bytes())?;
        let ended = outcome(alloc, &[word], input, &mut device)?;
        assert_eq!(rt; ended.0, Status::DeviceFault, "at {word}");
        assert_eq!(rt;
            ended.1,
            line(alloc, r#"{"refused":{"name":"DeviceFault"}}"#)?,
            "at {word}"
        );
    }
    Ok(())
}

#[test]
fn replies_without_memory(rt: HostRuntime) -> Result<(), Fail> {
    let cases: [(Reply, u8, &str); 3] = [
        (Reply::Memory, 8, r#"{"refused":{"name":"Memory"}}"#),
        (
            Reply::DeviceFault,
            7,
            r#"{"refused":{"name":"DeviceFault"}}"#,
        ),
        (Reply::ReadFault, 5, r#"{"refused":{"name":"ReadFault"}}"#),
    ];
    for (reply, status, text) in cases {
        assert_eq!(rt; Status::of(&reply) as u8, status, "at {text}");
        assert_eq!(rt;
            reply.as_bytes(),
            line(rt.alloc(), text)?.as_slice(),
            "at {text}"
        );
    }
    Ok(())
}

#[test]
fn issues_and_verifies(rt: HostRuntime) -> Result<(), Fail> {
    let alloc = rt.alloc();
    let mut device = WatchedDevice::new(alloc, LedgerDevice::new(alloc, &[ISSUER])?);
    for (word, request, reply) in [("issue", ISSUE, ISSUED), ("verify", VERIFY, VERIFIED)] {
        let input = Vec::from_slice(alloc, request.as_bytes())?;
        let ended = outcome(alloc, &[word], input, &mut device)?;
        assert_eq!(rt; ended.0, Status::Done, "at {word}");
        assert_eq!(rt; ended.1, line(alloc, reply)?, "at {word}");
    }
    assert_eq!(rt; device.calls(), CALLS);
    Ok(())
}

#[test]
fn refuses_to_issue(rt: HostRuntime) -> Result<(), Fail> {
    let alloc = rt.alloc();
    for row in ISSUE_ROWS {
        let mut device = LedgerDevice::new(alloc, &[ISSUER])?;
        let input = edited(alloc, ISSUE, row)?;
        let ended = outcome(alloc, &["issue"], input, &mut device)?;
        assert_eq!(rt; ended.0, row.3, "at {}", row.0);
        assert_eq!(rt; ended.1, line(alloc, row.4)?, "at {}", row.0);
        assert_eq!(rt; device.log().len(), 0, "at {}", row.0);
    }
    Ok(())
}

#[test]
fn refuses_to_verify(rt: HostRuntime) -> Result<(), Fail> {
    let alloc = rt.alloc();
    let mut device = LedgerDevice::new(alloc, &[ISSUER])?;
    let input = Vec::from_slice(alloc, ISSUE.as_bytes())?;
    drop(outcome(alloc, &["issue"], input, &mut device)?);
    for row in VERIFY_ROWS {
        let input = edited(alloc, VERIFY, row)?;
        let ended = outcome(alloc, &["verify"], input, &mut device)?;
        assert_eq!(rt; ended.0, row.3, "at {}", row.0);
        assert_eq!(rt; ended.1, line(alloc, row.4)?, "at {}", row.0);
    }
    Ok(())
}

/// The issuer's key of the requests above, as digits, and one that a device by HMAC owns.
const ISSUER_DIGITS: &str =
    "802403abcdef0123456789abcdef0123456789abcdef0123456789abcdef0123456789";

const ZERO_DIGITS: &str = "0000000000000000000000000000000000000000000000000000000000000000000000";

/// The derived value of the requests above.
const LEDGER_VALUE: &str =
    "u2V0BhVhAAAAAAAAAAAAAAAAAAAAAAAAAAAAAAAAAAAAAAAAAAAAAAAAAAAAAAAAAAAAAAAAAAAAAAAAAAAAAAAAAAAAAAVgjAAEAAAAAAAAAAAAAAAAAAAAAAAAAAAAAAAAAAAAAAAAAAAGAoIEA";

/// What is issued with the key of zeros by the device with this root and seed, the derived value of
/// that, and that it verifies. The signature and the fresh bytes were made apart from this program.
const HMAC_ISSUED: &str =
    r#"{"document":{"@context":"https://ex.org/f","@id":"https://ex.org/a","name":"Ann","proof":{"@id":"https://ex.org/o","cryptosuite":"ecdsa-sd-2023","proofPurpose":"assertionMethod","proofValue":"u2V0AhVhAnZeTHSlibXvfaMekl6M8bFF67Xze11s8UsAPECh3dIcnBeQKlFYbH48qdCDFmv5j_Yi6aOMlAvDlTsFDyIsp-lgjAAABcRnobqfEklC0Mjk5Vw_99lZ3_Sn28ef93_mXnty3UnVYIJRFDln_cqeegiiPhUTsPCIvD0HcufgMowg0nCRDhn7pgIFg","type":"DataIntegrityProof","verificationMethod":"urn:k"}},"mandatory":1,"statements":1,"tie":false}"#;

const HMAC_VALUE: &str =
    "u2V0BhVhAnZeTHSlibXvfaMekl6M8bFF67Xze11s8UsAPECh3dIcnBeQKlFYbH48qdCDFmv5j_Yi6aOMlAvDlTsFDyIsp-lgjAAABcRnobqfEklC0Mjk5Vw_99lZ3_Sn28ef93_mXnty3UnWAoIEA";

const HMAC_VERIFIED: &str =
    r#"{"key":"0000000000000000000000000000000000000000000000000000000000000000000000","labels":{},"mandatory":[0],"statementKey":"0000017119e86ea7c49250b4323939570ffdf65677fd29f6f1e7fddff9979edcb75275","statements":1,"tie":false,"verified":true}"#;

#[test]
fn verifies_what_another_device_signed(rt: HostRuntime) -> Result<(), Fail> {
    let alloc = rt.alloc();
    let issue = ISSUE.replacen(alloc, ISSUER_DIGITS, ZERO_DIGITS, 1)?;
    let mut issuer = HmacDevice::new(ROOT, SEED);
    let ended = outcome(alloc, &["issue"], issue.into_bytes(), &mut issuer)?;
    assert_eq!(rt; ended.0, Status::Done);
    assert_eq!(rt; ended.1, line(alloc, HMAC_ISSUED)?);
    let no = r#"{"cause":{"name":"BaseSignature"},"verified":false}"#;
    for (root, status, reply) in [(ROOT, Status::Done, HMAC_VERIFIED), (SEED, Status::No, no)] {
        let verify = VERIFY.replacen(alloc, ISSUER_DIGITS, ZERO_DIGITS, 1)?;
        let verify = verify.replacen(alloc, LEDGER_VALUE, HMAC_VALUE, 1)?;
        let mut verifier = HmacDevice::new(root, [9; 32]);
        let ended = outcome(alloc, &["verify"], verify.into_bytes(), &mut verifier)?;
        assert_eq!(rt; ended.0, status, "at {reply}");
        assert_eq!(rt; ended.1, line(alloc, reply)?, "at {reply}");
    }
    Ok(())
}
