//! Labels under a key, beside those of another implementation, and how a clash is told.
use bumpalo::Bump;
use digest_mac::{Hash, label_text};
use hmac_labels::{HmacLabels, LabelFault, Memory, labels};
use nquads::read;
use rdfc_canon::{Limits, canonicalise};
use std::alloc::Global;
use std::test::Fail;
use term_store::Terms;

const KEY: [u8; 32] = [
    0, 1, 2, 3, 4, 5, 6, 7, 8, 9, 10, 11, 12, 13, 14, 15, 16, 17, 18, 19, 20, 21, 22, 23, 24, 25,
    26, 27, 28, 29, 30, 31,
];

/// Eleven blank nodes, each with a value of its own.
const ELEVEN: &[u8] = b"_:a <urn:p> \"0\" .
_:b <urn:p> \"1\" .
_:c <urn:p> \"2\" .
_:d <urn:p> \"3\" .
_:e <urn:p> \"4\" .
_:f <urn:p> \"5\" .
_:g <urn:p> \"6\" .
_:h <urn:p> \"7\" .
_:i <urn:p> \"8\" .
_:j <urn:p> \"9\" .
_:k <urn:p> \"10\" .
";

/// A dataset, a hash, how many labels there are, and some of them with their numbers.
struct Row {
    text: &'static [u8],
    hash: Hash,
    count: usize,
    wanted: &'static [(usize, &'static str)],
}

/// The labels under the key, as another implementation prints them.
const ROWS: [Row; 3] = [
    Row {
        text: ELEVEN,
        hash: Hash::Sha256,
        count: 11,
        wanted: &[
            (0, "uvr9exgQZiTpLoNkPgD1m5Y5k_wCkiN3EIeziE4wJc2E"),
            (1, "u6JYLMRv14lmdsWCy2J-BZ8aoy8-7oadLvWrpGhGWf80"),
            (10, "uVRBYE7DEIKeX_IeVb5RQ5xIrqD9LzQT1OodhzxRyzD0"),
        ],
    },
    Row {
        text: ELEVEN,
        hash: Hash::Sha384,
        count: 11,
        wanted: &[
            (
                0,
                "uPWuHL0pU18h7O_M4JLKxUYNY2WejtppuLxoZitTHz0Jwl1ArUXT5uq_ufzziuoQY",
            ),
            (
                1,
                "u63z8FLCiyTpX-sLhao_8trO0VZHBkEYzU0SnS0mowRnrWUcDJbT2S29lZXHjPEZS",
            ),
            (
                10,
                "uaHO-t_rG8d4QDn_ulVrSqYzEqKKsehvw4UiU4q3Ti-BWmUopns-RVzPn3eiZpTUY",
            ),
        ],
    },
    Row {
        text: b"<urn:a> <urn:p> <urn:b> .\n",
        hash: Hash::Sha256,
        count: 0,
        wanted: &[],
    },
];

/// The labels of a row's dataset.
fn labels_of(alloc: Global, row: &Row) -> Result<HmacLabels, LabelFault> {
    let arena = Bump::new(alloc);
    let mut terms = Terms::new(alloc, &arena)?;
    match read(alloc, &mut terms, row.text) {
        Ok(quads) => match canonicalise(alloc, &terms, &quads, row.hash, &Limits { work: 0 }) {
            Ok(canon) => labels(alloc, &canon, row.hash, &KEY),
            Err(_) => Err(LabelFault::Memory),
        },
        Err(_) => Err(LabelFault::Memory),
    }
}

/// Whether the label at a place is this text, and that of the digest there.
fn is_label(alloc: Global, given: &HmacLabels, place: usize, wanted: &str) -> Result<bool, Memory> {
    match (given.labels.at(place), given.digests.get(place)) {
        (Some((_, text)), Some(digest)) => {
            let again = label_text(alloc, digest.as_slice())?;
            Ok(text.as_str() == wanted && again.as_str() == wanted)
        }
        _ => Ok(false),
    }
}

#[test]
fn known_labels(rt: HostRuntime) -> Result<(), Fail> {
    let alloc = rt.alloc();
    for row in &ROWS {
        let given = labels_of(alloc, row)?;
        assert_eq!(rt; given.labels.len(), row.count);
        assert_eq!(rt; given.digests.len(), row.count);
        for (place, wanted) in row.wanted {
            assert!(rt; is_label(alloc, &given, *place, wanted)?, "{place}");
        }
    }
    Ok(())
}

#[test]
fn faults_as_texts(rt: HostRuntime) -> Result<(), Fail> {
    let clash = format!(in rt.alloc(); "{}", LabelFault::Clash(3, 5))?;
    assert_eq!(rt;
        clash.as_str(),
        "the canonical numbers 3 and 5 have one label"
    );
    let memory = format!(in rt.alloc(); "{}", LabelFault::Memory)?;
    assert_eq!(rt; memory.as_str(), "out of memory");
    Ok(())
}
