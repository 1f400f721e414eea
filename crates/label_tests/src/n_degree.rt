//! Calls for blank nodes by their numbers in a store, and what a call refuses.
ghost use Rattle.std.specs.Prelude.{All, IfOk};
ghost use Rattle.nquads.specs.Stored.{IsKnown};

use bumpalo::Bump;
use digest_mac::{Hash, digest_hex};
use nquads::{BlankHash, read};
use rdfc_ndegree::{CanonFault, Issuer, Limits, Memory, Meter, Path, Sequence, n_degree};
use std::alloc::Global;
use std::test::Fail;
use term_store::{Quads, TermId, Terms};

/// A blank node as a store keeps it, and the lines of which its first-degree hash is the digest.
pub type First = (&'static str, &'static str);

const ALONE: &str = "_:a <http://example.com/#p> <http://example.com/#o> .\n";

const PAIR: &str = "_:a <http://example.com/#p> _:z .\n_:z <http://example.com/#p> _:a .\n";

const TWIN: &str = "_:z <http://example.com/#p> _:a .\n";

const TWINS: &str = "_:a <http://example.com/#p> _:z .\n_:a <http://example.com/#p> _:z .\n";

const INNER: &str = "_:z <http://example.com/#q> _:a .\n";

const MIDDLE: &str =
    "_:a <http://example.com/#q> _:z .\n_:a <http://example.com/#q> _:z .\n_:z <http://example.com/#p> _:a .\n";

const OUTER: &str = "_:a <http://example.com/#p> _:z .\n";

/// The statements of a text of N-Quads.
pub fn statements(alloc: Global, terms: &mut Terms<'_>, text: &str) -> Result<Quads, CanonFault>
    ensures { IfOk result (All (IsKnown terms.new)) }
{
    match read(alloc, terms, text.as_bytes()) {
        Ok(quads) => Ok(quads),
        Err(_) => Err(CanonFault::Memory),
    }
}

pub fn hashes(
    alloc: Global,
    terms: &mut Terms<'_>,
    firsts: &[First],
    hash: Hash,
) -> Result<Vec<BlankHash>, Memory> {
    let mut hashes = Vec::new(alloc);
    for (name, lines) in firsts {
        hashes.push(BlankHash {
            blank: terms.intern(name)?,
            hash: digest_hex(hash, lines.as_bytes()),
        })?;
    }
    Ok(hashes)
}

/// The text of a number, and nothing for one that is not of the store.
fn text_of<'a>(terms: &Terms<'a>, id: TermId) -> &'a str {
    if (id.index as usize) < terms.len() {
        return terms.text(id);
    }
    ""
}

fn meter(spent: u64, work: u64) -> Meter {
    Meter {
        spent,
        limits: Limits { work },
    }
}

/// A call with what it gives by either hash, what was spent before, and how many arrangements it
/// takes, which is the limit too.
struct Case {
    name: &'static str,
    statements: &'static str,
    firsts: &'static [First],
    canonical: &'static [&'static str],
    node: &'static str,
    begun: &'static [&'static str],
    sha256: &'static str,
    sha384: &'static str,
    issuer: &'static [&'static str],
    tie: bool,
    spent: u64,
    work: u64,
}

const NESTED: &str =
    "_:e3 <http://example.com/#p> _:e2 .\n_:e2 <http://example.com/#q> _:e0 .\n_:e2 <http://example.com/#q> _:e1 .\n";

const NESTED_FIRSTS: [First; 4] = [
    ("_:ne0", INNER),
    ("_:ne1", INNER),
    ("_:ne2", MIDDLE),
    ("_:ne3", OUTER),
];

/// Nodes that are alike at first.
const FIVE_ALIKE: [First; 5] = [
    ("_:ne0", PAIR),
    ("_:ne1", PAIR),
    ("_:ne2", PAIR),
    ("_:ne3", PAIR),
    ("_:ne4", PAIR),
];

/// Node 0 is beside node 1 twice as subject, node 2 three times as object and node 3 twice as graph.
const POSITIONS: &str =
    "_:one <http://example.com/p> _:zero .\n_:zero <http://example.com/p> _:two .\n_:zero <http://example.com/p> _:two _:three .\n_:zero <http://example.com/p> _:two <http://example.com/g> .\n_:zero <http://example.com/p> \"x\" _:three .\n_:one <http://example.com/p> _:zero <http://example.com/g> .\n";

const POSITION_FIRSTS: [First; 4] = [
    ("_:nzero", "zero"),
    ("_:none", "one"),
    ("_:ntwo", "two"),
    ("_:nthree", "three"),
];

// The hashes and the counts of arrangements were made by other programs, which follow RDF Dataset
// Canonicalization, 4.8.3, step by step.
const CASES: [Case; 10] = [
    Case {
        name: "nodes that point to each other",
        statements: "_:e0 <http://example.com/#p> _:e1 .\n_:e1 <http://example.com/#p> _:e0 .\n",
        firsts: &[("_:ne0", PAIR), ("_:ne1", PAIR)],
        canonical: &[],
        node: "_:ne0",
        begun: &["_:ne0"],
        sha256: "7e1cc424a09c2cec63c842f82750863acf36ddfc548c01a2df238976e6b8531c",
        sha384: "75a954c8b70f4f56a7502e5e590a496d8ff64dd070bd68a2a688e7f9f627d9ecf8b4ccb429ad5ddf083ea594988219ec",
        issuer: &["_:ne0", "_:ne1"],
        tie: false,
        spent: 0,
        work: 4,
    },
    Case {
        name: "two related nodes that nothing tells apart: the issuer of the first arrangement",
        statements: "_:e2 <http://example.com/#p> _:e0 .\n_:e2 <http://example.com/#p> _:e1 .\n",
        firsts: &[("_:ne0", TWIN), ("_:ne1", TWIN), ("_:ne2", TWINS)],
        canonical: &[],
        node: "_:ne2",
        begun: &["_:ne2"],
        sha256: "7c57be766fe8e9c6a99fc62f4652209ee6b5046c757803d08d344bf5da68db6c",
        sha384: "6af0a7de5625a1a5e5e6c74ec4ce263eefe15e25d73388b0eaf9c14fcc866efe106fb894eb9a88863c13013b6fd2f0b5",
        issuer: &["_:ne2", "_:ne0", "_:ne1"],
        tie: true,
        spent: 0,
        work: 6,
    },
    Case {
        name: "a tie one call deeper",
        statements: NESTED,
        firsts: &NESTED_FIRSTS,
        canonical: &[],
        node: "_:ne3",
        begun: &["_:ne3"],
        sha256: "4d8fc9cc3e10a5ba32a61d646518b6becd74a2f360ac91b699ae6912f885263c",
        sha384: "126baf1c164c9f0fb253a2684b3c392d7eb6c9e52c9cb12939cf7cbe08ae8293c2351ba0895daefffcebb3989eff8d64",
        issuer: &["_:ne3", "_:ne2", "_:ne0", "_:ne1"],
        tie: true,
        spent: 0,
        work: 8,
    },
    Case {
        name: "a node that stands alone",
        statements: "_:e0 <http://example.com/#p> <http://example.com/#o> .\n",
        firsts: &[("_:ne0", ALONE)],
        canonical: &[],
        node: "_:ne0",
        begun: &["_:ne0"],
        sha256: "e3b0c44298fc1c149afbf4c8996fb92427ae41e4649b934ca495991b7852b855",
        sha384: "38b060a751ac96384cd9327eb1b1e36a21fdb71114be07434c0cc7bf63f6e1da274edebfe76f65fbd51ad2f14898b95b",
        issuer: &["_:ne0"],
        tie: false,
        spent: 0,
        work: 0,
    },
    Case {
        name: "a node that stands alone, where more was spent than the limit",
        statements: "_:e0 <http://example.com/#p> <http://example.com/#o> .\n",
        firsts: &[("_:ne0", ALONE)],
        canonical: &[],
        node: "_:ne0",
        begun: &["_:ne0"],
        sha256: "e3b0c44298fc1c149afbf4c8996fb92427ae41e4649b934ca495991b7852b855",
        sha384: "38b060a751ac96384cd9327eb1b1e36a21fdb71114be07434c0cc7bf63f6e1da274edebfe76f65fbd51ad2f14898b95b",
        issuer: &["_:ne0"],
        tie: false,
        spent: 3,
        work: 0,
    },
    Case {
        name: "issuers that hold nodes which stand in no statement",
        statements: NESTED,
        firsts: &NESTED_FIRSTS,
        canonical: &["_:ne8", "_:ne0"],
        node: "_:ne3",
        begun: &["_:ne9", "_:ne3"],
        sha256: "b046868ea83bfb1e4460c11e221cf71aefe542e495cbc25bc472f48bb55586d3",
        sha384: "e0aaf6810b30714ea679acdc55f3fc7c14b9597087a33f091368286a0b40a799862d6952ef7f77d74cb9135ce303adf7",
        issuer: &["_:ne9", "_:ne3", "_:ne2", "_:ne1"],
        tie: false,
        spent: 0,
        work: 5,
    },
    Case {
        name: "the same, and so does the node",
        statements: NESTED,
        firsts: &NESTED_FIRSTS,
        canonical: &["_:ne7"],
        node: "_:ne9",
        begun: &["_:ne8"],
        sha256: "e3b0c44298fc1c149afbf4c8996fb92427ae41e4649b934ca495991b7852b855",
        sha384: "38b060a751ac96384cd9327eb1b1e36a21fdb71114be07434c0cc7bf63f6e1da274edebfe76f65fbd51ad2f14898b95b",
        issuer: &["_:ne8"],
        tie: false,
        spent: 0,
        work: 0,
    },
    Case {
        name: "a ring of nodes, of which each call waits for the next",
        statements: "_:e0 <http://example.com/#p> _:e1 .\n_:e1 <http://example.com/#p> _:e2 .\n_:e2 <http://example.com/#p> _:e3 .\n_:e3 <http://example.com/#p> _:e4 .\n_:e4 <http://example.com/#p> _:e0 .\n",
        firsts: &FIVE_ALIKE,
        canonical: &[],
        node: "_:ne0",
        begun: &["_:ne0"],
        sha256: "a3239a00a47e7aba69e77ee3431c9aa68785497e68b0165b0dc932abc31d2d36",
        sha384: "5d4bee91cda2fd9fc09c4975961635ac882caec6587dd68e5090840fb88fe353c35a9170d0acfb01004e1e21c5feedd4",
        issuer: &["_:ne0", "_:ne4", "_:ne3", "_:ne2", "_:ne1"],
        tie: false,
        spent: 0,
        work: 10,
    },
    Case {
        name: "a chain of nodes, from one end to the other",
        statements: "_:e0 <http://example.com/#p> _:e1 .\n_:e1 <http://example.com/#p> _:e2 .\n_:e2 <http://example.com/#p> _:e3 .\n_:e3 <http://example.com/#p> _:e4 .\n",
        firsts: &FIVE_ALIKE,
        canonical: &[],
        node: "_:ne0",
        begun: &["_:ne0"],
        sha256: "e01d9ab77e396d8a0007cfe95423312a3d6a459de774a4443cc074cc80c4d8ba",
        sha384: "4fddb59e094b2954385884a40ef0ee13f6de910e64d3585212df1860a794c552536f4e1eea2af39ccf025cfcf1da89c5",
        issuer: &["_:ne0", "_:ne1", "_:ne2", "_:ne3", "_:ne4"],
        tie: false,
        spent: 0,
        work: 8,
    },
    Case {
        name: "each position, in graphs too, beside a canonical node and a named one",
        statements: POSITIONS,
        firsts: &POSITION_FIRSTS,
        canonical: &["_:none"],
        node: "_:nzero",
        begun: &["_:nzero", "_:ntwo"],
        sha256: "b1f898f982cc5f21beee8dadf6e349cd9a7fa9ea22b3b7bd2e5328bc8a620d4a",
        sha384: "1f599fcd193285d7df2d20df51b03a1bb7037656f1858778be1ea846a7f85cddd28c65d5a4181d7c6ee3c2548f7db0b7",
        issuer: &["_:nzero", "_:ntwo", "_:nthree"],
        tie: false,
        spent: 0,
        work: 5,
    },
];

fn issuer(alloc: Global, terms: &mut Terms<'_>, names: &[&str]) -> Result<Issuer, Memory> {
    let mut order = Sequence::new(alloc);
    for name in names {
        order.push(terms.intern(name)?)?;
    }
    Ok(Issuer { order })
}

fn call(
    alloc: Global,
    terms: &mut Terms<'_>,
    case: &Case,
    hash: Hash,
    meter: &mut Meter,
) -> Result<Path, CanonFault> {
    let firsts = hashes(alloc, terms, case.firsts, hash)?;
    let canonical = issuer(alloc, terms, case.canonical)?;
    let node = terms.intern(case.node)?;
    let begun = issuer(alloc, terms, case.begun)?;
    let quads = statements(alloc, terms, case.statements)?;
    n_degree(
        alloc,
        terms,
        &quads,
        firsts.as_slice(),
        &canonical,
        node,
        begun,
        hash,
        meter,
    )
}

fn are_names(terms: &Terms<'_>, order: &[TermId], names: &[&str]) -> bool {
    for (id, name) in order.iter().zip(names) {
        if text_of(terms, *id) != *name {
            return false;
        }
    }
    order.len() == names.len()
}

fn is_path(terms: &Terms<'_>, path: &Path, case: &Case, hash: Hash) -> bool {
    let wanted = match hash {
        Hash::Sha256 => case.sha256,
        Hash::Sha384 => case.sha384,
    };
    path.hash.as_str() == wanted
        && are_names(terms, path.issuer.order.as_slice(), case.issuer)
        && path.tie == case.tie
}

/// Whether the call gives this within exactly its limit.
fn is_given(alloc: Global, case: &Case, hash: Hash) -> Result<bool, CanonFault> {
    let arena = Bump::new(alloc);
    let mut terms = Terms::new(alloc, &arena)?;
    let mut exact = meter(case.spent, case.work);
    let path = call(alloc, &mut terms, case, hash, &mut exact)?;
    let work = exact.spent.checked_sub(case.spent);
    Ok(is_path(&terms, &path, case, hash) && work == Some(case.work))
}

/// Whether one arrangement less than it takes is too few.
fn is_over(alloc: Global, case: &Case, hash: Hash) -> Result<bool, CanonFault> {
    let Some(work) = case.work.checked_sub(1) else {
        return Ok(true);
    };
    let arena = Bump::new(alloc);
    let mut terms = Terms::new(alloc, &arena)?;
    match call(alloc, &mut terms, case, hash, &mut meter(0, work)) {
        Ok(_) => Ok(false),
        Err(fault) => Ok(fault == CanonFault::TooMuchWork(work)),
    }
}

#[test]
fn calls_within_their_limit(rt: HostRuntime) -> Result<(), CanonFault> {
    for case in &CASES {
        for hash in [Hash::Sha256, Hash::Sha384] {
            let given = is_given(rt.alloc(), case, hash)?;
            let over = is_over(rt.alloc(), case, hash)?;
            assert!(rt; given && over, "{}", case.name);
        }
    }
    Ok(())
}

#[test]
fn faults_say_what_they_are(rt: HostRuntime) -> Result<(), Fail> {
    let work = CanonFault::TooMuchWork(5);
    let line = "more than 5 arrangements would be evaluated";
    assert_eq!(rt; format!(in rt.alloc(); "{work}")?.as_str(), line);
    let memory = CanonFault::Memory;
    assert_eq!(rt;
        format!(in rt.alloc(); "{memory}")?.as_str(),
        "out of memory"
    );
    Ok(())
}
