//! Tests of first-degree hashes. What is wanted was made by python's hashlib, by the steps of RDF
//! Dataset Canonicalization, 4.6.3.

use bumpalo::Bump;
use digest_mac::Hash;
use nquads::{BlankHash, NqFault, read};
use rdfc_first::first_hashes;
use std::alloc::Global;
use term_store::{TermId, Terms};

/// A blank node of a dataset, with its hash by SHA-256 and by SHA-384.
struct Want {
    blank: &'static str,
    sha256: &'static str,
    sha384: &'static str,
}

/// A dataset, and its blank nodes in the order in which they are first met.
struct Dataset {
    name: &'static str,
    text: &'static str,
    want: &'static [Want],
}

const DATASETS: [Dataset; 11] = [
    Dataset {
        name: "nodes told apart by first-degree hashes (RDF Dataset Canonicalization, 4.6)",
        text: concat!(
            "<http://example.com/#p> <http://example.com/#q> _:e0 .\n",
            "<http://example.com/#p> <http://example.com/#r> _:e1 .\n",
            "_:e0 <http://example.com/#s> <http://example.com/#u> .\n",
            "_:e1 <http://example.com/#t> <http://example.com/#u> .\n",
        ),
        want: &[
            Want {
                blank: "_:ne0",
                sha256: "21d1dd5ba21f3dee9d76c0c00c260fa6f5d5d65315099e553026f4828d0dc77a",
                sha384: "a7af2b6f7155e94aa494858e6cfa5e4e28eb037655d8c046bce7facc7a952b25fcda83c00d8a25c19f2414f9ee1bb05a",
            },
            Want {
                blank: "_:ne1",
                sha256: "6fa0b9bdb376852b5743ff39ca4cbf7ea14d34966b2828478fbf222e7c764473",
                sha384: "562868987317538ac46d062bee5fd115e58763175308a3757fbfe9c66554fa1804a3a6f7873631bb60d7c0dbcb7ae32f",
            },
        ],
    },
    Dataset {
        name: "two nodes that share a hash (RDF Dataset Canonicalization, 4.8)",
        text: concat!(
            "<http://example.com/#p> <http://example.com/#q> _:e0 .\n",
            "<http://example.com/#p> <http://example.com/#q> _:e1 .\n",
            "_:e0 <http://example.com/#p> _:e2 .\n",
            "_:e1 <http://example.com/#p> _:e3 .\n",
            "_:e2 <http://example.com/#r> _:e3 .\n",
        ),
        want: &[
            Want {
                blank: "_:ne0",
                sha256: "3b26142829b8887d011d779079a243bd61ab53c3990d550320a17b59ade6ba36",
                sha384: "beda16ec6a55605f334aa6b0376b1a2c43a5079d64c0f485b7af194b29d5184e6be99567d3bc1e9ece42ca094bc40a46",
            },
            Want {
                blank: "_:ne1",
                sha256: "3b26142829b8887d011d779079a243bd61ab53c3990d550320a17b59ade6ba36",
                sha384: "beda16ec6a55605f334aa6b0376b1a2c43a5079d64c0f485b7af194b29d5184e6be99567d3bc1e9ece42ca094bc40a46",
            },
            Want {
                blank: "_:ne2",
                sha256: "15973d39de079913dac841ac4fa8c4781c0febfba5e83e5c6e250869587f8659",
                sha384: "8cd6872747206fc129992e99e9d4f01adbe44e5b8f30d38ae994b7061a05f46fc4d58915a2ab7a781b5c7250ee0eee9a",
            },
            Want {
                blank: "_:ne3",
                sha256: "7e790a99273eed1dc57e43205d37ce232252c85b26ca4a6ff74ff3b5aea7bccd",
                sha384: "858dec1960cce78bb2fca93a153a7e8f8893842f620de670bb58260e6cd3183fc93f01d397c2fb000fde790091d083d5",
            },
        ],
    },
    Dataset {
        name: "the same under other names, in another order",
        text: concat!(
            "_:b <http://example.com/#r> _:a .\n",
            "_:c <http://example.com/#p> _:a .\n",
            "_:d <http://example.com/#p> _:b .\n",
            "<http://example.com/#p> <http://example.com/#q> _:c .\n",
            "<http://example.com/#p> <http://example.com/#q> _:d .\n",
        ),
        want: &[
            Want {
                blank: "_:nb",
                sha256: "15973d39de079913dac841ac4fa8c4781c0febfba5e83e5c6e250869587f8659",
                sha384: "8cd6872747206fc129992e99e9d4f01adbe44e5b8f30d38ae994b7061a05f46fc4d58915a2ab7a781b5c7250ee0eee9a",
            },
            Want {
                blank: "_:na",
                sha256: "7e790a99273eed1dc57e43205d37ce232252c85b26ca4a6ff74ff3b5aea7bccd",
                sha384: "858dec1960cce78bb2fca93a153a7e8f8893842f620de670bb58260e6cd3183fc93f01d397c2fb000fde790091d083d5",
            },
            Want {
                blank: "_:nc",
                sha256: "3b26142829b8887d011d779079a243bd61ab53c3990d550320a17b59ade6ba36",
                sha384: "beda16ec6a55605f334aa6b0376b1a2c43a5079d64c0f485b7af194b29d5184e6be99567d3bc1e9ece42ca094bc40a46",
            },
            Want {
                blank: "_:nd",
                sha256: "3b26142829b8887d011d779079a243bd61ab53c3990d550320a17b59ade6ba36",
                sha384: "beda16ec6a55605f334aa6b0376b1a2c43a5079d64c0f485b7af194b29d5184e6be99567d3bc1e9ece42ca094bc40a46",
            },
        ],
    },
    Dataset {
        name: "the same in a third order",
        text: concat!(
            "_:c <http://example.com/#p> _:a .\n",
            "<http://example.com/#p> <http://example.com/#q> _:c .\n",
            "<http://example.com/#p> <http://example.com/#q> _:d .\n",
            "_:d <http://example.com/#p> _:b .\n",
            "_:b <http://example.com/#r> _:a .\n",
        ),
        want: &[
            Want {
                blank: "_:nc",
                sha256: "3b26142829b8887d011d779079a243bd61ab53c3990d550320a17b59ade6ba36",
                sha384: "beda16ec6a55605f334aa6b0376b1a2c43a5079d64c0f485b7af194b29d5184e6be99567d3bc1e9ece42ca094bc40a46",
            },
            Want {
                blank: "_:na",
                sha256: "7e790a99273eed1dc57e43205d37ce232252c85b26ca4a6ff74ff3b5aea7bccd",
                sha384: "858dec1960cce78bb2fca93a153a7e8f8893842f620de670bb58260e6cd3183fc93f01d397c2fb000fde790091d083d5",
            },
            Want {
                blank: "_:nd",
                sha256: "3b26142829b8887d011d779079a243bd61ab53c3990d550320a17b59ade6ba36",
                sha384: "beda16ec6a55605f334aa6b0376b1a2c43a5079d64c0f485b7af194b29d5184e6be99567d3bc1e9ece42ca094bc40a46",
            },
            Want {
                blank: "_:nb",
                sha256: "15973d39de079913dac841ac4fa8c4781c0febfba5e83e5c6e250869587f8659",
                sha384: "8cd6872747206fc129992e99e9d4f01adbe44e5b8f30d38ae994b7061a05f46fc4d58915a2ab7a781b5c7250ee0eee9a",
            },
        ],
    },
    Dataset {
        name: "a statement that mentions its node as subject and object is taken once",
        text: concat!("_:x <http://example.com/#p> _:x .\n",),
        want: &[Want {
            blank: "_:nx",
            sha256: "da3be2ae7899464f6c34186a7c5707e09434b21389cdc0d79b0133b45279065c",
            sha384: "36aac8d545e6b74b53fd7e8d15c6d61e07ffedd5ff14d684e047f1af10dc6dc6deb58eb264c1c2f331e6f439c0f25b34",
        }],
    },
    Dataset {
        name: "a statement that mentions its node three times is taken once",
        text: concat!("_:x <http://example.com/#p> _:x _:x .\n",),
        want: &[Want {
            blank: "_:nx",
            sha256: "c73b3f0b7a3d7b3ee8d82815be6a4e60fca898f93ec3e82c0d5f6cb0dccaa379",
            sha384: "c324cb951b682463d7dec65ccd98620aeabcff5150b56d63662597d75f5dcd68977e9569205503bd25b63300a56b08a8",
        }],
    },
    Dataset {
        name: "a statement that mentions its node as subject and graph is taken once",
        text: concat!("_:x <http://example.com/#p> \"1\" _:x .\n",),
        want: &[Want {
            blank: "_:nx",
            sha256: "f9f6966b2bc8d7a8b1ce82a1b5291261de2d9bba32ce8dc33d92cfaa69d15f41",
            sha384: "f01bd57c71888185d83f3a3ba43e7f114e2383fe47fe8411e5adc64f6526c0f8407665b85095d389d43e7c0c8219d474",
        }],
    },
    Dataset {
        name: "another node as object and graph",
        text: concat!("_:x <http://example.com/#p> _:y _:y .\n",),
        want: &[
            Want {
                blank: "_:nx",
                sha256: "11dbc37accb35b9351c17ce8fe07ca497f7b494345bf2642f3fde76490db1cc4",
                sha384: "0a31ab3cbd7d38a962966d6a0869d655e3cc348d1489924bb5fdbe0f8f411a16b4998a0a9b3e350326efb60ba71229bb",
            },
            Want {
                blank: "_:ny",
                sha256: "0dea2e6db8a00818a7a0b96d770eb8ef612bec98013631364aa12f25ae1edb18",
                sha384: "e2d58588a83cc46cf3a8fe0185b8812f8545f8f3170b7ef97a086fe91ff0d6d9a6ef5fab40a89a15c1ac2e1cb4df7c39",
            },
        ],
    },
    Dataset {
        name: "a graph that is a blank node",
        text: concat!(
            "<http://example.com/#s> <http://example.com/#p> <http://example.com/#o> _:g0 .\n",
            "_:x <http://example.com/#p> \"1\" _:g0 .\n",
        ),
        want: &[
            Want {
                blank: "_:ng0",
                sha256: "663129169ab04a764a87455ce07f6bbb570dea1379cda2ad1f75870b37d3c6e2",
                sha384: "27c86343c0fd014d6b1e6367852d2614c9778297857eb120328d924f0ea1fe726e9806ec28f22e44463d4c41b419fca7",
            },
            Want {
                blank: "_:nx",
                sha256: "773ccf6d9140bc2a7362879d19d43b2e9894e3f3a72eab75e9b1692acff871a8",
                sha384: "2df96adfabe747ee7b665f97ad533e6ed58eb2f981e58ad9881ba32c98960163035cf1694a1be877b8aa287ef2f77f6b",
            },
        ],
    },
    Dataset {
        name: "equal lines are digested as often as they are there",
        text: concat!(
            "_:x <http://example.com/#p> _:y .\n",
            "_:x <http://example.com/#p> _:z .\n",
        ),
        want: &[
            Want {
                blank: "_:nx",
                sha256: "04e8ce99918febcb8c06233b293e33005aaef2efa8ff9f85a7cecaf0f7912d47",
                sha384: "3e73eb5fe4742656902dd92a2bbebff6094d846db69c188e4a34cf1eb48d79c5bab5508845ff7382205b4b5861e67102",
            },
            Want {
                blank: "_:ny",
                sha256: "d0c892f725be8a360ba0bb04d5eec1241812f8ebac11c5c597aa2e0fb695a19b",
                sha384: "27b2f519dc81dd0ebad21c2d69a8f5083160cf816b0f86c6a3f86c4f81cc1f758a27ca91cdbd700948e7b89462340697",
            },
            Want {
                blank: "_:nz",
                sha256: "d0c892f725be8a360ba0bb04d5eec1241812f8ebac11c5c597aa2e0fb695a19b",
                sha384: "27b2f519dc81dd0ebad21c2d69a8f5083160cf816b0f86c6a3f86c4f81cc1f758a27ca91cdbd700948e7b89462340697",
            },
        ],
    },
    Dataset {
        name: "a literal that looks like a blank node",
        text: concat!("<http://example.com/#s> <http://example.com/#p> \"_:nx\" .\n",),
        want: &[],
    },
];

/// The text of a number, and nothing for one that is not of the store.
fn text_of<'a>(terms: &Terms<'a>, id: TermId) -> &'a str {
    if (id.index as usize) < terms.len() {
        return terms.text(id);
    }
    ""
}

fn is_wanted(terms: &Terms<'_>, got: &BlankHash, want: &Want, hash: Hash) -> bool {
    let wanted = match hash {
        Hash::Sha256 => want.sha256,
        Hash::Sha384 => want.sha384,
    };
    text_of(terms, got.blank) == want.blank && got.hash.as_str() == wanted
}

/// Whether the blank nodes have these hashes, in the order of their numbers.
fn has_hashes(alloc: Global, dataset: &Dataset, hash: Hash) -> Result<bool, NqFault> {
    let arena = Bump::new(alloc);
    let mut terms = Terms::new(alloc, &arena)?;
    let quads = read(alloc, &mut terms, dataset.text.as_bytes())?;
    let hashes = first_hashes(alloc, &terms, &quads, hash)?;
    for (got, want) in hashes.iter().zip(dataset.want) {
        if !is_wanted(&terms, got, want, hash) {
            return Ok(false);
        }
    }
    Ok(hashes.len() == dataset.want.len())
}

#[test]
fn hashes_are_those_of_the_standard(rt: HostRuntime) -> Result<(), NqFault> {
    for dataset in &DATASETS {
        for hash in [Hash::Sha256, Hash::Sha384] {
            let same = has_hashes(rt.alloc(), dataset, hash)?;
            assert!(rt; same, "{}", dataset.name);
        }
    }
    Ok(())
}
