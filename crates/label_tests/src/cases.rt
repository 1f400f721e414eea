//! Datasets with what labelling gives by either hash.

/// Subject, predicate, object, and the graph, or the empty text for the default graph.
pub(crate) type Row = (&'static str, &'static str, &'static str, &'static str);

/// The canonical lines of a dataset, its blank nodes in the order of their labels, and what a run
/// meets and takes.
pub(crate) struct Want {
    pub lines: &'static [&'static str],
    pub order: &'static [&'static str],
    pub tie: bool,
    pub work: u64,
}

/// A dataset, with what is wanted by SHA-256 and by SHA-384.
pub(crate) struct Case {
    pub name: &'static str,
    pub rows: &'static [Row],
    pub sha256: Want,
    pub sha384: Want,
}

pub(crate) const P: &str = "<https://ex.org/v#p>";

const Q: &str = "<https://ex.org/v#q>";

pub(crate) const G: &str = "<https://ex.org/g>";

const H: &str = "<https://ex.org/h>";

const VC: &str = "<urn:vc:1>";

// Lines, order and work come from two other programs: one follows the standard step by step,
// the other evaluates every arrangement to its end. They give the same for the renamed datasets.
pub(crate) const CASES: [Case; 18] = [
    Case {
        name: "no statement",
        rows: &[],
        sha256: Want {
            lines: &[],
            order: &[],
            tie: false,
            work: 0,
        },
        sha384: Want {
            lines: &[],
            order: &[],
            tie: false,
            work: 0,
        },
    },
    Case {
        name: "one blank node",
        rows: &[("_:n0", P, "\"v\"", "")],
        sha256: Want {
            lines: &["_:c14n0 <https://ex.org/v#p> \"v\" .\n"],
            order: &["_:n0"],
            tie: false,
            work: 0,
        },
        sha384: Want {
            lines: &["_:c14n0 <https://ex.org/v#p> \"v\" .\n"],
            order: &["_:n0"],
            tie: false,
            work: 0,
        },
    },
    Case {
        name: "one blank node, named by one letter",
        rows: &[("_:a", P, "\"v\"", "")],
        sha256: Want {
            lines: &["_:c14n0 <https://ex.org/v#p> \"v\" .\n"],
            order: &["_:a"],
            tie: false,
            work: 0,
        },
        sha384: Want {
            lines: &["_:c14n0 <https://ex.org/v#p> \"v\" .\n"],
            order: &["_:a"],
            tie: false,
            work: 0,
        },
    },
    Case {
        name: "two like nodes",
        rows: &[("_:n0", P, "\"v\"", ""), ("_:n1", P, "\"v\"", "")],
        sha256: Want {
            lines: &[
                "_:c14n0 <https://ex.org/v#p> \"v\" .\n",
                "_:c14n1 <https://ex.org/v#p> \"v\" .\n",
            ],
            order: &["_:n0", "_:n1"],
            tie: true,
            work: 0,
        },
        sha384: Want {
            lines: &[
                "_:c14n0 <https://ex.org/v#p> \"v\" .\n",
                "_:c14n1 <https://ex.org/v#p> \"v\" .\n",
            ],
            order: &["_:n0", "_:n1"],
            tie: true,
            work: 0,
        },
    },
    Case {
        name: "two chains with other ends",
        rows: &[
            ("_:n0", P, "_:n1", ""),
            ("_:n1", P, "_:n2", ""),
            ("_:n2", P, "\"x\"", ""),
            ("_:n3", P, "_:n4", ""),
            ("_:n4", P, "_:n5", ""),
            ("_:n5", P, "\"y\"", ""),
        ],
        sha256: Want {
            lines: &[
                "_:c14n0 <https://ex.org/v#p> \"y\" .\n",
                "_:c14n1 <https://ex.org/v#p> \"x\" .\n",
                "_:c14n2 <https://ex.org/v#p> _:c14n3 .\n",
                "_:c14n3 <https://ex.org/v#p> _:c14n0 .\n",
                "_:c14n4 <https://ex.org/v#p> _:c14n5 .\n",
                "_:c14n5 <https://ex.org/v#p> _:c14n1 .\n",
            ],
            order: &["_:n5", "_:n2", "_:n3", "_:n4", "_:n0", "_:n1"],
            tie: false,
            work: 6,
        },
        sha384: Want {
            lines: &[
                "_:c14n0 <https://ex.org/v#p> \"x\" .\n",
                "_:c14n1 <https://ex.org/v#p> \"y\" .\n",
                "_:c14n2 <https://ex.org/v#p> _:c14n1 .\n",
                "_:c14n3 <https://ex.org/v#p> _:c14n2 .\n",
                "_:c14n4 <https://ex.org/v#p> _:c14n0 .\n",
                "_:c14n5 <https://ex.org/v#p> _:c14n4 .\n",
            ],
            order: &["_:n2", "_:n5", "_:n4", "_:n3", "_:n1", "_:n0"],
            tie: false,
            work: 6,
        },
    },
    Case {
        name: "two nodes that point to each other",
        rows: &[("_:n0", P, "_:n1", ""), ("_:n1", P, "_:n0", "")],
        sha256: Want {
            lines: &[
                "_:c14n0 <https://ex.org/v#p> _:c14n1 .\n",
                "_:c14n1 <https://ex.org/v#p> _:c14n0 .\n",
            ],
            order: &["_:n0", "_:n1"],
            tie: true,
            work: 8,
        },
        sha384: Want {
            lines: &[
                "_:c14n0 <https://ex.org/v#p> _:c14n1 .\n",
                "_:c14n1 <https://ex.org/v#p> _:c14n0 .\n",
            ],
            order: &["_:n0", "_:n1"],
            tie: true,
            work: 8,
        },
    },
    Case {
        name: "a hub with two like rays",
        rows: &[
            ("_:n0", P, "_:n1", ""),
            ("_:n0", P, "_:n2", ""),
            ("_:n1", P, "\"v\"", ""),
            ("_:n2", P, "\"v\"", ""),
        ],
        sha256: Want {
            lines: &[
                "_:c14n0 <https://ex.org/v#p> _:c14n1 .\n",
                "_:c14n0 <https://ex.org/v#p> _:c14n2 .\n",
                "_:c14n1 <https://ex.org/v#p> \"v\" .\n",
                "_:c14n2 <https://ex.org/v#p> \"v\" .\n",
            ],
            order: &["_:n0", "_:n1", "_:n2"],
            tie: true,
            work: 2,
        },
        sha384: Want {
            lines: &[
                "_:c14n0 <https://ex.org/v#p> _:c14n1 .\n",
                "_:c14n0 <https://ex.org/v#p> _:c14n2 .\n",
                "_:c14n1 <https://ex.org/v#p> \"v\" .\n",
                "_:c14n2 <https://ex.org/v#p> \"v\" .\n",
            ],
            order: &["_:n0", "_:n1", "_:n2"],
            tie: true,
            work: 2,
        },
    },
    Case {
        name: "a cycle of four",
        rows: &[
            ("_:n0", P, "_:n1", ""),
            ("_:n1", P, "_:n2", ""),
            ("_:n2", P, "_:n3", ""),
            ("_:n3", P, "_:n0", ""),
        ],
        sha256: Want {
            lines: &[
                "_:c14n0 <https://ex.org/v#p> _:c14n1 .\n",
                "_:c14n1 <https://ex.org/v#p> _:c14n2 .\n",
                "_:c14n2 <https://ex.org/v#p> _:c14n3 .\n",
                "_:c14n3 <https://ex.org/v#p> _:c14n0 .\n",
            ],
            order: &["_:n0", "_:n1", "_:n2", "_:n3"],
            tie: true,
            work: 32,
        },
        sha384: Want {
            lines: &[
                "_:c14n0 <https://ex.org/v#p> _:c14n3 .\n",
                "_:c14n1 <https://ex.org/v#p> _:c14n0 .\n",
                "_:c14n2 <https://ex.org/v#p> _:c14n1 .\n",
                "_:c14n3 <https://ex.org/v#p> _:c14n2 .\n",
            ],
            order: &["_:n0", "_:n3", "_:n2", "_:n1"],
            tie: true,
            work: 32,
        },
    },
    Case {
        name: "two equal components",
        rows: &[("_:n0", P, "_:n1", ""), ("_:n2", P, "_:n3", "")],
        sha256: Want {
            lines: &[
                "_:c14n0 <https://ex.org/v#p> _:c14n1 .\n",
                "_:c14n2 <https://ex.org/v#p> _:c14n3 .\n",
            ],
            order: &["_:n0", "_:n1", "_:n2", "_:n3"],
            tie: true,
            work: 4,
        },
        sha384: Want {
            lines: &[
                "_:c14n1 <https://ex.org/v#p> _:c14n0 .\n",
                "_:c14n3 <https://ex.org/v#p> _:c14n2 .\n",
            ],
            order: &["_:n1", "_:n0", "_:n3", "_:n2"],
            tie: true,
            work: 4,
        },
    },
    Case {
        name: "one triple in two graphs",
        rows: &[
            ("_:n0", P, "_:n1", H),
            ("_:n0", P, "_:n1", G),
            ("_:n1", P, "\"x\"", ""),
        ],
        sha256: Want {
            lines: &[
                "_:c14n0 <https://ex.org/v#p> _:c14n1 <https://ex.org/g> .\n",
                "_:c14n0 <https://ex.org/v#p> _:c14n1 <https://ex.org/h> .\n",
                "_:c14n1 <https://ex.org/v#p> \"x\" .\n",
            ],
            order: &["_:n0", "_:n1"],
            tie: false,
            work: 0,
        },
        sha384: Want {
            lines: &[
                "_:c14n0 <https://ex.org/v#p> _:c14n1 <https://ex.org/g> .\n",
                "_:c14n0 <https://ex.org/v#p> _:c14n1 <https://ex.org/h> .\n",
                "_:c14n1 <https://ex.org/v#p> \"x\" .\n",
            ],
            order: &["_:n0", "_:n1"],
            tie: false,
            work: 0,
        },
    },
    Case {
        name: "a node that points to itself",
        rows: &[("_:n0", P, "_:n0", ""), ("_:n0", P, "_:n1", "")],
        sha256: Want {
            lines: &[
                "_:c14n0 <https://ex.org/v#p> _:c14n0 .\n",
                "_:c14n0 <https://ex.org/v#p> _:c14n1 .\n",
            ],
            order: &["_:n0", "_:n1"],
            tie: false,
            work: 0,
        },
        sha384: Want {
            lines: &[
                "_:c14n0 <https://ex.org/v#p> _:c14n0 .\n",
                "_:c14n0 <https://ex.org/v#p> _:c14n1 .\n",
            ],
            order: &["_:n0", "_:n1"],
            tie: false,
            work: 0,
        },
    },
    Case {
        name: "a blank graph",
        rows: &[
            ("<https://ex.org/s>", P, "\"v\"", "_:n0"),
            ("_:n0", P, "_:n1", ""),
        ],
        sha256: Want {
            lines: &[
                "<https://ex.org/s> <https://ex.org/v#p> \"v\" _:c14n0 .\n",
                "_:c14n0 <https://ex.org/v#p> _:c14n1 .\n",
            ],
            order: &["_:n0", "_:n1"],
            tie: false,
            work: 0,
        },
        sha384: Want {
            lines: &[
                "<https://ex.org/s> <https://ex.org/v#p> \"v\" _:c14n1 .\n",
                "_:c14n1 <https://ex.org/v#p> _:c14n0 .\n",
            ],
            order: &["_:n1", "_:n0"],
            tie: false,
            work: 0,
        },
    },
    Case {
        name: "cycles of three and four",
        rows: &[
            ("_:n0", P, "_:n1", ""),
            ("_:n1", P, "_:n2", ""),
            ("_:n2", P, "_:n0", ""),
            ("_:n3", P, "_:n4", ""),
            ("_:n4", P, "_:n5", ""),
            ("_:n5", P, "_:n6", ""),
            ("_:n6", P, "_:n3", ""),
            ("_:n0", P, "\"x\"", ""),
        ],
        sha256: Want {
            lines: &[
                "_:c14n0 <https://ex.org/v#p> \"x\" .\n",
                "_:c14n0 <https://ex.org/v#p> _:c14n2 .\n",
                "_:c14n1 <https://ex.org/v#p> _:c14n0 .\n",
                "_:c14n2 <https://ex.org/v#p> _:c14n1 .\n",
                "_:c14n3 <https://ex.org/v#p> _:c14n4 .\n",
                "_:c14n4 <https://ex.org/v#p> _:c14n5 .\n",
                "_:c14n5 <https://ex.org/v#p> _:c14n6 .\n",
                "_:c14n6 <https://ex.org/v#p> _:c14n3 .\n",
            ],
            order: &["_:n0", "_:n2", "_:n1", "_:n3", "_:n4", "_:n5", "_:n6"],
            tie: true,
            work: 40,
        },
        sha384: Want {
            lines: &[
                "_:c14n0 <https://ex.org/v#p> \"x\" .\n",
                "_:c14n0 <https://ex.org/v#p> _:c14n1 .\n",
                "_:c14n1 <https://ex.org/v#p> _:c14n2 .\n",
                "_:c14n2 <https://ex.org/v#p> _:c14n0 .\n",
                "_:c14n3 <https://ex.org/v#p> _:c14n6 .\n",
                "_:c14n4 <https://ex.org/v#p> _:c14n3 .\n",
                "_:c14n5 <https://ex.org/v#p> _:c14n4 .\n",
                "_:c14n6 <https://ex.org/v#p> _:c14n5 .\n",
            ],
            order: &["_:n0", "_:n1", "_:n2", "_:n3", "_:n6", "_:n5", "_:n4"],
            tie: true,
            work: 40,
        },
    },
    Case {
        name: "a credential",
        rows: &[
            (
                VC,
                "<http://www.w3.org/1999/02/22-rdf-syntax-ns#type>",
                "<https://ex.org/vc#VerifiableCredential>",
                "",
            ),
            (VC, "<https://ex.org/vc#credentialSubject>", "_:n0", ""),
            (VC, "<https://ex.org/vc#issuer>", "<https://ex.org/i>", ""),
            ("_:n0", "<https://schema.org/name>", "\"Ann\"", ""),
        ],
        sha256: Want {
            lines: &[
                "<urn:vc:1> <http://www.w3.org/1999/02/22-rdf-syntax-ns#type> <https://ex.org/vc#VerifiableCredential> .\n",
                "<urn:vc:1> <https://ex.org/vc#credentialSubject> _:c14n0 .\n",
                "<urn:vc:1> <https://ex.org/vc#issuer> <https://ex.org/i> .\n",
                "_:c14n0 <https://schema.org/name> \"Ann\" .\n",
            ],
            order: &["_:n0"],
            tie: false,
            work: 0,
        },
        sha384: Want {
            lines: &[
                "<urn:vc:1> <http://www.w3.org/1999/02/22-rdf-syntax-ns#type> <https://ex.org/vc#VerifiableCredential> .\n",
                "<urn:vc:1> <https://ex.org/vc#credentialSubject> _:c14n0 .\n",
                "<urn:vc:1> <https://ex.org/vc#issuer> <https://ex.org/i> .\n",
                "_:c14n0 <https://schema.org/name> \"Ann\" .\n",
            ],
            order: &["_:n0"],
            tie: false,
            work: 0,
        },
    },
    Case {
        name: "calls four deep",
        rows: &[
            ("_:n4", P, "_:n1", ""),
            ("_:n1", P, "_:n1", H),
            ("_:n2", P, "_:n5", ""),
            ("_:n2", P, "_:n1", H),
            ("_:n3", P, "_:n3", H),
            ("_:n4", P, "_:n3", H),
            ("_:n0", P, "_:n5", H),
            ("_:n5", P, "_:n5", H),
        ],
        sha256: Want {
            lines: &[
                "_:c14n0 <https://ex.org/v#p> _:c14n3 <https://ex.org/h> .\n",
                "_:c14n1 <https://ex.org/v#p> _:c14n1 <https://ex.org/h> .\n",
                "_:c14n2 <https://ex.org/v#p> _:c14n3 .\n",
                "_:c14n2 <https://ex.org/v#p> _:c14n4 <https://ex.org/h> .\n",
                "_:c14n3 <https://ex.org/v#p> _:c14n3 <https://ex.org/h> .\n",
                "_:c14n4 <https://ex.org/v#p> _:c14n4 <https://ex.org/h> .\n",
                "_:c14n5 <https://ex.org/v#p> _:c14n1 <https://ex.org/h> .\n",
                "_:c14n5 <https://ex.org/v#p> _:c14n4 .\n",
            ],
            order: &["_:n0", "_:n3", "_:n2", "_:n5", "_:n1", "_:n4"],
            tie: false,
            work: 22,
        },
        sha384: Want {
            lines: &[
                "_:c14n0 <https://ex.org/v#p> _:c14n5 <https://ex.org/h> .\n",
                "_:c14n1 <https://ex.org/v#p> _:c14n1 <https://ex.org/h> .\n",
                "_:c14n2 <https://ex.org/v#p> _:c14n1 <https://ex.org/h> .\n",
                "_:c14n2 <https://ex.org/v#p> _:c14n3 .\n",
                "_:c14n3 <https://ex.org/v#p> _:c14n3 <https://ex.org/h> .\n",
                "_:c14n4 <https://ex.org/v#p> _:c14n3 <https://ex.org/h> .\n",
                "_:c14n4 <https://ex.org/v#p> _:c14n5 .\n",
                "_:c14n5 <https://ex.org/v#p> _:c14n5 <https://ex.org/h> .\n",
            ],
            order: &["_:n0", "_:n3", "_:n4", "_:n1", "_:n2", "_:n5"],
            tie: false,
            work: 22,
        },
    },
    Case {
        name: "a member twice in a group",
        rows: &[
            ("_:n3", P, "_:n2", "_:n3"),
            ("_:n5", P, "_:n0", "_:n5"),
            ("_:n5", Q, "_:n1", ""),
            ("_:n4", Q, "_:n2", "_:n3"),
            ("_:n1", Q, "_:n0", "_:n5"),
        ],
        sha256: Want {
            lines: &[
                "_:c14n0 <https://ex.org/v#q> _:c14n5 _:c14n2 .\n",
                "_:c14n1 <https://ex.org/v#q> _:c14n4 _:c14n3 .\n",
                "_:c14n2 <https://ex.org/v#p> _:c14n5 _:c14n2 .\n",
                "_:c14n3 <https://ex.org/v#p> _:c14n4 _:c14n3 .\n",
                "_:c14n3 <https://ex.org/v#q> _:c14n1 .\n",
            ],
            order: &["_:n4", "_:n1", "_:n3", "_:n5", "_:n0", "_:n2"],
            tie: false,
            work: 6,
        },
        sha384: Want {
            lines: &[
                "_:c14n0 <https://ex.org/v#p> _:c14n5 _:c14n0 .\n",
                "_:c14n0 <https://ex.org/v#q> _:c14n1 .\n",
                "_:c14n1 <https://ex.org/v#q> _:c14n5 _:c14n0 .\n",
                "_:c14n2 <https://ex.org/v#p> _:c14n4 _:c14n2 .\n",
                "_:c14n3 <https://ex.org/v#q> _:c14n4 _:c14n2 .\n",
            ],
            order: &["_:n5", "_:n1", "_:n3", "_:n4", "_:n2", "_:n0"],
            tie: false,
            work: 6,
        },
    },
    Case {
        name: "blank graphs that are found in nowhere else",
        rows: &[
            ("_:n5", P, "\"x\"", ""),
            ("_:n4", P, "_:n5", "_:n0"),
            ("_:n2", P, "_:n1", "_:n3"),
        ],
        sha256: Want {
            lines: &[
                "_:c14n0 <https://ex.org/v#p> \"x\" .\n",
                "_:c14n3 <https://ex.org/v#p> _:c14n0 _:c14n2 .\n",
                "_:c14n5 <https://ex.org/v#p> _:c14n1 _:c14n4 .\n",
            ],
            order: &["_:n5", "_:n1", "_:n0", "_:n4", "_:n3", "_:n2"],
            tie: false,
            work: 8,
        },
        sha384: Want {
            lines: &[
                "_:c14n1 <https://ex.org/v#p> \"x\" .\n",
                "_:c14n3 <https://ex.org/v#p> _:c14n1 _:c14n2 .\n",
                "_:c14n5 <https://ex.org/v#p> _:c14n0 _:c14n4 .\n",
            ],
            order: &["_:n1", "_:n5", "_:n0", "_:n4", "_:n3", "_:n2"],
            tie: false,
            work: 8,
        },
    },
    Case {
        name: "arrangements that differ, the first of them not the least",
        rows: &[
            ("_:n4", P, "_:n6", "_:n6"),
            ("_:n3", Q, "_:n2", ""),
            ("_:n7", P, "_:n9", "_:n9"),
            ("_:n7", P, "_:n8", "_:n9"),
            ("_:n4", P, "_:n5", "_:n5"),
            ("_:n1", Q, "_:n8", ""),
            ("_:n5", P, "_:n1", ""),
            ("_:n9", Q, "_:n2", "_:n2"),
            ("_:n6", P, "_:n3", ""),
        ],
        sha256: Want {
            lines: &[
                "_:c14n2 <https://ex.org/v#q> _:c14n1 _:c14n1 .\n",
                "_:c14n3 <https://ex.org/v#p> _:c14n0 _:c14n2 .\n",
                "_:c14n3 <https://ex.org/v#p> _:c14n2 _:c14n2 .\n",
                "_:c14n4 <https://ex.org/v#p> _:c14n5 _:c14n5 .\n",
                "_:c14n4 <https://ex.org/v#p> _:c14n6 _:c14n6 .\n",
                "_:c14n5 <https://ex.org/v#p> _:c14n7 .\n",
                "_:c14n6 <https://ex.org/v#p> _:c14n8 .\n",
                "_:c14n7 <https://ex.org/v#q> _:c14n0 .\n",
                "_:c14n8 <https://ex.org/v#q> _:c14n1 .\n",
            ],
            order: &[
                "_:n8", "_:n2", "_:n9", "_:n7", "_:n4", "_:n5", "_:n6", "_:n1", "_:n3",
            ],
            tie: false,
            work: 23,
        },
        sha384: Want {
            lines: &[
                "_:c14n0 <https://ex.org/v#q> _:c14n1 _:c14n1 .\n",
                "_:c14n3 <https://ex.org/v#q> _:c14n2 .\n",
                "_:c14n4 <https://ex.org/v#p> _:c14n3 .\n",
                "_:c14n5 <https://ex.org/v#p> _:c14n4 _:c14n4 .\n",
                "_:c14n5 <https://ex.org/v#p> _:c14n6 _:c14n6 .\n",
                "_:c14n6 <https://ex.org/v#p> _:c14n7 .\n",
                "_:c14n7 <https://ex.org/v#q> _:c14n1 .\n",
                "_:c14n8 <https://ex.org/v#p> _:c14n0 _:c14n0 .\n",
                "_:c14n8 <https://ex.org/v#p> _:c14n2 _:c14n0 .\n",
            ],
            order: &[
                "_:n9", "_:n2", "_:n8", "_:n1", "_:n5", "_:n4", "_:n6", "_:n3", "_:n7",
            ],
            tie: false,
            work: 27,
        },
    },
];
