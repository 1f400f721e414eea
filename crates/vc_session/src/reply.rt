//! What a command replies, and the bytes of it.

ghost use Rattle.std.specs.Prelude.{◌≡◌};
ghost use Rattle.vc_session.specs.Replies.{bytes_of};

use nquads::Sequence;

/// What a command answers, before it is written.
#[derive(Debug, Drop)]
pub enum Reply {
    /// The canonical N-Quads of the request's document.
    Statements(Sequence<u8>),
    /// The words are no command line.
    Usage,
    /// The input has more bytes than are read.
    TooLong,
    /// The input is no JSON text.
    NotJson,
    /// The input nests deeper than is read.
    TreeTooDeep,
    /// A number of the input is not whole. These are the bytes of the refusal, which carries its place.
    NotWhole(Sequence<u8>),
    /// The request is none that this program answers.
    NotBuilt,
    /// The document of the request has no statement.
    NoStatements,
    /// The key table has no key for the proof's verification method. These, as those below, are the bytes
    /// of the line.
    UnknownMethod(Sequence<u8>),
    /// The device does not own the issuer's key.
    NoKey(Sequence<u8>),
    /// The proof value is none, and why.
    ProofValue(Sequence<u8>),
    /// The document with a base proof.
    Document(Sequence<u8>),
    /// The document verifies.
    Yes(Sequence<u8>),
    /// The document does not verify, and why.
    No(Sequence<u8>),
    /// The key device failed.
    DeviceFault,
    /// The source failed.
    ReadFault,
    /// Out of memory.
    Memory,
}

impl Reply {
    /// The bytes that are written. It takes no memory: the texts here are those of their trees.
    #[tactic(auto, using(crate::proofs::ReplyTexts::reply_lines))]
    pub fn as_bytes(&self) -> &[u8]
        ensures { result.now ≡ bytes_of self.now }
    {
        match self {
            Reply::Statements(text) => text.as_slice(),
            Reply::Usage => b"usage: vc_cli statements|issue|verify\n",
            Reply::TooLong => b"{\"refused\":{\"limit\":8388608,\"name\":\"TooLong\"}}\n",
            Reply::NotJson => b"{\"refused\":{\"name\":\"NotJson\"}}\n",
            Reply::TreeTooDeep => b"{\"refused\":{\"limit\":100,\"name\":\"TreeTooDeep\"}}\n",
            Reply::NotWhole(line) => line.as_slice(),
            Reply::NotBuilt => b"{\"refused\":{\"name\":\"NotBuilt\"}}\n",
            Reply::NoStatements => b"{\"refused\":{\"name\":\"NoStatements\"}}\n",
            Reply::UnknownMethod(line) | Reply::NoKey(line) => line.as_slice(),
            Reply::ProofValue(line) | Reply::Document(line) => line.as_slice(),
            Reply::Yes(line) | Reply::No(line) => line.as_slice(),
            Reply::DeviceFault => b"{\"refused\":{\"name\":\"DeviceFault\"}}\n",
            Reply::ReadFault => b"{\"refused\":{\"name\":\"ReadFault\"}}\n",
            Reply::Memory => b"{\"refused\":{\"name\":\"Memory\"}}\n",
        }
    }
}
