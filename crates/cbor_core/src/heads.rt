//! The heads of items (RFC 8949, 3).

ghost use Rattle.std.specs.Prelude.{◌≡◌, ◌<◌, ◌-◌, ◌++◌, length, replicate};
ghost use Rattle.cbor_core.specs.Grammar.{head_of};

/// The head of an item (RFC 8949, 3): the first `len` of the bytes. The others are 0.
#[derive(Clone, Copy, Debug, PartialEq, Eq)]
pub struct HeadBytes {
    pub bytes: [u8; 9],
    pub len: u8,
}

/// The head with this major type and argument, in the fewest bytes (RFC 8949, 4.2.1). It takes no
/// memory.
#[tactic(auto, unfolding(crate::specs::Grammar::head_of))]
pub fn head(major: u8, value: u64) -> HeadBytes
    requires { major < 8 }
    ensures len { result.len ≡ length (head_of major value) }
    ensures bytes { result.bytes
        ≡ head_of major value ++ replicate (9 - length (head_of major value)) 0 }
{
    let first = major * 32;
    if value < 24 {
        return HeadBytes {
            bytes: [first + value as u8, 0, 0, 0, 0, 0, 0, 0, 0],
            len: 1,
        };
    }
    if value < 0x100 {
        return HeadBytes {
            bytes: [first + 24, value as u8, 0, 0, 0, 0, 0, 0, 0],
            len: 2,
        };
    }
    if value < 0x1_0000 {
        let [a, b] = (value as u16).to_be_bytes();
        return HeadBytes {
            bytes: [first + 25, a, b, 0, 0, 0, 0, 0, 0],
            len: 3,
        };
    }
    if value < 0x1_0000_0000 {
        let [a, b, c, d] = (value as u32).to_be_bytes();
        return HeadBytes {
            bytes: [first + 26, a, b, c, d, 0, 0, 0, 0],
            len: 5,
        };
    }
    let [a, b, c, d, e, f, g, h] = value.to_be_bytes();
    HeadBytes {
        bytes: [first + 27, a, b, c, d, e, f, g, h],
        len: 9,
    }
}
