//! The file `device.key`, of which the program's device is made.

ghost use Rattle.std.specs.Prelude.{◌≡◌, ◌↔◌, ℕ, List, Some, IfSome, IsNone, IsTrue};
ghost use Rattle.hex.specs.Hex.{encode_lower};
ghost use Rattle.vc_cli.specs.declared.key_files.KeyFile.{KeyFile as AnyKeyFile};
ghost use Rattle.vc_session.specs.HexDigits.{AreDigits};
ghost use Rattle.vc_cli.specs.KeyFiles.{AreKeyLines, IsKeyFile, IsLastLine, IsLine};

use hex::FromHex;

/// What a key file holds. It has no `Debug`, so that no line of text shows a key.
#[derive(Clone, Copy, PartialEq, Eq)]
pub struct KeyFile {
    /// The root of the device's keys.
    pub root: [u8; 32],
    /// The seed of its fresh keys and secrets, where the file has one.
    pub seed: Option<[u8; 32]>,
}

/// What a key file with these bytes holds: a line of 64 hexadecimal digits in lower case, and perhaps
/// a second one. Each line ends with LF, which may be absent after the last. `None` exactly where the
/// bytes are no such file. It takes no memory.
#[tactic(auto, using(crate::proofs::KeyLines::one_file))]
pub fn key_file(bytes: &[u8]) -> Option<KeyFile>
    ensures found { IfSome result (λ file. IsKeyFile bytes.now file) }
    ensures only { (file : AnyKeyFile) → IsKeyFile bytes.now file → result ≡ Some file }
{
    if let Some(file) = one_line(bytes) {
        return Some(file);
    }
    two_lines(bytes)
}

/// What a file of one line holds.
fn one_line(bytes: &[u8]) -> Option<KeyFile>
    ensures found { IfSome result (λ file. IsKeyFile bytes.now file) }
    ensures none { IsNone result → (root : List ℕ) → IsLastLine bytes.now root → ⊥ }
{
    let Some(root) = last_line(bytes) else {
        return None;
    };
    Some(KeyFile { root, seed: None })
}

/// What a file of two lines holds.
#[tactic(auto, using(crate::proofs::KeyLines::two_lines))]
fn two_lines(bytes: &[u8]) -> Option<KeyFile>
    ensures found { IfSome result (λ file. IsKeyFile bytes.now file) }
    ensures none { IsNone result
        → (root seed : List ℕ) → AreKeyLines bytes.now root (Some seed) → ⊥ }
{
    if bytes.len() <= 65 {
        return None;
    }
    let (first, second) = bytes.split_at(65);
    let Some(root) = line(first) else {
        return None;
    };
    let Some(seed) = last_line(second) else {
        return None;
    };
    Some(KeyFile {
        root,
        seed: Some(seed),
    })
}

/// The bytes in a line that LF ends.
#[tactic(auto, using(crate::proofs::KeyLines::lines))]
fn line(text: &[u8]) -> Option<[u8; 32]>
    ensures found { IfSome result (λ bytes. IsLine text.now bytes) }
    ensures none { IsNone result → (bytes : List ℕ) → IsLine text.now bytes → ⊥ }
{
    let Some((end, digits)) = text.split_last() else {
        return None;
    };
    if *end != b'\n' {
        return None;
    }
    bytes_of(digits)
}

/// The bytes in a line that LF need not end.
#[tactic(auto, using(crate::proofs::KeyLines::last_lines))]
fn last_line(text: &[u8]) -> Option<[u8; 32]>
    ensures found { IfSome result (λ bytes. IsLastLine text.now bytes) }
    ensures none { IsNone result → (bytes : List ℕ) → IsLastLine text.now bytes → ⊥ }
{
    if text.len() == 64 {
        return bytes_of(text);
    }
    line(text)
}

/// The 32 bytes that are written with these digits.
#[tactic(auto, using(vc_session::proofs::DigitReadings::readings))]
fn bytes_of(digits: &[u8]) -> Option<[u8; 32]>
    ensures found { IfSome result (λ bytes. AreDigits 32 digits.now bytes) }
    ensures none { IsNone result → (bytes : List ℕ) → AreDigits 32 digits.now bytes → ⊥ }
{
    match <[u8; 32] as FromHex>::from_hex(digits) {
        Ok(bytes) => {
            // `from_hex` takes upper-case digits too: only what the bytes are written as is a line.
            if is_written(&bytes, digits) {
                Some(bytes)
            } else {
                None
            }
        }
        Err(_) => None,
    }
}

/// Whether the digits are those that the bytes are written with.
fn is_written(bytes: &[u8; 32], digits: &[u8]) -> bool
    ensures { IsTrue result ↔ (digits.now ≡ encode_lower bytes.now) }
{
    let mut written = [0u8; 64];
    match hex::encode_to_slice(bytes, &mut written) {
        Ok(()) => written.as_slice() == digits,
        Err(_) => false,
    }
}
