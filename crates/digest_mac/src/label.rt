//! The blank label that belongs to a digest (Data Integrity ECDSA Cryptosuites 1.0,
//! createHmacIdLabelMapFunction).

ghost use Rattle.std.specs.Prelude.{◌≡◌, IfOk};
ghost use Rattle.digest_mac.specs.Labels.{multibase_text};

use base_types::{Memory, Text};
use base64::engine::general_purpose::URL_SAFE_NO_PAD;
use std::alloc::Global;

/// The label of a digest: `u`, and base64url without padding of its bytes (RFC 4648, section 5).
pub fn label_text(alloc: Global, digest: &[u8]) -> Result<Text, Memory>
    ensures { IfOk result (λ text. text ≡ multibase_text digest.now) }
{
    let mut text = String::new(alloc);
    text.push('u')?;
    URL_SAFE_NO_PAD.encode_string(digest, &mut text)?;
    Ok(Text::from_string(text))
}
