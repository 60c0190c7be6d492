//! The digest of a definition. By it a launcher says what it loaded, and `jobctl apply` finds whether a file says the same.
#![tactic(auto)]

ghost use Rattle.std.specs.Prelude.{◌≡◌, IfOk, false, option_map};
ghost use Rattle.hex.specs.Hex.{encode_lower};
ghost use Rattle.serde_json.specs.Written.{compact_text, has_float};
ghost use Rattle.serde_json.specs.View.{view};
ghost use Rattle.sha2.specs.Sha256.{sha256};

use serde_json::Value;
use sha2::{Digest, Sha256};
use std::alloc::{AllocError, Global};
use std::str;

/// The SHA-256 (FIPS 180-4) of a definition, as 64 lower hexadecimal digits.
#[derive(Clone, Copy)]
pub struct DefinitionDigest {
    digits: [u8; 64],
}

impl DefinitionDigest {
    /// The digits.
    pub fn as_str(&self) -> &str {
        str::from_utf8(&self.digits).unwrap_or("")
    }
}

/// That of the definition as `serde_json` writes it: its keys in the order of their bytes, and no blanks.
pub fn digest_of_value(alloc: Global, value: &Value) -> Result<DefinitionDigest, AllocError>
    ensures { IfOk result (λ digest. has_float (view value.now) ≡ false → digest.digits ≡ encode_lower (sha256 (compact_text (view value.now)))) }
{
    let text = value.to_string(alloc)?;
    let digest = digest_of_text(text.as_str());
    drop(text);
    Ok(digest)
}

fn digest_of_text(text: &str) -> DefinitionDigest
    ensures { result.digits ≡ encode_lower (sha256 text.now) }
{
    let mut digits = [b'0'; 64];
    let _fits = hex::encode_to_slice(Sha256::digest(text), &mut digits);
    DefinitionDigest { digits }
}
