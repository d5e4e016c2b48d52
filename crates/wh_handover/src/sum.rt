//! The sum of a text.
#![tactic(auto)]

ghost use Rattle.std.specs.Prelude.{◌≡◌, ◌<◌, length};
ghost use Rattle.std.specs.List.{AllByRecursion};
ghost use Rattle.sha2.specs.Sha256.{sha256};
ghost use Rattle.hex.specs.Hex.{encode_lower};

use sha2::{Digest, Sha256};
use wh_front::Sum;

/// A byte has 8 bits. It does nothing: this is known of what is passed by value.
fn read(_byte: u8)
    ensures { _byte < 256 }
{}

/// Each of these has.
fn read_all(bytes: &[u8])
    ensures { AllByRecursion (λ byte. byte < 256) bytes.now }
{
    for byte in bytes {
        read(*byte);
    }
}

/// The digits of 32 bytes.
fn digits_of(digest: [u8; 32]) -> [u8; 64]
    ensures digits { result ≡ encode_lower digest }
    ensures bytes { length digest ≡ 32 }
{
    let mut digits = [0; 64];
    let written = hex::encode_to_slice(digest, &mut digits);
    prove!(written.is_ok());
    digits
}

/// The sum that these 32 bytes are.
fn sum_from(digest: [u8; 32]) -> Sum
    ensures { result ≡ encode_lower digest }
{
    read_all(&digest);
    let digits = digits_of(digest);
    match Sum::read(&digits) {
        Some(sum) => sum,
        None => unreachable!(),
    }
}

/// The sum of a text: its SHA-256.
pub fn sum_of(text: &[u8]) -> Sum
    ensures { result ≡ encode_lower (sha256 text.now) }
{
    sum_from(Sha256::digest(text))
}
