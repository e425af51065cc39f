//! The text with which a node makes itself known to a peer.

ghost use Rattle.std.specs.Prelude.{◌≡◌, ◌∷◌, ◌++◌, string_bytes, IfOk, OnOk};
ghost use Rattle.std.specs.Fmt.{decimal};
ghost use Rattle.peer_secret.specs.Passes.{coded_bytes, pass_bytes};

use crate::hmac::hmac_sha256;
use std::alloc::{AllocError, Global};
use wire_words::WireText;

/// What the code of a pass goes over: the cluster's name and the sender's address, a NUL after each, and the ids, each in eight bytes. So no
/// two passes have the same bytes unless a name or an address holds a NUL.
fn coded_bytes(
    alloc: Global,
    cluster: &str,
    address: &str,
    sender: u64,
    receiver: u64,
) -> Result<Vec<u8>, AllocError>
    ensures { IfOk result (λ bytes. bytes.items ≡ coded_bytes cluster.now address.now sender receiver) }
{
    let mut bytes = Vec::from_slice(alloc, cluster.as_bytes())?;
    bytes.push(0)?;
    bytes.extend_from_slice(address.as_bytes())?;
    bytes.push(0)?;
    bytes.extend_from_slice(&sender.to_le_bytes())?;
    bytes.extend_from_slice(&receiver.to_le_bytes())?;
    Ok(bytes)
}

/// A number in decimal.
fn digits_of(alloc: Global, number: u64) -> Result<String, AllocError>
    ensures { IfOk result (λ digits. string_bytes digits ≡ decimal number) }
{
    format!(in alloc; "{number}")
}

/// Adds a space and a word.
fn add_word(text: &mut String, word: &str) -> Result<(), AllocError>
    ensures { OnOk result (string_bytes text.new ≡ string_bytes text.old ++ 32 ∷ word.now) }
{
    text.push_str(" ")?;
    text.push_str(word)
}

/// The text of a node's CONNECT to a peer: its address, its id, the peer's id and the code of these and of the cluster's name by the secret,
/// 64 hexadecimal digits, with a space between each two.
pub fn pass_text(
    alloc: Global,
    secret: &[u8],
    cluster: &str,
    address: &str,
    sender: u64,
    receiver: u64,
) -> Result<WireText, AllocError>
    ensures { IfOk result (λ text. text ≡ pass_bytes secret.now cluster.now address.now sender receiver) }
{
    let bytes = coded_bytes(alloc, cluster, address, sender, receiver)?;
    let code = hmac_sha256(alloc, secret, bytes.as_slice())?;
    let code = hex::encode(alloc, code)?;
    let mut text = String::from_str(alloc, address)?;
    add_word(&mut text, digits_of(alloc, sender)?.as_str())?;
    add_word(&mut text, digits_of(alloc, receiver)?.as_str())?;
    add_word(&mut text, code.as_str())?;
    Ok(WireText::new(text))
}
