ghost use Rattle.std.specs.Prelude.{◌≡◌, ℕ, ◌<◌, ◌^◌, ◌++◌, length, IfOk};
ghost use Rattle.std.specs.Cmp.{IsTotalOrder};
ghost use Rattle.std.specs.FinMap.{IsAntisymmetric};
ghost use Rattle.hex.specs.Hex.{IsBytes};
ghost use Rattle.txn_key.specs.declared.id.Token.{Token as TokenValue};
ghost use Rattle.txn_key.specs.Ids.{id_of, nonce_of, token_of, id_text, nonce_text, token_text, id_cmp};

use doc_value::OutOfMemory;
use std::alloc::Global;
use std::cmp::Ordering;

/// The id of a transaction: twelve bytes, written as 24 hexadecimal digits.
#[derive(Clone, Copy, Debug, PartialEq, Eq, PartialOrd, Ord)]
pub struct TxnId(pub [u8; 12]);

impl TxnId {
    /// Reads 24 hexadecimal digits, in either case of letters. Any other text is no id.
    pub fn read(text: &[u8]) -> Option<TxnId>
        ensures { result ≡ id_of text.now }
    {
        if text.len() != 24 {
            return None;
        }
        let mut bytes = [0; 12];
        hex::decode_to_slice(text, &mut bytes).ok()?;
        Some(TxnId(bytes))
    }

    /// The 24 hexadecimal digits of the id, in lower case.
    pub fn print(&self, alloc: Global) -> Result<Vec<u8>, OutOfMemory>
        ensures { IfOk result (λ text. text.items ≡ id_text self.now) }
    {
        Ok(hex::encode(alloc, self.0.as_slice())?.into_bytes())
    }

    /// How the id stands to another in the order of their bytes.
    pub fn compare(&self, other: &TxnId) -> Ordering
        ensures { result ≡ id_cmp self.now other.now }
    {
        self.0.cmp(&other.0)
    }
}

/// What a transaction leaves in the queue of a key: its id, and the nonce that was drawn for it.
#[derive(Clone, Copy, Debug, PartialEq, Eq)]
pub struct Token {
    pub id: TxnId,
    pub nonce: u32,
}

impl Token {
    /// Reads an id, `_` and the 8 hexadecimal digits of a nonce, in either case of letters. Any other
    /// text is no token.
    pub fn read(text: &[u8]) -> Option<Token>
        ensures { result ≡ token_of text.now }
    {
        if text.len() != 33 || text[24] != b'_' {
            return None;
        }
        let id = TxnId::read(&text[..24])?;
        let (_, digits) = text.split_at(25);
        let nonce = read_nonce(digits)?;
        Some(Token { id, nonce })
    }

    /// The id, `_` and the 8 digits of the nonce, in lower case.
    pub fn print(&self, alloc: Global) -> Result<Vec<u8>, OutOfMemory>
        ensures { IfOk result (λ text. text.items ≡ token_text self.now) }
    {
        let mut text = self.id.print(alloc)?;
        text.push(b'_')?;
        let nonce = print_nonce(alloc, self.nonce)?;
        text.extend_from_slice(nonce.as_slice())?;
        Ok(text)
    }
}

/// Reads the 8 hexadecimal digits of a nonce, high digits first, in either case of letters.
pub fn read_nonce(text: &[u8]) -> Option<u32>
    ensures { result ≡ nonce_of text.now }
{
    if text.len() != 8 {
        return None;
    }
    let mut bytes = [0; 4];
    hex::decode_to_slice(text, &mut bytes).ok()?;
    Some(u32::from_be_bytes(bytes))
}

/// The 8 hexadecimal digits of a nonce, high digits first, in lower case.
fn print_nonce(alloc: Global, nonce: u32) -> Result<Vec<u8>, OutOfMemory>
    ensures { IfOk result (λ text. text.items ≡ nonce_text nonce) }
{
    let bytes = nonce.to_be_bytes();
    Ok(hex::encode(alloc, bytes.as_slice())?.into_bytes())
}

/// A law: the order of ids is total, and only equal ids tie in it.
pub fn ids_are_ordered()
    ensures total { IsTotalOrder id_cmp }
    ensures same { IsAntisymmetric id_cmp }
{}

/// A law: what is printed of a token reads as that token.
pub fn tokens_read_back()
    ensures { (t : TokenValue) → length t.id.0 ≡ 12 → IsBytes t.id.0 → t.nonce < 2 ^ 32 →
        token_of (token_text t) ≡ Some t }
{}
