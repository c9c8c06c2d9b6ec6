// Names of policies and rules.
ghost use Rattle.std.specs.Prelude.{◌≡◌, ◌↔◌, IsTrue, IfOk, All};
ghost use Rattle.archive_policy.specs.Names.{IsName, IsNameByte};

use crate::NameFault;
use gno_num::Memory;
use std::alloc::Global;
use std::marker::Model;

const LONGEST: usize = 255;

/// 1 to 255 printable bytes of ASCII without `/`.
#[derive(Debug, Drop)]
pub struct Name {
    bytes: Vec<u8>,
}

impl Model for Name {
    ghost use Rattle.std.specs.Prelude.{List, ℕ};
    ghost use Rattle.archive_policy.specs.Names.{IsName};

    ghost Value = { List ℕ };

    ghost view = { λ n. n.bytes.items };

    ghost invariant = { λ n. IsName n.bytes.items };
}

impl Name {
    /// The name with this text.
    pub fn of(alloc: Global, text: &[u8]) -> Result<Name, NameFault>
        ensures ok { IfOk result (λ name. (name ≡ text.now) × IsName text.now) }
        ensures bad_name { (result ≡ Err NameFault.BadName) ↔ (¬ IsName text.now) }
    {
        if is_name(text) {
            let bytes = Vec::from_slice(alloc, text)?;
            Ok(Name { bytes })
        } else {
            Err(NameFault::BadName)
        }
    }

    /// The text.
    pub fn bytes(&self) -> &[u8]
        ensures value { result.now ≡ self.now }
        ensures is_name { IsName result.now }
    {
        self.bytes.as_slice()
    }

    /// Whether the two are equal.
    pub fn equals(&self, other: &Name) -> bool
        ensures { IsTrue result ↔ (self.now ≡ other.now) }
    {
        self.bytes.as_slice() == other.bytes.as_slice()
    }

    /// An equal name.
    pub fn copy(&self) -> Result<Name, Memory>
        ensures { IfOk result (λ copy. copy ≡ self.now) }
    {
        let bytes = Vec::from_slice(*self.bytes.allocator(), self.bytes.as_slice())?;
        Ok(Name { bytes })
    }
}

/// Whether the text is a name.
fn is_name(text: &[u8]) -> bool
    ensures { IsTrue result ↔ IsName text.now }
{
    !text.is_empty() && text.len() <= LONGEST && are_name_bytes(text)
}

/// Whether each byte may stand in a name.
fn are_name_bytes(text: &[u8]) -> bool
    ensures { IsTrue result ↔ All IsNameByte text.now }
{
    text.iter().all(|byte| is_name_byte(*byte))
}

/// Whether the byte may stand in a name.
fn is_name_byte(byte: u8) -> bool
    ensures { IsTrue result ↔ IsNameByte byte }
{
    0x20 <= byte && byte <= 0x7E && byte != b'/'
}
