//! Names of points and clients.
#![tactic(auto)]

ghost use Rattle.std.specs.Prelude.{◌≡◌, ℕ, ◌≤◌, List, ◌∷◌, [], true, length, ◌↔◌, IsTrue};
ghost use Rattle.std.specs.List.{list_all};
ghost use Rattle.std.specs.Prelude.{nat_eq};
ghost use Rattle.std.specs.Cmp.{partial_equiv_from_equiv};
ghost use Rattle.std.specs.Cmp.Lexicographic.{pointwise, nat_list_eq_equiv};
ghost use Rattle.std.specs.Cmp.Rules.{hashing};
ghost use Rattle.std.specs.Hash as fed;
ghost use Rattle.std.proofs.Common.{rules};
ghost use Rattle.wh_text.specs.Names as names;
ghost use Rattle.wh_text.specs.Names.{name_of};

use arrayvec::ArrayVec;
use std::hash::{Hash, Hasher};
use std::marker::Model;

/// A name of a point or a client: 1 to 16 letters, digits, `_` and `-`.
#[derive(Drop)]
pub struct Name {
    bytes: ArrayVec<u8, 16>,
}

impl Model for Name {
    ghost use Rattle.std.specs.Prelude.{◌≡◌, ℕ, List, true};
    ghost use Rattle.wh_text.specs.Names.{is_name};

    ghost Value = { List ℕ };

    ghost view = { λ n. n.bytes.items };

    ghost invariant = { λ n. is_name n.bytes.items ≡ true };
}

fn is_name_byte(b: u8) -> bool
    ensures { result ≡ names.is_name_byte b }
{
    b >= b'A' && b <= b'Z'
        || b >= b'a' && b <= b'z'
        || b >= b'0' && b <= b'9'
        || b == b'_'
        || b == b'-'
}

fn all_name_bytes(word: &[u8]) -> bool
    ensures { result ≡ list_all names.is_name_byte word.now }
{
    word.iter().all(|b| is_name_byte(*b))
}

/// Whether a word is a name.
fn is_name(word: &[u8]) -> bool
    ensures { result ≡ names.is_name word.now }
{
    !word.is_empty() && word.len() <= 16 && all_name_bytes(word)
}

/// The bytes, in a place of their own.
fn kept(word: &[u8]) -> ArrayVec<u8, 16>
    requires { length word.now ≤ 16 }
    ensures { result.items ≡ word.now }
{
    let mut bytes = ArrayVec::new();
    for b in word {
        bytes.push(*b);
    }
    bytes
}

impl Name {
    /// The name that a word is: `None` where it has no bytes, more than 16, or another byte than a name has.
    pub fn read(word: &[u8]) -> Option<Name>
        ensures { result ≡ name_of word.now }
    {
        if !is_name(word) {
            return None;
        }
        Some(Name { bytes: kept(word) })
    }

    /// Its bytes, 1 to 16.
    pub fn as_slice(&self) -> &[u8]
        ensures value { result.now ≡ self.now }
        ensures name { names.is_name self.now ≡ true }
    {
        self.bytes.as_slice()
    }

    /// The same name, in a place of its own.
    pub fn copy(&self) -> Name
        ensures { result ≡ self.now }
    {
        Name {
            bytes: kept(self.bytes.as_slice()),
        }
    }

    /// Whether two names are the same.
    pub fn same(&self, other: &Name) -> bool
        ensures { IsTrue result ↔ (self.now ≡ other.now) }
    {
        self.bytes.as_slice() == other.bytes.as_slice()
    }
}

impl PartialEq for Name {
    ghost eq = { λ a b. pointwise nat_eq a b };

    ghost laws = { partial_equiv_from_equiv nat_list_eq_equiv };

    fn eq(&self, other: &Name) -> bool {
        self.as_slice() == other.as_slice()
    }
}

impl Eq for Name {
    ghost laws = { nat_list_eq_equiv };
}

impl Hash for Name {
    ghost hash_input = { λ s. fed.slice fed.u8 s };

    ghost respects_eq = { Prim.search (hashing, rules) };

    fn hash<H: Hasher>(&self, state: &mut H) {
        self.as_slice().hash(state);
    }
}

/// The name `-`, for a row of names that has places left.
impl Default for Name {
    ghost is_default = { λ n. n ≡ 45 ∷ [] };

    fn default() -> Self {
        Name { bytes: kept(b"-") }
    }
}
