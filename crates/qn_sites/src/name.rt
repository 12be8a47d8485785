//! The name of an operator.

ghost use Rattle.std.specs.Prelude.{◌≡◌, ◌↔◌, IfOk, IsTrue, string_bytes};
ghost use Rattle.std.specs.Cmp.Lexicographic.{slice_cmp};
ghost use Rattle.std.specs.Ordering.{nat_cmp, is_lt};
ghost use Rattle.qn_sites.specs.Sites.{identity_name};

use std::alloc::AllocError;
use std::cmp::Ordering;
use std::marker::Model;

/// The name of an operator.
#[derive(Debug, Drop)]
pub struct Name {
    text: String,
}

impl Model for Name {
    ghost use Rattle.std.specs.Prelude.{List, ℕ, string_bytes};

    ghost Value = { List ℕ };

    ghost view = { λ n. string_bytes n.text };
}

impl Name {
    pub fn new(text: String) -> Name
        ensures { result ≡ string_bytes text }
    {
        Name { text }
    }

    pub fn as_str(&self) -> &str
        ensures { result.now ≡ self.now }
    {
        self.text.as_str()
    }

    /// How the name stands to another, compared byte by byte.
    pub fn compare(&self, other: &Name) -> Ordering
        ensures { result ≡ slice_cmp nat_cmp self.now other.now }
    {
        self.text.as_bytes().cmp(other.text.as_bytes())
    }

    /// Whether this is the name of the identity.
    pub(crate) fn is_identity(&self) -> bool
        ensures { IsTrue result ↔ (self.now ≡ identity_name) }
    {
        self.text.as_bytes() == b"I".as_slice()
    }

    /// Whether the name is below that of the identity.
    pub(crate) fn is_before_identity(&self) -> bool
        ensures { result ≡ is_lt (slice_cmp nat_cmp self.now identity_name) }
    {
        self.text.as_bytes().cmp(b"I".as_slice()).is_lt()
    }

    /// An equal name.
    pub fn copy(&self) -> Result<Name, AllocError>
        ensures { IfOk result (λ n. n ≡ self.now) }
    {
        Ok(Name {
            text: self.text.clone()?,
        })
    }
}
