//! A few keys.

ghost use Rattle.std.specs.Prelude.{◌≡◌};

use crate::key::Key;
use std::marker::Model;

/// The most parents that a key has.
pub(crate) const MOST: usize = 4;

/// The keys of what stands above an element or a statement, at most four.
///
/// A contract sees it as the list of their forms.
#[derive(Drop)]
pub struct Parents {
    pub(crate) count: usize,
    pub(crate) keys: [Key; MOST],
}

impl Model for Parents {
    ghost use Rattle.std.specs.Prelude.{◌≡◌, ℕ, ◌≤◌, List, length, take};
    ghost use Rattle.misp_elem.specs.declared.key.KeyForm.{KeyForm};

    ghost Value = { List KeyForm };

    ghost view = { λ p. take p.count p.keys };

    ghost invariant = { λ p. (p.count ≤ 4) × (length p.keys ≡ 4) };
}

impl Parents {
    /// The keys, in the order of the definition.
    pub fn as_slice(&self) -> &[Key]
        ensures { result.now ≡ self.now }
    {
        &self.keys[..self.count]
    }
}
