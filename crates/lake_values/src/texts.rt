ghost use Rattle.std.specs.Prelude.{◌≡◌, ◌<◌, ◌≤◌, ◌↔◌, length, IfOk, IsErrOf};

use crate::NoMemory;
use std::alloc::{AllocError, Global};
use std::marker::Model;

/// A text of at most 4,096 bytes of UTF-8, as a TEXT value or a name has it. Contracts see its bytes.
#[derive(Debug, Drop)]
pub struct Text {
    inner: String,
}

/// Why a text was refused.
#[derive(Clone, Copy, Debug, PartialEq, Eq)]
pub enum TextFault {
    TooLong,
    NoMemory,
}

impl From<AllocError> for TextFault {
    ghost use Rattle.std.specs.Prelude.{◌≡◌};
    ghost use Rattle.lake_values.specs.declared.texts.TextFault.TheVariants.{NoMemory};

    ghost from_gives = { λ _ fault. fault ≡ NoMemory };

    fn from(_refused: AllocError) -> TextFault {
        TextFault::NoMemory
    }
}

impl Model for Text {
    ghost use Rattle.std.specs.Prelude.{List, ℕ, ◌≤◌};
    ghost use Rattle.std.specs.String.{string_bytes, string_len};

    ghost Value = { List ℕ };

    ghost view = { λ t. string_bytes t.inner };

    ghost invariant = { λ t. string_len t.inner ≤ 4096 };
}

impl Text {
    /// The most bytes that a text may have.
    pub const MOST: usize = 4096;

    pub fn new(alloc: Global, s: &str) -> Result<Text, TextFault>
        ensures ok { IfOk result (λ text. text ≡ s.now) }
        ensures too_long { IsErrOf result TextFault.TooLong ↔ (4096 < length s.now) }
    {
        if s.len() > Text::MOST {
            return Err(TextFault::TooLong);
        }
        let inner = String::from_str(alloc, s)?;
        Ok(Text { inner })
    }

    pub fn as_str(&self) -> &str
        ensures text { result.now ≡ self.now }
        ensures bound { length result.now ≤ 4096 }
    {
        self.inner.as_str()
    }

    /// An equal text.
    pub fn copy(&self) -> Result<Text, NoMemory>
        ensures { IfOk result (λ copy. copy ≡ self.now) }
    {
        let inner = self.inner.clone()?;
        Ok(Text { inner })
    }
}

impl PartialEq for Text {
    ghost use Rattle.std.specs.Prelude.{nat_eq};
    ghost use Rattle.std.specs.Cmp.{partial_equiv_from_equiv};
    ghost use Rattle.std.specs.Cmp.Lexicographic.{pointwise, nat_list_eq_equiv};

    ghost eq = { pointwise nat_eq };

    ghost laws = { partial_equiv_from_equiv nat_list_eq_equiv };

    fn eq(&self, other: &Text) -> bool {
        self.inner.as_str() == other.inner.as_str()
    }
}

impl Eq for Text {
    ghost use Rattle.std.specs.Cmp.Lexicographic.{nat_list_eq_equiv};

    ghost laws = { nat_list_eq_equiv };
}
