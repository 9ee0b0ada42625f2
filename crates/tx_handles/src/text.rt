//! Texts as values.
ghost use Rattle.std.specs.Prelude.{◌≡◌, IfOk};

use seq_model::{Memory, Value};
use std::alloc::Global;
use std::marker::Model;

/// A text as a value of a map. Contracts see its bytes.
#[derive(Debug)]
pub struct Text {
    text: String,
}

impl Drop for Text {
    fn drop(self) {
        let Text { text: _ } = self;
    }
}

impl Model for Text {
    ghost use Rattle.std.specs.Prelude.{List, ℕ};
    ghost use Rattle.std.specs.String.{string_bytes};

    ghost Value = { List ℕ };

    ghost view = { λ a. string_bytes a.text };
}

impl Text {
    /// A copy of this text. `Memory` where an allocation fails.
    ///
    /// ```
    /// let name = Text::of(alloc, "Ada")?;
    /// let bytes = name.as_str().len(); // 3
    /// ```
    pub fn of(alloc: Global, text: &str) -> Result<Text, Memory>
        ensures { IfOk result (λ made. made ≡ text.now) }
    {
        Ok(Text {
            text: String::from_str(alloc, text)?,
        })
    }

    /// The text.
    ///
    /// ```
    /// let name = Text::of(alloc, "Ada")?;
    /// let bytes = name.as_str().len(); // 3
    /// ```
    pub fn as_str(&self) -> &str
        ensures { result.now ≡ self.now }
    {
        self.text.as_str()
    }
}

impl From<String> for Text {
    ghost use Rattle.std.specs.String.{string_bytes};

    ghost from_gives = { λ text made. made ≡ string_bytes text };

    fn from(text: String) -> Text {
        Text { text }
    }
}

impl Value for Text {
    fn try_copy(&self) -> Result<Text, Memory> {
        let text = self.text.clone()?;
        Ok(Text { text })
    }

    fn same(&self, other: &Text) -> bool {
        self.text.as_str() == other.text.as_str()
    }
}
