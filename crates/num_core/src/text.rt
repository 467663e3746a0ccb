ghost use Rattle.std.specs.Prelude.{◌≡◌, IfOk, IfErr, IsUtf8, IsErrOf, ◌↔◌, ℕ, ◌++◌, OnOk, OnErr, length};
ghost use Rattle.std.specs.Str.{IsValidUpTo};
ghost use Rattle.num_core.specs.declared.text.TextFault.TheVariants.{NotUtf8};

use std::alloc::Global;
use std::marker::Model;
use thiserror::Error;

/// A text in UTF-8, which contracts see as the list of its bytes.
#[derive(Debug, Drop)]
pub struct Text {
    text: String,
}

/// Why bytes are no `Text`.
#[derive(Debug, Drop, Error)]
pub enum TextFault {
    /// The bytes are no UTF-8; the number is the length of the longest prefix that is.
    #[error("no UTF-8 from {0} on")]
    NotUtf8(usize),
    /// Want of memory.
    #[error("memory")]
    Memory,
}

impl Model for Text {
    ghost use Rattle.std.specs.Prelude.{List, ℕ, string_bytes};
    ghost use Rattle.std.specs.Coded.{coded_list, coded_ℕ};

    ghost Value = { List ℕ };

    ghost coded = { coded_list coded_ℕ };

    ghost view = { λ text. string_bytes text.text };
}

impl Text {
    /// The text of these bytes; `NotUtf8` exactly where they are no UTF-8.
    pub fn new(alloc: Global, bytes: &[u8]) -> Result<Text, TextFault>
        ensures text { IfOk result (λ text. text ≡ bytes.now) }
        ensures utf8 { IfOk result (λ _. IsUtf8 bytes.now) }
        ensures not_utf8 { (at : ℕ) → result ≡ Err (TextFault.NotUtf8 at) → ¬ (IsUtf8 bytes.now) }
        ensures valid_up_to { (at : ℕ) → result ≡ Err (TextFault.NotUtf8 at) → IsValidUpTo bytes.now at }
    {
        match std::str::from_utf8(bytes) {
            Ok(text) => match String::from_str(alloc, text) {
                Ok(text) => Ok(Text { text }),
                Err(_) => Err(TextFault::Memory),
            },
            Err(error) => Err(TextFault::NotUtf8(error.valid_up_to())),
        }
    }

    /// The bytes.
    pub fn bytes(&self) -> &[u8]
        ensures bytes { result.now ≡ self.now }
        ensures utf8 { IsUtf8 self.now }
    {
        self.text.as_str().as_bytes()
    }
}
