//! Texts and lines that own their bytes.
ghost use Rattle.std.specs.Prelude.{◌≡◌, ℕ, List, IfOk, string_bytes};
ghost use Rattle.std.specs.Arc.{arc_str_bytes};

use crate::memory::Memory;
use std::alloc::{AllocError, Global};
use std::marker::Model;
use std::sync::ArcStr;

/// Bytes that are owned, such as a line of input. They need not be UTF-8.
#[derive(Drop)]
pub struct LineText {
    bytes: Vec<u8>,
}

impl Model for LineText {
    ghost Value = { List ℕ };

    ghost view = { λ t. t.bytes.items };
}

impl LineText {
    /// The same bytes, or `Memory` for want of memory.
    pub fn copy(alloc: Global, bytes: &[u8]) -> Result<LineText, Memory>
        ensures { IfOk result (λ t. t ≡ bytes.now) }
    {
        let bytes = Vec::from_slice(alloc, bytes)?;
        Ok(LineText { bytes })
    }

    /// These bytes, without a copy.
    pub fn new(bytes: Vec<u8>) -> LineText
        ensures { result ≡ bytes.items }
    {
        LineText { bytes }
    }

    /// The bytes, given back without a copy.
    pub fn into_bytes(self) -> Vec<u8>
        ensures { result.items ≡ self }
    {
        let LineText { bytes } = self;
        bytes
    }

    /// The bytes.
    pub fn bytes(&self) -> &[u8]
        ensures { result.now ≡ self.now }
    {
        self.bytes.as_slice()
    }
}

/// A text in UTF-8 that never changes. Contracts see its bytes.
///
/// It may have several owners, which share its bytes.
#[derive(Drop)]
pub struct Text {
    text: ArcStr,
}

impl Model for Text {
    ghost Value = { List ℕ };

    ghost view = { λ t. arc_str_bytes t.text };
}

impl Text {
    /// The same text, or `Memory` for want of memory.
    pub fn copy(alloc: Global, text: &str) -> Result<Text, Memory>
        ensures { IfOk result (λ t. t ≡ text.now) }
    {
        let text = ArcStr::from_str(alloc, text)?;
        Ok(Text { text })
    }

    /// This text, without a copy of its bytes, or `Memory` for want of memory.
    pub fn new(text: String) -> Result<Text, Memory>
        ensures { IfOk result (λ t. t ≡ string_bytes text) }
    {
        let text = ArcStr::from_string(text)?;
        Ok(Text { text })
    }

    /// This text once more, which shares its bytes: it takes no memory. `Memory` where it has as many owners as can be
    /// counted.
    pub fn share(&self) -> Result<Text, Memory>
        ensures { IfOk result (λ t. t ≡ self.now) }
    {
        let text = self.text.clone()?;
        Ok(Text { text })
    }

    /// The text.
    pub fn text(&self) -> &str
        ensures { result.now ≡ self.now }
    {
        self.text.as_str()
    }
}

impl Clone for Text {
    ghost is_clone = { λ text copy. copy ≡ text };

    fn clone(&self) -> Result<Text, AllocError> {
        Ok(Text {
            text: self.text.clone()?,
        })
    }
}

/// Texts, in order. Contracts see the list of their bytes.
#[derive(Drop)]
pub struct Texts {
    pub list: Vec<Text>,
}

impl Model for Texts {
    ghost Value = { List (List ℕ) };

    ghost view = { λ t. t.list.items };
}

impl Texts {
    /// The texts, in order.
    pub fn texts(&self) -> &[Text]
        ensures { result.now ≡ self.now }
    {
        self.list.as_slice()
    }
}
