//! A text, seen as its characters. A short one stands in the value itself, so that copies of it take no memory.
ghost use Rattle.std.specs.Prelude.{◌≡◌, IfOk, string_bytes};
ghost use Rattle.std.proofs.Common.{rules};
ghost use Rattle.std.specs.Cmp.{partial_order_from_own_ties};
ghost use Rattle.std.specs.Cmp.Rules.{comparing};
ghost use Rattle.std.specs.Ordering.{as_partial_cmp};
ghost use Rattle.std.specs.Str.{chars};
ghost use Rattle.eql_values.specs.Orders.{text_cmp, text_eq};

use arrayvec::ArrayString;
use std::alloc::{AllocError, Global};
use std::cmp::Ordering;
use std::marker::Model;

/// How many bytes of UTF-8 a text has at most that stands in the value itself.
const SHORT: usize = 15;

/// The bytes of a text.
#[derive(Debug, Drop)]
enum Bytes {
    /// They stand here. The allocator, which takes no room, is that of the string that they come from.
    Here(ArrayString<SHORT>, Global),
    /// They stand in memory that was taken for them.
    Apart(String),
}

/// A text. Contracts see it as the list of its characters, each by its Unicode scalar value. Texts
/// are ordered by their characters, which is the order of their UTF-8 bytes.
#[derive(Debug)]
pub struct Text {
    bytes: Bytes,
}

impl Model for Text {
    ghost use Rattle.std.specs.Prelude.{List, ℕ};
    ghost use Rattle.std.specs.Str.{chars};
    ghost use Rattle.eql_values.specs.Texts.{bytes_of};

    ghost Value = { List ℕ };

    ghost view = { λ t. chars (bytes_of t.bytes) };
}

// A drop of its own: where a text is dropped there is one call, and no match.
impl Drop for Text {
    fn drop(self) {
        let Text { bytes: _ } = self;
    }
}

impl Text {
    /// The text of a string.
    pub fn of(text: String) -> Text
        ensures { result ≡ chars (string_bytes text) }
    {
        if let Ok(short) = ArrayString::from(text.as_str()) {
            return Text {
                bytes: Bytes::Here(short, *text.allocator()),
            };
        }
        Text {
            bytes: Bytes::Apart(text),
        }
    }

    /// A copy of a text. A short one takes no memory.
    pub fn copy_of(alloc: Global, text: &str) -> Result<Text, AllocError>
        ensures { IfOk result (λ copy. copy ≡ chars text.now) }
    {
        if let Ok(short) = ArrayString::from(text) {
            return Ok(Text {
                bytes: Bytes::Here(short, alloc),
            });
        }
        let long = String::from_str(alloc, text)?;
        Ok(Text {
            bytes: Bytes::Apart(long),
        })
    }

    /// The text as a string, lent.
    pub fn text(&self) -> &str
        ensures { chars result.now ≡ self.now }
    {
        match &self.bytes {
            Bytes::Here(short, _) => short.as_str(),
            Bytes::Apart(long) => long.as_str(),
        }
    }

    /// A copy of the text as a string.
    pub fn to_string(&self) -> Result<String, AllocError>
        ensures { IfOk result (λ copy. chars (string_bytes copy) ≡ self.now) }
    {
        match &self.bytes {
            Bytes::Here(short, alloc) => String::from_str(*alloc, short.as_str()),
            Bytes::Apart(long) => long.clone(),
        }
    }
}

impl Clone for Text {
    ghost is_clone = { λ old new. new ≡ old };

    fn clone(&self) -> Result<Text, AllocError> {
        match &self.bytes {
            Bytes::Here(short, alloc) => Ok(Text {
                bytes: Bytes::Here(*short, *alloc),
            }),
            Bytes::Apart(long) => {
                let long = long.clone()?;
                Ok(Text {
                    bytes: Bytes::Apart(long),
                })
            }
        }
    }
}

impl PartialEq for Text {
    ghost eq = { text_eq };

    ghost laws = { Prim.search (comparing, rules) };

    fn eq(&self, other: &Text) -> bool {
        self.cmp(other).is_eq()
    }
}

impl Eq for Text {
    ghost laws = { Prim.search (comparing, rules) };
}

impl Ord for Text {
    ghost cmp = { text_cmp };

    ghost total = { Prim.search (comparing, rules) };

    ghost matches_partial_cmp = { Prim.search (comparing, rules) };

    ghost matches_eq = { Prim.search (comparing, rules) };

    fn cmp(&self, other: &Text) -> Ordering {
        self.text().as_bytes().cmp(other.text().as_bytes())
    }
}

impl PartialOrd for Text {
    ghost partial_cmp = { as_partial_cmp text_cmp };

    ghost laws = { partial_order_from_own_ties
        (Prim.search (comparing, rules)) (Prim.search (comparing, rules)) };

    fn partial_cmp(&self, other: &Text) -> Option<Ordering> {
        Some(self.cmp(other))
    }
}

/// A list of texts.
#[derive(Drop)]
pub struct Texts {
    items: Vec<Text>,
}

impl Model for Texts {
    ghost use Rattle.std.specs.Prelude.{List};
    ghost use Rattle.std.specs.Prelude.{ℕ};

    ghost Value = { List (List ℕ) };

    ghost view = { λ l. l.items.items };
}

impl Texts {
    /// The list of these texts.
    pub fn of(items: Vec<Text>) -> Texts
        ensures { result ≡ items.items }
    {
        Texts { items }
    }

    /// The texts, lent.
    pub fn items(&self) -> &Vec<Text>
        ensures { result.now.items ≡ self.now }
    {
        &self.items
    }

    /// The texts, taken out.
    pub fn into_items(self) -> Vec<Text>
        ensures { result.items ≡ self }
    {
        self.items
    }
}

impl Clone for Texts {
    ghost is_clone = { λ old new. new ≡ old };

    fn clone(&self) -> Result<Texts, AllocError> {
        let items = self.items.clone()?;
        Ok(Texts { items })
    }
}
