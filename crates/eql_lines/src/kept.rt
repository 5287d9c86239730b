//! Texts whose memory serves again.
ghost use Rattle.std.specs.Prelude.{◌≡◌, ◌≤◌, [], ◌∷◌, ◌++◌, length, map, string_bytes, OnOk};

use std::alloc::{AllocError, Global};

/// The most texts whose memory serves for the next line.
const MOST_KEPT: usize = 64;

/// A list of texts. After `clear` its memory serves for the next ones.
#[derive(Drop)]
pub(crate) struct Kept {
    texts: Vec<String>,
    used: usize,
    alloc: Global,
    ghost within: { used ≤ length texts.items },
}

impl Kept {
    ghost use Rattle.eql_lines.specs.Kept.{kept_texts};

    /// No texts.
    pub(crate) fn new(alloc: Global) -> Kept
        ensures { kept_texts result ≡ [] }
    {
        Kept {
            texts: Vec::new(alloc),
            used: 0,
            alloc,
        }
    }

    /// The texts.
    pub(crate) fn texts(&self) -> &[String]
        ensures { map string_bytes result.now ≡ kept_texts self.now }
    {
        &self.texts[..self.used]
    }

    /// Takes all out. The memory of at most 64 texts is kept.
    pub(crate) fn clear(&mut self)
        ensures empty { kept_texts self.new ≡ [] }
        ensures few { length self.new.texts.items ≤ 64 }
    {
        self.used = 0;
        self.texts.truncate(MOST_KEPT);
    }

    /// Appends a text.
    pub(crate) fn push(&mut self, text: &str) -> Result<(), AllocError>
        ensures { OnOk result (kept_texts self.new ≡ kept_texts self.old ++ text.now ∷ []) }
    {
        let used = self.used;
        if used < self.texts.len() {
            let old = &mut self.texts[used];
            old.clear();
            old.push_str(text)?;
        } else {
            self.texts.push(String::from_str(self.alloc, text)?)?;
        }
        self.used = used + 1;
        Ok(())
    }
}
