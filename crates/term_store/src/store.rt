//! The store: texts kept once in an arena, each under its number.

ghost use Rattle.std.specs.Prelude.{◌≡◌, ◌<◌, ◌≤◌, ◌↔◌, [], length, IfOk, OnErr, IsTrue};
ghost use Rattle.base_types.specs.Sets.{AllDiffer};
ghost use Rattle.term_store.specs.Store.{text_at, Interns, begins_blank, BeginsBlank};

use base_types::Memory;
use bumpalo::Bump;
use indexmap::IndexSet;
use std::alloc::Global;
use std::marker::Model;

/// The number of a text in its store, counted from 0.
#[derive(Clone, Copy, Debug, PartialEq, Eq, PartialOrd, Ord, Hash)]
pub struct TermId {
    pub index: u32,
}

/// The texts of terms, each kept once in an arena that outlives the store. A text is an IRI in angle
/// brackets, a canonical literal, or begins with `_:` for a blank node; contracts see the list of
/// the texts, in the order in which they were first kept.
#[derive(Drop)]
pub struct Terms<'a> {
    arena: &'a Bump,
    texts: IndexSet<&'a str>,
}

impl<'a> Model for Terms<'a> {
    ghost use Rattle.std.specs.Prelude.{ℕ, List, map};
    ghost use Rattle.term_store.specs.Store.{IsStore};

    ghost Value = { List (List ℕ) };

    ghost view = { λ t. map (λ k. k.now) t.texts.keys };

    ghost invariant = { λ t. IsStore (map (λ k. k.now) t.texts.keys) };
}

impl<'a> Terms<'a> {
    /// An empty store with room for the numbers of 256 texts.
    ///
    /// # Errors
    ///
    /// `Memory`: there is no memory for it.
    pub fn new(alloc: Global, arena: &'a Bump) -> Result<Terms<'a>, Memory>
        ensures { IfOk result (λ t. t ≡ []) }
    {
        let texts = IndexSet::with_capacity(alloc, 256)?;
        Ok(Terms { arena, texts })
    }

    /// The number of a text: its own where it is there, and else the next, under which it is kept.
    /// After a refusal the store is as before.
    ///
    /// # Errors
    ///
    /// `Memory`: there is no memory for the text, or the store holds 4,294,967,295 texts already, so
    /// that no number is left for it.
    pub fn intern(&mut self, text: &str) -> Result<TermId, Memory>
        ensures ok { IfOk result (λ id. Interns self.old text.now id.index self.new) }
        ensures err { OnErr result (self.new ≡ self.old) }
    {
        if let Some(found) = self.texts.get_index_of(text) {
            return Ok(TermId {
                index: found as u32,
            });
        }
        if self.texts.len() >= u32::MAX as usize {
            return Err(Memory);
        }
        let kept = self.arena.try_alloc_str(text)?;
        let (next, _) = self.texts.insert_full(kept)?;
        Ok(TermId { index: next as u32 })
    }

    /// The text of a number. It is borrowed from the arena, so it may be held while more texts are
    /// kept. It takes no memory.
    pub fn text(&self, id: TermId) -> &'a str
        requires { id.index < length self.now }
        ensures { result.now ≡ text_at self.now id }
    {
        let text: &'a str = self.texts.as_slice()[id.index as usize];
        text
    }

    /// How many texts are kept: at most 4,294,967,295, and no two of them are equal. It takes no memory.
    pub fn len(&self) -> usize
        ensures count { result ≡ length self.now }
        ensures differ { AllDiffer self.now }
        ensures few { length self.now ≤ 4294967295 }
    {
        self.texts.len()
    }

    /// Whether the text of a number begins with `_:`, as those of blank nodes do. It takes no memory.
    pub fn is_blank(&self, id: TermId) -> bool
        requires { id.index < length self.now }
        ensures test { result ≡ begins_blank (text_at self.now id) }
        ensures begins { IsTrue result ↔ BeginsBlank (text_at self.now id) }
    {
        self.text(id).as_bytes().starts_with(b"_:")
    }
}
