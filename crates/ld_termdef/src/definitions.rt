//! The definitions of a context, found by their terms.

ghost use Rattle.std.specs.Prelude.{◌≡◌, ◌↔◌, ◌++◌, ◌||◌, List, ℕ, [], true, false, Some, option_map, IfOk, IfSome, OnOk};
ghost use Rattle.std.specs.List.{list_any};
ghost use Rattle.std.specs.Option.{option_copied};
ghost use Rattle.ld_termdef.specs.Contexts.{definition_in};
ghost use Rattle.ld_termdef.specs.Overlay.{terms_rise, overlay_of, has_lawful_scope, have_lawful_scopes};
ghost use Rattle.ld_termdef.specs.Layers.{AreLayers};
ghost use Rattle.ld_termdef.specs.Internal.Merging.{Takes, shows_protected};

use crate::definition::{TermDef, TermEntry};
use base_types::{Keyed, Memory, Sequence, Shared, find_by_key};
use std::alloc::Global;
use std::cmp::Ordering;
use std::marker::Model;

/// Definitions in the byte order of their terms, none twice.
///
/// They are kept in two layers, and each layer and each entry is shared, so that a few definitions
/// laid over many cost what the few cost. A look-up halves each layer once.
#[derive(Debug, Drop)]
pub struct Definitions {
    over: Shared<Sequence<Shared<TermEntry>>>,
    under: Shared<Sequence<Shared<TermEntry>>>,
}

impl Model for Definitions {
    ghost use Rattle.std.specs.Prelude.{List};
    ghost use Rattle.std.specs.Coded.{codes, coded_list};
    ghost use Rattle.json_tree.specs.contracts.tree.Tree as tree;
    ghost use Rattle.ld_termdef.specs.declared.definition.TermEntry.{TermEntry};
    ghost use Rattle.ld_termdef.specs.Overlay.{overlay_of};
    ghost use Rattle.ld_termdef.specs.Layers.{AreLayers};

    ghost Value = { List TermEntry };

    ghost coded = { Prim.hlevel (codes, tree.the_row.coded) };

    ghost view = { λ d. overlay_of d.over d.under };

    ghost invariant = { λ d. AreLayers d.over d.under };
}

/// Entries that are shared.
type Entries = Sequence<Shared<TermEntry>>;

/// Layers as definitions.
fn of_layers(over: Shared<Entries>, under: Shared<Entries>) -> Definitions
    requires { AreLayers over under }
    ensures { result ≡ overlay_of over under }
{
    Definitions { over, under }
}

impl Definitions {
    /// No definitions.
    ///
    /// # Errors
    ///
    /// `Memory`: there is no memory for it.
    pub fn new(alloc: Global) -> Result<Definitions, Memory>
        ensures { IfOk result (λ d. d ≡ []) }
    {
        Ok(Definitions {
            over: Shared::new(alloc, Sequence::new(alloc))?,
            under: Shared::new(alloc, Sequence::new(alloc))?,
        })
    }

    /// The definition of a term, found by halving. It takes no memory.
    pub fn get(&self, term: &str) -> Option<&TermDef>
        ensures definition { option_copied result ≡ definition_in self.now term.now }
        ensures lawful { IfSome result (λ d. has_lawful_scope d.now ≡ true) }
    {
        let under = self.under.get().as_slice();
        match find_by_key(self.over.get().as_slice(), term) {
            Some(entry) => Some(&entry.get().def),
            None => match find_by_key(under, term) {
                Some(entry) => Some(&entry.get().def),
                None => None,
            },
        }
    }

    /// The same definitions, shared.
    ///
    /// # Errors
    ///
    /// `Memory`: a count of users is full.
    pub fn share(&self) -> Result<Definitions, Memory>
        ensures { IfOk result (λ d. d ≡ self.now) }
    {
        Ok(Definitions {
            over: self.over.share()?,
            under: self.under.share()?,
        })
    }

    /// These definitions with others laid over them, which stand in the byte order of their terms.
    ///
    /// # Errors
    ///
    /// `Memory`: there is no memory for the layer.
    #[tactic(auto, using(crate::proofs::Layered::lay_steps))]
    pub fn overlay(&self, alloc: Global, more: Sequence<TermEntry>) -> Result<Definitions, Memory>
        requires rising { terms_rise more ≡ true }
        requires lawful { have_lawful_scopes more ≡ true }
        ensures { IfOk result (λ d. d ≡ overlay_of more self.now) }
    {
        let more = shared_entries(alloc, more)?;
        let over = merged(alloc, more.as_slice(), self.over.get().as_slice())?;
        layered(alloc, over, &self.under)
    }

    /// Whether a term is protected. It takes no memory, and goes over all terms.
    pub fn has_protected(&self) -> bool
        ensures { (result ≡ false) ↔ ((t : List ℕ) (d : TermDef) → definition_in self.now t ≡ Some d
            → d.protected ≡ false) }
    {
        layers_protect(self.over.get().as_slice(), self.under.get().as_slice())
    }
}

/// These layers; where the upper one is more than half as long as the lower one, one layer of both.
/// So what is laid over costs what it has, or a copy of as much as was laid over since the last one.
#[tactic(auto, using(crate::proofs::Layered::flat_steps))]
fn layered(alloc: Global, over: Entries, under: &Shared<Entries>) -> Result<Definitions, Memory>
    requires { AreLayers over under.now }
    ensures { IfOk result (λ d. d ≡ overlay_of over under.now) }
{
    if over.len() <= under.get().len() / 2 {
        return Ok(of_layers(Shared::new(alloc, over)?, under.share()?));
    }
    let whole = merged(alloc, over.as_slice(), under.get().as_slice())?;
    let none = Sequence::new(alloc);
    Ok(of_layers(Shared::new(alloc, none)?, Shared::new(alloc, whole)?))
}

/// Whether one of the terms of two layers is protected.
fn layers_protect(over: &[Shared<TermEntry>], under: &[Shared<TermEntry>]) -> bool
    requires { terms_rise over.now ≡ true }
    ensures { result ≡ (list_any (λ e. e.def.protected) over.now
        || list_any (shows_protected over.now) under.now) }
{
    protects(over) || protects_below(over, under)
}

/// Whether one of the entries is protected.
fn protects(entries: &[Shared<TermEntry>]) -> bool
    ensures { result ≡ list_any (λ e. e.def.protected) entries.now }
{
    entries.iter().any(|entry| entry.get().def.protected)
}

/// Whether the entry is protected, and the others do not define its term.
fn is_shown(over: &[Shared<TermEntry>], entry: &TermEntry) -> bool
    requires { terms_rise over.now ≡ true }
    ensures { result ≡ shows_protected over.now entry.now }
{
    if !entry.def.protected {
        return false;
    }
    match find_by_key(over, entry.term.as_str()) {
        Some(_) => false,
        None => true,
    }
}

/// Whether one of the entries under others is protected, whose term they do not define.
fn protects_below(over: &[Shared<TermEntry>], under: &[Shared<TermEntry>]) -> bool
    requires { terms_rise over.now ≡ true }
    ensures { result ≡ list_any (shows_protected over.now) under.now }
{
    for entry in under {
        if is_shown(over, entry.get()) {
            return true;
        }
    }
    false
}

/// The entries, each shared.
fn shared_entries(alloc: Global, entries: Sequence<TermEntry>) -> Result<Entries, Memory>
    ensures { IfOk result (λ made. made ≡ entries) }
{
    let mut made = Sequence::new(alloc);
    for entry in entries.into_vec() {
        made.push(Shared::new(alloc, entry)?)?;
    }
    Ok(made)
}

/// Puts the first entry of both lists at the end of `made`, and gives what is left of them. Of two
/// with one term it takes that of `over`, and both are gone. `None` where a list is empty.
#[tactic(auto, using(crate::proofs::Layered::take_steps))]
fn take_first<'a>(
    made: &mut Entries,
    over: &'a [Shared<TermEntry>],
    under: &'a [Shared<TermEntry>],
) -> Result<Option<(&'a [Shared<TermEntry>], &'a [Shared<TermEntry>])>, Memory>
    requires over_rises { terms_rise over.now ≡ true }
    requires under_rises { terms_rise under.now ≡ true }
    ensures { IfOk result (λ taken. Takes made.old made.new over.now under.now
        (option_map (λ rest. (rest.0.now, rest.1.now)) taken)) }
{
    let Some((upper, over_rest)) = over.split_first() else {
        return Ok(None);
    };
    let Some((lower, under_rest)) = under.split_first() else {
        return Ok(None);
    };
    match upper.key().cmp(lower.key()) {
        Ordering::Less => {
            made.push(upper.share()?)?;
            Ok(Some((over_rest, under)))
        }
        Ordering::Equal => {
            made.push(upper.share()?)?;
            Ok(Some((over_rest, under_rest)))
        }
        Ordering::Greater => {
            made.push(lower.share()?)?;
            Ok(Some((over, under_rest)))
        }
    }
}

/// Puts all entries at the end of `made`.
fn push_all(made: &mut Entries, entries: &[Shared<TermEntry>]) -> Result<(), Memory>
    ensures { OnOk result (made.new ≡ made.old ++ entries.now) }
{
    for entry in entries {
        made.push(entry.share()?)?;
    }
    Ok(())
}

/// The entries of both in the byte order of their terms; of two with one term, that of `over`.
fn merged(
    alloc: Global,
    over: &[Shared<TermEntry>],
    under: &[Shared<TermEntry>],
) -> Result<Entries, Memory>
    requires over_rises { terms_rise over.now ≡ true }
    requires under_rises { terms_rise under.now ≡ true }
    ensures { IfOk result (λ made. made ≡ overlay_of over.now under.now) }
{
    let (mut upper, mut lower) = (over, under);
    let mut made = Sequence::new(alloc);
    while let Some((over_rest, under_rest)) = take_first(&mut made, upper, lower)? {
        upper = over_rest;
        lower = under_rest;
    }
    push_all(&mut made, upper)?;
    push_all(&mut made, lower)?;
    Ok(made)
}
