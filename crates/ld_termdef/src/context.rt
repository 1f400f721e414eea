//! Active contexts. JSON-LD 1.1 API, section 4.1.

ghost use Rattle.std.specs.Prelude.{◌≡◌, ◌↔◌, true, false, IfOk, IfSome};
ghost use Rattle.std.specs.Option.{option_copied};
ghost use Rattle.ld_termdef.specs.Contexts.{active_of, initial, previous_of, remember, ProtectsNone};
ghost use Rattle.ld_termdef.specs.Overlay.{has_lawful_scope};

use crate::base::BaseIri;
use crate::definition::TermDef;
use crate::definitions::Definitions;
use base_types::{Memory, Sequence, Shared, Text};
use std::alloc::Global;

/// An active context without its previous contexts.
#[derive(Debug, Drop)]
pub struct ContextParts {
    pub base: Option<BaseIri>,
    /// The vocabulary mapping.
    pub vocab: Option<Text>,
    /// The default language.
    pub language: Option<Text>,
    /// The default base direction, `ltr` or `rtl`.
    pub direction: Option<Text>,
    pub terms: Definitions,
}

/// An active context: what holds, and the contexts to which reading may return, the nearest last.
/// They stand in a list, and not each in the one before, so that nothing recurses along them.
///
/// All parts are shared, so that a copy costs its number of previous contexts.
#[derive(Debug, Drop)]
pub struct ActiveContext {
    pub current: Shared<ContextParts>,
    pub previous: Sequence<Shared<ContextParts>>,
}

/// The same contexts, shared.
fn share_each(
    alloc: Global,
    contexts: &[Shared<ContextParts>],
) -> Result<Sequence<Shared<ContextParts>>, Memory>
    ensures { IfOk result (λ same. same ≡ contexts.now) }
{
    let mut same = Sequence::new(alloc);
    for context in contexts {
        same.push(context.share()?)?;
    }
    Ok(same)
}

impl ActiveContext {
    /// The context that says nothing. JSON-LD 1.1 API, section 4.1, newly-initialized active
    /// context.
    ///
    /// # Errors
    ///
    /// `Memory`: there is no memory for it.
    pub fn initial(alloc: Global) -> Result<ActiveContext, Memory>
        ensures { IfOk result (λ c. active_of c ≡ initial) }
    {
        let parts = ContextParts {
            base: None,
            vocab: None,
            language: None,
            direction: None,
            terms: Definitions::new(alloc)?,
        };
        Ok(ActiveContext {
            current: Shared::new(alloc, parts)?,
            previous: Sequence::new(alloc),
        })
    }

    /// The definition of a term. It takes no memory.
    pub fn definition(&self, term: &str) -> Option<&TermDef>
        ensures definition { option_copied result ≡ (active_of self.now).current.terms term.now }
        ensures lawful { IfSome result (λ d. has_lawful_scope d.now ≡ true) }
    {
        self.current.get().terms.get(term)
    }

    /// The same active context, shared.
    ///
    /// # Errors
    ///
    /// `Memory`: there is no memory for the list of the previous contexts.
    pub fn share(&self, alloc: Global) -> Result<ActiveContext, Memory>
        ensures { IfOk result (λ c. c ≡ self.now) }
    {
        Ok(ActiveContext {
            current: self.current.share()?,
            previous: share_each(alloc, self.previous.as_slice())?,
        })
    }

    /// The previous context, or this one where there is none. JSON-LD 1.1 API, section 5.1.2, step
    /// 7.
    ///
    /// # Errors
    ///
    /// `Memory`: there is no memory for the list of its own previous contexts.
    #[tactic(auto, using(crate::proofs::Returns::back_steps))]
    pub fn previous(&self, alloc: Global) -> Result<ActiveContext, Memory>
        ensures { IfOk result (λ c. active_of c ≡ previous_of (active_of self.now)) }
    {
        match self.previous.as_slice().split_last() {
            Some((last, before)) => Ok(ActiveContext {
                current: last.share()?,
                previous: share_each(alloc, before)?,
            }),
            None => self.share(alloc),
        }
    }

    /// This context as the result of one that was processed on `before`: where it does not
    /// propagate and there is no previous context yet, `before` becomes that. JSON-LD 1.1 API,
    /// section 4.1.2, step 3.
    ///
    /// # Errors
    ///
    /// `Memory`: there is no memory for one previous context more.
    #[tactic(auto, using(crate::proofs::Returns::remember_steps))]
    pub fn remember(self, before: ActiveContext, propagate: bool) -> Result<ActiveContext, Memory>
        ensures { IfOk result (λ c.
            active_of c ≡ remember propagate (active_of before) (active_of self)) }
    {
        if propagate {
            return Ok(self);
        }
        if !self.previous.is_empty() {
            return Ok(self);
        }
        let ActiveContext { current, previous } = before;
        let mut previous = previous;
        previous.push(current)?;
        Ok(ActiveContext {
            current: self.current,
            previous,
        })
    }

    /// Whether a term is protected. It takes no memory, and goes over all terms.
    pub fn has_protected(&self) -> bool
        ensures { (result ≡ false) ↔ ProtectsNone (active_of self.now).current }
    {
        self.current.get().terms.has_protected()
    }
}
