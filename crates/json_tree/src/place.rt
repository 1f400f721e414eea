//! Places in a tree, as steps down from its root. RFC 6901, section 4.

ghost use Rattle.std.specs.Prelude.{◌≡◌, [], ◌∷◌, ◌++◌, IfOk, OnOk, OnErr};
ghost use Rattle.std.specs.Option.{MatchOption};

use base_types::{Memory, Sequence, Text};
use std::alloc::Global;
use std::fmt;

/// One step down a tree.
#[derive(Clone, Debug, Drop)]
pub enum Step {
    /// The member of that name.
    Key(Text),
    /// The element with that index in the list as it was read.
    At(u64),
}

/// The way from a tree's root to a value in it.
#[derive(Clone, Debug, Drop)]
pub struct Place {
    pub steps: Sequence<Step>,
}

impl fmt::Display for Step {
    /// The reference token of the step. RFC 6901, sections 3 and 4.
    fn fmt<W: fmt::Write>(&self, f: &mut fmt::Formatter<W>) -> fmt::Result {
        match self {
            Step::Key(key) => {
                for character in key.as_str().chars() {
                    match character {
                        '~' => f.write_str("~0")?,
                        '/' => f.write_str("~1")?,
                        _ => f.write_char(character)?,
                    }
                }
                Ok(())
            }
            Step::At(at) => write!(f, "{at}"),
        }
    }
}

impl fmt::Display for Place {
    /// The JSON Pointer of the place. RFC 6901.
    fn fmt<W: fmt::Write>(&self, f: &mut fmt::Formatter<W>) -> fmt::Result {
        for step in self.steps.as_slice() {
            write!(f, "/{step}")?;
        }
        Ok(())
    }
}

impl Place {
    /// The root: no steps. It takes no memory.
    pub fn root(alloc: Global) -> Place
        ensures { result.steps ≡ [] }
    {
        Place {
            steps: Sequence::new(alloc),
        }
    }

    /// Goes one step down. After a refusal the place is as before.
    ///
    /// # Errors
    ///
    /// `Memory`: there is no memory for one more step.
    pub fn push(&mut self, step: Step) -> Result<(), Memory>
        ensures ok { OnOk result (self.new.steps ≡ self.old.steps ++ step ∷ []) }
        ensures err { OnErr result (self.new ≡ self.old) }
    {
        self.steps.push(step)?;
        Ok(())
    }

    /// Goes back the last step, where there is one.
    pub fn pop(&mut self) -> Option<Step>
        ensures { MatchOption result ((self.old.steps ≡ []) × (self.new.steps ≡ []))
            (λ last. self.old.steps ≡ self.new.steps ++ last ∷ []) }
    {
        self.steps.pop()
    }

    /// This place, and from there along the steps of the other.
    ///
    /// # Errors
    ///
    /// `Memory`: there is no memory for the steps.
    pub fn then(&self, alloc: Global, other: &Place) -> Result<Place, Memory>
        ensures { IfOk result (λ place. place.steps ≡ self.now.steps ++ other.now.steps) }
    {
        let mut steps = Sequence::new(alloc);
        append(&mut steps, self.steps.as_slice())?;
        append(&mut steps, other.steps.as_slice())?;
        Ok(Place { steps })
    }
}

/// Puts copies of more steps at the end.
fn append(steps: &mut Sequence<Step>, more: &[Step]) -> Result<(), Memory>
    ensures { OnOk result (steps.new ≡ steps.old ++ more.now) }
{
    for step in more {
        steps.push(step.clone()?)?;
    }
    Ok(())
}
