//! The tree of a JSON text. RFC 8259, section 3.

ghost use Rattle.std.specs.Prelude.{◌≡◌, true, nat_lt, IfSome};
ghost use Rattle.std.specs.Option.{option_copied};

use crate::place::Place;
use base_types::{Items, Memory, Text};
use std::alloc::AllocError;
use std::fmt;

/// A JSON value whose numbers are whole.
#[derive(Debug, Drop)]
pub enum Tree {
    Null,
    Bool(bool),
    /// A whole number; those that are read lie from -2^63 to 2^64 - 1.
    Whole(i128),
    /// The version number of a context, 1.1: the one number that need not be whole.
    Version,
    Text(Text),
    List(Items<Item>),
    Object(Items<Member>),
}

/// An element of a list, with its index in the list as it was read.
#[derive(Debug, Drop)]
pub struct Item<T = Tree> {
    pub at: u64,
    pub value: T,
}

/// A member of an object.
#[derive(Debug, Drop)]
pub struct Member<T = Tree> {
    pub key: Text,
    pub value: T,
}

/// Why bytes give no tree.
#[derive(Debug, Drop)]
pub enum TreeFault {
    /// The bytes are not UTF-8, or no JSON text.
    NotJson,
    /// A number that is not whole stands at this place, and at none before it.
    NotWhole(Place),
    /// The text nests more than 100 deep.
    TooDeep,
    /// Out of memory.
    Memory,
}

impl fmt::Display for TreeFault {
    fn fmt<W: fmt::Write>(&self, f: &mut fmt::Formatter<W>) -> fmt::Result {
        match self {
            TreeFault::NotJson => f.write_str("the bytes are no JSON text"),
            TreeFault::NotWhole(place) => write!(f, "the number at `{place}` is not whole"),
            TreeFault::TooDeep => f.write_str("the text nests more than 100 deep"),
            TreeFault::Memory => f.write_str("out of memory"),
        }
    }
}

impl From<Memory> for TreeFault {
    ghost use Rattle.std.specs.Prelude.{◌≡◌};
    ghost use Rattle.json_tree.specs.declared.tree.TreeFault.TheVariants as fault;

    ghost from_gives = { λ _ e. e ≡ fault.Memory };

    fn from(_error: Memory) -> TreeFault {
        TreeFault::Memory
    }
}

impl From<AllocError> for TreeFault {
    ghost use Rattle.std.specs.Prelude.{◌≡◌};
    ghost use Rattle.json_tree.specs.declared.tree.TreeFault.TheVariants as fault;

    ghost from_gives = { λ _ e. e ≡ fault.Memory };

    fn from(_error: AllocError) -> TreeFault {
        TreeFault::Memory
    }
}

impl Tree {
    ghost use Rattle.json_tree.specs.Places.{text_of, items_of, members_of};
    ghost use Rattle.json_tree.specs.WellFormed.{IsWellFormed, AreWellFormed};
    ghost use Rattle.json_tree.specs.Trees.{is_lawful, each_next, AreLawful};

    /// The text, where the value is one.
    pub fn as_text(&self) -> Option<&Text>
        ensures { option_copied result ≡ text_of self.now }
    {
        match self {
            Tree::Text(text) => Some(text),
            _ => None,
        }
    }

    /// The elements in the order of their indexes, where the value is a list.
    pub fn as_list(&self) -> Option<&[Item]>
        ensures items { option_copied result ≡ items_of self.now }
        ensures rising { is_lawful self.now ≡ true
            → IfSome result (λ is. each_next (λ i j. nat_lt i.at j.at) is.now ≡ true) }
    {
        match self {
            Tree::List(items) => Some(items.as_slice()),
            _ => None,
        }
    }

    /// The members in the byte order of their names, where the value is an object.
    pub fn as_object(&self) -> Option<&[Member]>
        ensures members { option_copied result ≡ members_of self.now }
        ensures lawful { is_lawful self.now ≡ true → IfSome result (λ ms. AreLawful ms.now) }
        ensures well_formed { IsWellFormed self.now → IfSome result (λ ms. AreWellFormed ms.now) }
    {
        match self {
            Tree::Object(members) => Some(members.as_slice()),
            _ => None,
        }
    }
}
