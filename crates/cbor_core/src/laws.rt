//! Laws of the definitions, each proved of a function that does nothing.

ghost use Rattle.std.specs.Prelude.{◌≡◌, ◌≤◌, ◌<◌, ◌++◌, ◌↔◌, IsTrue, ℕ, List, length, Result};
ghost use Rattle.cbor_core.specs.declared.fault.CborFault.{CborFault};
ghost use Rattle.cbor_core.specs.declared.fault.CborFault.TheVariants.{Truncated};
ghost use Rattle.cbor_core.specs.declared.item.Item.{Item};
ghost use Rattle.cbor_core.specs.Grammar.{IsBytes, Encodes};
ghost use Rattle.cbor_core.specs.Equality.{equal_items};
ghost use Rattle.cbor_core.specs.Refusals.{IsRefused, IsFinal, ReadsAs};

/// No item's bytes begin another's: where bytes begin with the spellings of two items, they are one
/// spelling of one item. So bytes spell at most one item, whatever follows them.
pub fn no_item_begins_another()
    ensures { (levels m n : ℕ) (i j : Item) (a b x y : List ℕ) → Encodes levels i m a
        → Encodes levels j n b → a ++ x ≡ b ++ y → (a ≡ b) × (i ≡ j) × (m ≡ n) × (x ≡ y) }
{}

/// Each input is one item, or is refused with one fault.
pub fn an_input_has_one_outcome()
    ensures some { (bytes : List ℕ) → IsBytes bytes
        → (r : Result Item CborFault) × ReadsAs bytes r }
    ensures one { (bytes : List ℕ) (r s : Result Item CborFault) → ReadsAs bytes r
        → ReadsAs bytes s → r ≡ s }
{}

/// Where the bytes of an item are cut, the input is refused as truncated, at its end.
pub fn a_front_is_truncated()
    ensures { (item : Item) (count : ℕ) (front more : List ℕ) → IsBytes front → count ≤ 100000
        → Encodes 4 item count (front ++ more) → 0 < length more
        → IsRefused front (Truncated (length front)) }
{}

/// `NotShortest`, `Forbidden`, `RepeatedKey` and `TooMany` stay whatever follows the input.
pub fn a_final_fault_stays()
    ensures { (bytes more : List ℕ) (fault : CborFault) → IsFinal fault → IsRefused bytes fault
        → IsRefused (bytes ++ more) fault }
{}

/// Two items are equal exactly where they are the same.
pub fn equal_items_are_the_same()
    ensures { (i j : Item) → IsTrue (equal_items i j) ↔ (i ≡ j) }
{}
