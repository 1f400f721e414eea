//! The replies that are one line of JSON, made as trees and printed.

ghost use Rattle.std.specs.Prelude.{◌≡◌, [], ◌∷◌, codes, pos, IfOk};
ghost use Rattle.json_tree.specs.declared.tree.Tree.TheVariants as v;
ghost use Rattle.json_tree.specs.Trees.{element, new_member};
ghost use Rattle.stmt_groups.specs.declared.types.Cause.TheVariants as cause;
ghost use Rattle.vc_session.specs.Internal.Drafts.{IsPrintable};
ghost use Rattle.vc_session.specs.ReplyTrees.{cause_fields, cbor_fields, fault_at, fault_of, issued_tree, key_field, line_of, name_field, no_key_tree, not_whole_tree, number_field, part_name, plain_fault, proof_value_tree, refusal_tree, rejected_tree, text_field, unknown_method_tree, value_fields, verified_tree, whole_items};

use cbor_core::CborFault;
use json_tree::{Item, Items, Member, Text, Tree};
use key_device::KeyName;
use nquads::{Memory, Sequence};
use proof_cbor::{Part, ValueFault};
use std::alloc::Global;
use stmt_groups::Cause;

/// A member of that name.
fn field(alloc: Global, name: &str, value: Tree) -> Result<Member, Memory>
    ensures { IfOk result (λ m. m ≡ new_member name.now value) }
{
    Ok(Member {
        key: Text::from_str(alloc, name)?,
        value,
    })
}

/// A member whose value is a text.
fn text_field(alloc: Global, name: &str, text: &str) -> Result<Member, Memory>
    ensures { IfOk result (λ m. m ≡ text_field name.now text.now) }
{
    field(alloc, name, Tree::Text(Text::from_str(alloc, text)?))
}

/// A member whose value is a whole number.
fn number_field(alloc: Global, name: &str, number: u64) -> Result<Member, Memory>
    ensures is { IfOk result (λ m. m ≡ number_field name.now number) }
    ensures printable { IfOk result (λ m. IsPrintable m.value) }
{
    field(alloc, name, Tree::Whole(number as i128))
}

/// A member whose value is a key, as hexadecimal digits.
fn key_field(alloc: Global, name: &str, key: &KeyName) -> Result<Member, Memory>
    ensures { IfOk result (λ m. m ≡ key_field name.now key.now) }
{
    let digits = hex::encode(alloc, &key.bytes)?;
    field(alloc, name, Tree::Text(Text::from_string(digits)))
}

/// The tree as a line of compact JSON.
#[tactic(auto, using(crate::proofs::WellPlaced::printing))]
fn line(alloc: Global, tree: &Tree) -> Result<Sequence<u8>, Memory>
    requires { IsPrintable tree.now }
    ensures { IfOk result (λ line. line ≡ line_of tree.now) }
{
    let mut text = json_tree::print(alloc, tree)?;
    text.push(b'\n')?;
    Ok(Sequence::from_vec(text))
}

/// A refusal with these fields.
fn refusal(alloc: Global, fields: Items<Member>) -> Result<Tree, Memory>
    requires { IsPrintable (v.Object fields) }
    ensures tree { IfOk result (λ t. t ≡ refusal_tree fields) }
    ensures printable { IfOk result (λ t. IsPrintable t) }
{
    let refused = field(alloc, "refused", Tree::Object(fields))?;
    Ok(Tree::Object(Items::from_vec(vec![in alloc; refused]?)))
}

/// The refusal of a number that is not whole, at the place with this JSON Pointer.
pub(crate) fn not_whole_line(alloc: Global, place: &Text) -> Result<Sequence<u8>, Memory>
    ensures { IfOk result (λ line. line ≡ line_of (not_whole_tree place.now)) }
{
    let name = text_field(alloc, "name", "NotWhole")?;
    let place = text_field(alloc, "place", place.as_str())?;
    let tree = refusal(alloc, Items::from_vec(vec![in alloc; name, place]?))?;
    line(alloc, &tree)
}

/// The refusal of a method that the key table does not have.
pub(crate) fn unknown_method_line(alloc: Global, method: &Text) -> Result<Sequence<u8>, Memory>
    ensures { IfOk result (λ line. line ≡ line_of (unknown_method_tree method.now)) }
{
    let method = text_field(alloc, "method", method.as_str())?;
    let name = text_field(alloc, "name", "UnknownMethod")?;
    let tree = refusal(alloc, Items::from_vec(vec![in alloc; method, name]?))?;
    line(alloc, &tree)
}

/// The refusal of a key that the device does not own.
pub(crate) fn no_key_line(alloc: Global, key: &KeyName) -> Result<Sequence<u8>, Memory>
    ensures { IfOk result (λ line. line ≡ line_of (no_key_tree key.now)) }
{
    let key = key_field(alloc, "key", key)?;
    let name = text_field(alloc, "name", "NoKey")?;
    let tree = refusal(alloc, Items::from_vec(vec![in alloc; key, name]?))?;
    line(alloc, &tree)
}

/// The name of a part of a proof value.
fn part_name(part: Part) -> &'static str
    ensures { result.now ≡ part_name part }
{
    match part {
        Part::Array => "Array",
        Part::BaseSignature => "BaseSignature",
        Part::PublicKey => "PublicKey",
        Part::HmacKey => "HmacKey",
        Part::Signatures => "Signatures",
        Part::Pointers => "Pointers",
        Part::LabelMap => "LabelMap",
        Part::Indexes => "Indexes",
    }
}

/// The fields of a fault of a proof value that carries nothing.
fn plain_fault(alloc: Global, fault: &str) -> Result<Items<Member>, Memory>
    ensures fields { IfOk result (λ fields. fields ≡ plain_fault fault.now) }
    ensures printable { IfOk result (λ fields. IsPrintable (v.Object fields)) }
{
    let fault = text_field(alloc, "fault", fault)?;
    let name = text_field(alloc, "name", "ProofValue")?;
    Ok(Items::from_vec(vec![in alloc; fault, name]?))
}

/// The fields of a fault at a byte.
fn fault_at(alloc: Global, fault: &str, at: u64) -> Result<Items<Member>, Memory>
    ensures fields { IfOk result (λ fields. fields ≡ fault_at fault.now at) }
    ensures printable { IfOk result (λ fields. IsPrintable (v.Object fields)) }
{
    let at = number_field(alloc, "at", at)?;
    let fault = text_field(alloc, "fault", fault)?;
    let name = text_field(alloc, "name", "ProofValue")?;
    Ok(Items::from_vec(vec![in alloc; at, fault, name]?))
}

/// The fields of a fault of a part.
fn fault_of(alloc: Global, fault: &str, part: Part) -> Result<Items<Member>, Memory>
    ensures fields { IfOk result (λ fields. fields ≡ fault_of fault.now part) }
    ensures printable { IfOk result (λ fields. IsPrintable (v.Object fields)) }
{
    let fault = text_field(alloc, "fault", fault)?;
    let name = text_field(alloc, "name", "ProofValue")?;
    let part = text_field(alloc, "part", part_name(part))?;
    Ok(Items::from_vec(vec![in alloc; fault, name, part]?))
}

/// The fields of a fault of the item in a proof value.
fn cbor_fields(alloc: Global, fault: CborFault) -> Result<Items<Member>, Memory>
    ensures fields { IfOk result (λ fields. fields ≡ cbor_fields fault) }
    ensures printable { IfOk result (λ fields. IsPrintable (v.Object fields)) }
{
    match fault {
        CborFault::Truncated(at) => fault_at(alloc, "Truncated", at),
        CborFault::NotShortest(at) => fault_at(alloc, "NotShortest", at),
        CborFault::Forbidden(at) => fault_at(alloc, "Forbidden", at),
        CborFault::RepeatedKey(at) => fault_at(alloc, "RepeatedKey", at),
        CborFault::Trailing(at) => fault_at(alloc, "Trailing", at),
        CborFault::TooMany => plain_fault(alloc, "TooMany"),
        CborFault::Memory => plain_fault(alloc, "Memory"),
    }
}

/// The fields of a fault of a proof value.
fn value_fields(alloc: Global, fault: ValueFault) -> Result<Items<Member>, Memory>
    ensures fields { IfOk result (λ fields. fields ≡ value_fields fault) }
    ensures printable { IfOk result (λ fields. IsPrintable (v.Object fields)) }
{
    match fault {
        ValueFault::NotMultibase => plain_fault(alloc, "NotMultibase"),
        ValueFault::Header => plain_fault(alloc, "Header"),
        ValueFault::Cbor(fault) => cbor_fields(alloc, fault),
        ValueFault::Shape(part) => fault_of(alloc, "Shape", part),
        ValueFault::Length(part) => fault_of(alloc, "Length", part),
        ValueFault::Indexes => plain_fault(alloc, "Indexes"),
        ValueFault::Memory => plain_fault(alloc, "Memory"),
    }
}

/// The refusal of a proof value.
pub(crate) fn proof_value_line(alloc: Global, fault: ValueFault) -> Result<Sequence<u8>, Memory>
    ensures { IfOk result (λ line. line ≡ line_of (proof_value_tree fault)) }
{
    let fields = value_fields(alloc, fault)?;
    let tree = refusal(alloc, fields)?;
    line(alloc, &tree)
}

/// The issued document, and how many statements are mandatory and are there.
pub(crate) fn issued_line(
    alloc: Global,
    document: Tree,
    mandatory: u64,
    statements: u64,
) -> Result<Sequence<u8>, Memory>
    requires { IsPrintable document }
    ensures { IfOk result (λ line.
        line ≡ line_of (issued_tree document mandatory statements)) }
{
    let members = vec![in alloc;
        field(alloc, "document", document)?,
        number_field(alloc, "mandatory", mandatory)?,
        number_field(alloc, "statements", statements)?,
        field(alloc, "tie", Tree::Bool(false))?,
    ]?;
    line(alloc, &Tree::Object(Items::from_vec(members)))
}

/// A whole number at a place of a list.
fn whole_item(at: u64, number: u64) -> Item
    ensures item { result ≡ element at (v.Whole (pos number)) }
    ensures printable { IsPrintable result.value }
{
    Item {
        at,
        value: Tree::Whole(number as i128),
    }
}

/// A list of whole numbers.
fn whole_items(alloc: Global, numbers: &[u64]) -> Result<Items<Item>, Memory>
    ensures items { IfOk result (λ items. items ≡ whole_items 0 numbers.now) }
    ensures printable { IfOk result (λ items. IsPrintable (v.List items)) }
{
    let mut items = Items::new(alloc);
    for at in 0..numbers.len() {
        items.push(whole_item(at as u64, numbers[at]))?;
    }
    Ok(items)
}

/// A yes: the issuer key, the mandatory indexes, the statement key and the number of statements.
pub(crate) fn verified_line(
    alloc: Global,
    issuer: &KeyName,
    indexes: &Sequence<u64>,
    key: &KeyName,
    statements: u64,
) -> Result<Sequence<u8>, Memory>
    ensures { IfOk result (λ line.
        line ≡ line_of (verified_tree issuer.now indexes.now key.now statements)) }
{
    let mandatory = whole_items(alloc, indexes.as_slice())?;
    let members = vec![in alloc;
        key_field(alloc, "key", issuer)?,
        field(alloc, "labels", Tree::Object(Items::new(alloc)))?,
        field(alloc, "mandatory", Tree::List(mandatory))?,
        key_field(alloc, "statementKey", key)?,
        number_field(alloc, "statements", statements)?,
        field(alloc, "tie", Tree::Bool(false))?,
        field(alloc, "verified", Tree::Bool(true))?,
    ]?;
    line(alloc, &Tree::Object(Items::from_vec(members)))
}

/// The member `name` of a cause, alone.
fn name_alone(alloc: Global, name: &str) -> Result<Items<Member>, Memory>
    ensures fields { IfOk result (λ fields. fields ≡ name_field name.now ∷ []) }
    ensures printable { IfOk result (λ fields. IsPrintable (v.Object fields)) }
{
    let name = text_field(alloc, "name", name)?;
    Ok(Items::from_vec(vec![in alloc; name]?))
}

/// A cause at a place of a list.
fn cause_at(alloc: Global, index: u64, name: &str) -> Result<Items<Member>, Memory>
    ensures fields { IfOk result (λ fields.
        fields ≡ number_field (codes "index") index ∷ name_field name.now ∷ []) }
    ensures printable { IfOk result (λ fields. IsPrintable (v.Object fields)) }
{
    let index = number_field(alloc, "index", index)?;
    let name = text_field(alloc, "name", name)?;
    Ok(Items::from_vec(vec![in alloc; index, name]?))
}

/// The cause that the label map is not one to one, with the least number.
fn label_fields(alloc: Global, number: u64) -> Result<Items<Member>, Memory>
    ensures fields { IfOk result (λ fields. fields ≡ cause_fields (cause.Labels number)) }
    ensures printable { IfOk result (λ fields. IsPrintable (v.Object fields)) }
{
    let name = text_field(alloc, "name", "Labels")?;
    let number = number_field(alloc, "number", number)?;
    Ok(Items::from_vec(vec![in alloc; name, number]?))
}

/// The cause that there are not as many signatures as statements to be signed.
fn count_fields(alloc: Global, signatures: u64, statements: u64) -> Result<Items<Member>, Memory>
    ensures fields { IfOk result (λ fields.
        fields ≡ cause_fields (cause.Count signatures statements)) }
    ensures printable { IfOk result (λ fields. IsPrintable (v.Object fields)) }
{
    let name = text_field(alloc, "name", "Count")?;
    let signatures = number_field(alloc, "signatures", signatures)?;
    let statements = number_field(alloc, "statements", statements)?;
    Ok(Items::from_vec(vec![in alloc; name, signatures, statements]?))
}

/// The cause that the proof expired.
fn expired_fields(alloc: Global, expires: &Text, moment: &Text) -> Result<Items<Member>, Memory>
    ensures fields { IfOk result (λ fields.
        fields ≡ cause_fields (cause.Expired expires.now moment.now)) }
    ensures printable { IfOk result (λ fields. IsPrintable (v.Object fields)) }
{
    let expires = text_field(alloc, "expires", expires.as_str())?;
    let moment = text_field(alloc, "moment", moment.as_str())?;
    let name = text_field(alloc, "name", "Expired")?;
    Ok(Items::from_vec(vec![in alloc; expires, moment, name]?))
}

/// The fields of a cause.
fn cause_fields(alloc: Global, cause: &Cause) -> Result<Items<Member>, Memory>
    ensures fields { IfOk result (λ fields. fields ≡ cause_fields cause.now) }
    ensures printable { IfOk result (λ fields. IsPrintable (v.Object fields)) }
{
    match cause {
        Cause::Nothing => name_alone(alloc, "Nothing"),
        Cause::Labels(number) => label_fields(alloc, *number),
        Cause::Indexes(index) => cause_at(alloc, *index, "Indexes"),
        Cause::Count {
            signatures,
            statements,
        } => count_fields(alloc, *signatures, *statements),
        Cause::Expired { expires, moment } => expired_fields(alloc, expires, moment),
        Cause::BaseSignature => name_alone(alloc, "BaseSignature"),
        Cause::StatementSignature(index) => cause_at(alloc, *index, "StatementSignature"),
    }
}

/// A no, with its cause.
pub(crate) fn rejected_line(alloc: Global, cause: &Cause) -> Result<Sequence<u8>, Memory>
    ensures { IfOk result (λ line. line ≡ line_of (rejected_tree cause.now)) }
{
    let cause = cause_fields(alloc, cause)?;
    let members = vec![in alloc;
        field(alloc, "cause", Tree::Object(cause))?,
        field(alloc, "verified", Tree::Bool(false))?,
    ]?;
    line(alloc, &Tree::Object(Items::from_vec(members)))
}
