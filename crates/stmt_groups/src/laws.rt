//! Laws of the definitions: each is the contract of a function that does nothing.

ghost use Rattle.std.specs.Prelude.{All, Contains, ℕ, List, [], ◌∷◌, codes, length, Some, false, true, ◌++◌, ◌-◌, ◌≡◌, ◌≢◌, ◌↔◌, map};
ghost use Rattle.std.specs.List.{concat};
ghost use Rattle.std.specs.Str.{bytes_eq};
ghost use Rattle.base64.specs.GeneralPurpose.{IsBytes};
ghost use Rattle.base_types.specs.Order.{rise};
ghost use Rattle.base_types.specs.Sets.{SameElements};
ghost use Rattle.digest_mac.specs.declared.hash.Hash.{Hash};
ghost use Rattle.digest_mac.specs.declared.hash.Hash.TheVariants.{Sha256, Sha384};
ghost use Rattle.digest_mac.specs.Digests.{digest};
ghost use Rattle.digest_mac.specs.Labels.{hmac_label, multibase_text};
ghost use Rattle.key_device.specs.declared.device.SignedEntry.{SignedEntry};
ghost use Rattle.key_device.specs.declared.keys.KeyName.{KeyName};
ghost use Rattle.key_device.specs.Devices.{Acceptance, DeviceMeaning, MeansItsLog};
ghost use Rattle.key_device.specs.Ledgers.{ledger_meaning};
ghost use Rattle.nquads.specs.Lines.{canonical_lines};
ghost use Rattle.nquads.specs.Renaming.{IsRenaming, NamesAll, Pair, Same, StandsIn};
ghost use Rattle.nquads.specs.Terms.{Blank, IsDataset, IsLabel, IsStatement, Statement, blank};
ghost use Rattle.stmt_groups.specs.declared.grouping.Line.{Line};
ghost use Rattle.stmt_groups.specs.declared.types.BaseRecord.{BaseRecord};
ghost use Rattle.stmt_groups.specs.ByHash.{AreBy, HaveSizedKeys, IsCoveredBy, IsGoodBy, IsKeySized, NamesOneBy, sign_data_by, signings_for_all};
ghost use Rattle.stmt_groups.specs.Datasets.{LabelledDataset, IsLabelled, dataset_lines};
ghost use Rattle.stmt_groups.specs.Example.{bytes_to_sign, dataset, derived_document, first_record, history, ledger, nth_key, second_record, statement, store_texts, swapped_marks, two_lines, two_marks, two_parts};
ghost use Rattle.stmt_groups.specs.Groups.{AreGroups, chosen_texts, mandatory_texts, other_texts, texts_of, under};
ghost use Rattle.stmt_groups.specs.Issues.{IsIssueRecord};
ghost use Rattle.stmt_groups.specs.LabelMaps.{AreNumbered, DerivedProofValue, HoldsUnder, IsGoodValue, IsLabelMap, LabelEntry, NumberedDataset, entry, labelled_by, named_by, pair, renaming_by, value_data};
ghost use Rattle.stmt_groups.specs.Lines.{lines_at, other_lines};
ghost use Rattle.stmt_groups.specs.Parts.{AreMarks, AreParts, IsLeast, IsStray, IsStrayText, IsTextOf, Parts, parts_of};
ghost use Rattle.stmt_groups.specs.Premises.{IsInUse, NoForgery, PremisesHold};
ghost use Rattle.stmt_groups.specs.Proofs.{AreBelow, DerivedProof, IsGood, VerifyData, checked_signings, mandatory_lines, non_mandatory_lines};
ghost use Rattle.stmt_groups.specs.Records.{HasLines, IsRecord, IsSplit, history_signings, sign_data, signing};
ghost use Rattle.stmt_groups.specs.Soundness.{Holds, IsCovered, NamesOne, Reveals, RevealsIssueOf};

/// Where a proof is good over a document and its options, and a history of records covers it,
/// exactly one record has the accepted keys, and it holds of the document and the options.
pub fn a_covered_proof_names_one_record()
    ensures { (history : List BaseRecord) (accepts : Acceptance) (v : VerifyData)
        → IsLabelled v.document → IsLabelled v.options → IsGood accepts v
        → IsCovered history accepts v → NamesOne history v }
{}

/// What a yes names is one record alone.
pub fn no_two_records_are_named()
    ensures { (history : List BaseRecord) (v : VerifyData) (m n : NamesOne history v)
        → m.one ≡ n.one }
{}

/// Without a good proof a history names nothing: where nothing is accepted, no record at all covers
/// what is verified, and it names none.
pub fn coverage_alone_names_no_record()
    ensures covers { (v : VerifyData) → IsCovered [] (λ key bytes s. false) v }
    ensures names_none { (v : VerifyData) → NamesOne [] v → ⊥ }
{}

/// What is asked of a history for a yes can be met: a record alone covers lines that have exactly
/// its mandatory ones at the indexes, and of which each other line is one of its others, with its
/// options.
pub fn a_record_covers_what_it_holds_of()
    ensures { (r : BaseRecord) (accepts : Acceptance) (v : VerifyData)
        → HasLines r → r.key ≢ r.issuer → v.issuer ≡ r.issuer → v.proof.key ≡ r.key
        → mandatory_lines v ≡ r.mandatory
        → All (Contains r.others) (non_mandatory_lines v) → dataset_lines v.options ≡ r.options
        → IsCovered (r ∷ []) accepts v }
{}

/// Each text of the record of an issue is one line.
pub fn a_record_of_an_issue_has_lines()
    ensures { (document options : LabelledDataset) (mandatory : List Statement) (r : BaseRecord)
        → IsRecord document options mandatory r → HasLines r }
{}

/// In words of statements: where the record of an issue holds of a document and its options, the
/// options are the issued ones up to blank nodes, and the document reveals a part of the issued
/// one.
pub fn a_record_holds_of_what_was_issued()
    ensures options { (issued issued_options document options : LabelledDataset)
        (mandatory : List Statement) (indexes : List ℕ) (r : BaseRecord)
        → IsRecord issued issued_options mandatory r → Holds r document options indexes
        → Same options.statements issued_options.statements }
    ensures document { (issued issued_options document options : LabelledDataset)
        (mandatory : List Statement) (indexes : List ℕ) (r : BaseRecord)
        → IsRecord issued issued_options mandatory r → Holds r document options indexes
        → Reveals document indexes issued.statements mandatory }
{}

/// Where the premises hold, the history covers what a good proof is verified with.
pub fn premises_cover_a_good_proof()
    ensures { (device : DeviceMeaning) (history : List BaseRecord) (v : VerifyData)
        → IsGood device.accepts v → PremisesHold device history v
        → IsCovered history device.accepts v }
{}

/// What a yes means. Where a proof is good and the premises hold, exactly one record of the history
/// has the accepted keys. If it is the record of an issue, the options are the issued ones up to
/// blank nodes, and one renaming sends the document's mandatory statements to exactly the issued
/// mandatory ones, and each other statement to an issued one that is not mandatory.
pub fn a_yes_reveals_one_issue()
    ensures { (device : DeviceMeaning) (history : List BaseRecord) (v : VerifyData)
        → IsLabelled v.document → IsLabelled v.options → IsGood device.accepts v
        → PremisesHold device history v → (n : NamesOne history v) × RevealsIssueOf n.one v }
{}

/// The premise on forgery is met by an exact device that owns the keys in use, where each entry of
/// its log under such a key was made for a record.
pub fn an_exact_device_forges_nothing()
    ensures { (device : DeviceMeaning) (history : List BaseRecord) (issuer : KeyName)
        (entries : List SignedEntry) → device.log ≡ Some entries → MeansItsLog device
        → ((key : KeyName) → IsInUse history issuer key → device.owns key ≡ true)
        → ((e : SignedEntry) → Contains entries e → IsInUse history issuer e.key
        → Contains (history_signings history) (signing e.key e.bytes))
        → NoForgery device history issuer }
{}

/// A worked example of two records and one derived document: the records are those of issues, the
/// premises hold of their history, and the proof is good. So no premise hides another.
pub fn several_records_meet_the_premises()
    ensures records { IsRecord (dataset (codes "urn:a" ∷ codes "urn:b" ∷ codes "urn:c" ∷ []))
        (dataset (codes "urn:o" ∷ [])) (statement (codes "urn:a") ∷ []) first_record
        × IsRecord (dataset (codes "urn:a" ∷ codes "urn:d" ∷ []))
        (dataset (codes "urn:q" ∷ [])) (statement (codes "urn:a") ∷ []) second_record }
    ensures labels { IsLabelled derived_document.document × IsLabelled derived_document.options }
    ensures premises { PremisesHold (ledger_meaning ledger) history derived_document }
    ensures good { IsGood (ledger_meaning ledger).accepts derived_document }
{}

/// The bytes that the issuer key signs, in an example: the digest of the options' line, the key,
/// and the digest of the mandatory lines. The digests are those of another implementation.
pub fn sign_data_of_an_example()
    ensures { sign_data (codes "<urn:o> <urn:p> \"o\" .\n" ∷ [])
        (record { bytes = codes "key-of-thirty-five-bytes-in-letters" })
        (codes "<urn:m> <urn:p> \"1\" .\n" ∷ codes "<urn:m> <urn:p> \"2\" .\n" ∷ [])
        ≡ (
        83 ∷ 235 ∷ 38 ∷ 221 ∷ 158 ∷ 219 ∷ 112 ∷ 6 ∷
        177 ∷ 163 ∷ 109 ∷ 125 ∷ 225 ∷ 139 ∷ 109 ∷ 162 ∷
        100 ∷ 212 ∷ 156 ∷ 52 ∷ 169 ∷ 40 ∷ 144 ∷ 113 ∷
        158 ∷ 87 ∷ 118 ∷ 47 ∷ 67 ∷ 99 ∷ 166 ∷ 127 ∷ [])
        ++ codes "key-of-thirty-five-bytes-in-letters" ++ (
        124 ∷ 42 ∷ 30 ∷ 101 ∷ 44 ∷ 68 ∷ 116 ∷ 118 ∷
        46 ∷ 186 ∷ 57 ∷ 205 ∷ 78 ∷ 21 ∷ 36 ∷ 67 ∷
        189 ∷ 143 ∷ 130 ∷ 38 ∷ 226 ∷ 83 ∷ 70 ∷ 210 ∷
        238 ∷ 94 ∷ 134 ∷ 60 ∷ 233 ∷ 104 ∷ 248 ∷ 171 ∷ []) }
{}

/// Two records of an example stand for their other lines under their statement keys, each with its
/// sign data under the issuer's key.
pub fn signings_of_an_example()
    ensures all { history_signings history
        ≡ signing (nth_key 2) (codes "<urn:s> <urn:p> <urn:b> .\n")
        ∷ signing (nth_key 2) (codes "<urn:s> <urn:p> <urn:c> .\n")
        ∷ signing (nth_key 1) (bytes_to_sign first_record)
        ∷ signing (nth_key 3) (codes "<urn:s> <urn:p> <urn:d> .\n")
        ∷ signing (nth_key 1) (bytes_to_sign second_record) ∷ [] }
    ensures checked { checked_signings derived_document
        ≡ signing (nth_key 1) (bytes_to_sign first_record)
        ∷ signing (nth_key 2) (codes "<urn:s> <urn:p> <urn:c> .\n") ∷ [] }
{}

/// Which splits there are: the others are the rest where the first statement is mandatory alone; a
/// mandatory statement is one of the whole, is none of the others, and no other one is left out.
pub fn statements_are_mandatory_or_others()
    ensures rest { (a : Statement) (others : List Statement) → (Contains others a → ⊥)
        → IsSplit (a ∷ others) (a ∷ []) others }
    ensures not_foreign { (a b : Statement) → a ≢ b → IsSplit (a ∷ []) (b ∷ []) (a ∷ []) → ⊥ }
    ensures not_twice { (a b : Statement) → IsSplit (a ∷ b ∷ []) (b ∷ []) (a ∷ b ∷ []) → ⊥ }
    ensures loses_none { (a b : Statement) → a ≢ b → IsSplit (a ∷ b ∷ []) (b ∷ []) [] → ⊥ }
{}

/// What no good proof has: no statement; an index past the lines; more or fewer signatures than
/// lines that are not mandatory; a signature that is not accepted.
pub fn bad_proofs_are_not_good()
    ensures empty { (accepts : Acceptance) (v : VerifyData) → v.document.statements ≡ []
        → IsGood accepts v → ⊥ }
    ensures index { (accepts : Acceptance) (v : VerifyData)
        → Contains v.proof.indexes (length (dataset_lines v.document)) → IsGood accepts v → ⊥ }
    ensures count { (accepts : Acceptance) (v : VerifyData)
        → length v.proof.signatures ≢ length (non_mandatory_lines v) → IsGood accepts v → ⊥ }
    ensures never { (v : VerifyData) → IsGood (λ key bytes s. false) v → ⊥ }
    ensures statement { (v : VerifyData) → non_mandatory_lines v ≢ []
        → IsGood (λ key bytes s. bytes_eq key.bytes v.issuer.bytes) v → v.proof.key ≡ v.issuer }
{}

/// A document that reveals a part of an issued one is, up to blank nodes, a part of it that holds
/// each mandatory statement.
pub fn a_revealed_part_lies_between()
    ensures { (document : LabelledDataset) (indexes : List ℕ) (issued mandatory : List Statement)
        → Reveals document indexes issued mandatory → All (Contains issued) mandatory
        → (part : List Statement) × Same document.statements part
        × All (Contains issued) part × All (Contains part) mandatory }
{}

/// Examples: of four lines those at the first and the third place, and the others; the order of the
/// places does not count, nor a place where there is no line.
pub fn lines_of_an_example()
    ensures listed { (k l m n : List ℕ)
        → lines_at (0 ∷ 2 ∷ []) (k ∷ l ∷ m ∷ n ∷ []) ≡ k ∷ m ∷ [] }
    ensures others { (k l m n : List ℕ)
        → other_lines (0 ∷ 2 ∷ []) (k ∷ l ∷ m ∷ n ∷ []) ≡ l ∷ n ∷ [] }
    ensures listed_in_order { (k l m n : List ℕ)
        → lines_at (3 ∷ 4 ∷ 1 ∷ []) (k ∷ l ∷ m ∷ n ∷ []) ≡ l ∷ n ∷ [] }
    ensures others_in_order { (k l m n : List ℕ)
        → other_lines (3 ∷ 4 ∷ 1 ∷ []) (k ∷ l ∷ m ∷ n ∷ []) ≡ k ∷ m ∷ [] }
{}

/// The lines at listed places and those at all others are together the lines, and where there is no
/// other line the listed ones are all, in order.
pub fn lines_are_listed_or_not()
    ensures elements { (indexes : List ℕ) (lines : List (List ℕ))
        → SameElements (lines_at indexes lines ++ other_lines indexes lines) lines }
    ensures all { (indexes : List ℕ) (lines : List (List ℕ))
        → length (other_lines indexes lines) ≡ 0 → lines_at indexes lines ≡ lines }
{}

/// Where places rise strictly and are each a line's, there are as many listed lines as places.
pub fn rising_places_count_their_lines()
    ensures listed { (indexes : List ℕ) (lines : List (List ℕ))
        → rise indexes ≡ true → AreBelow lines indexes
        → length (lines_at indexes lines) ≡ length indexes }
    ensures others { (indexes : List ℕ) (lines : List (List ℕ))
        → rise indexes ≡ true → AreBelow lines indexes
        → length (other_lines indexes lines) ≡ length lines - length indexes }
{}

/// What is in place has nothing that is out of place, and what is out of place has one least text.
/// So one outcome of marking excludes another.
pub fn parts_have_one_outcome()
    ensures apart { (p : Parts Statement) (s : Statement) → AreParts p → IsStray p s → ⊥ }
    ensures one_text { (p : Parts Statement) (text other : List ℕ)
        → IsLeast (IsStrayText p) text → IsLeast (IsStrayText p) other → text ≡ other }
{}

/// Which parts there are: the order does not count. A part has no statement that the whole has not,
/// and what is mandatory is chosen.
pub fn parts_lie_in_each_other()
    ensures in_place { (a b : Statement)
        → AreParts (parts_of (a ∷ b ∷ []) (a ∷ []) (b ∷ a ∷ [])) }
    ensures mandatory { (a b : Statement) → a ≢ b
        → AreParts (parts_of (a ∷ []) (b ∷ []) (b ∷ [])) → ⊥ }
    ensures chosen { (a b : Statement) → a ≢ b
        → AreParts (parts_of (a ∷ []) [] (b ∷ [])) → ⊥ }
    ensures not_chosen { (a b : Statement) → a ≢ b
        → AreParts (parts_of (a ∷ b ∷ []) (a ∷ b ∷ []) (a ∷ [])) → ⊥ }
{}

/// Examples of what is out of place: of two statements that are chosen and none of the whole the
/// lesser text is answered, and blank nodes are written `_:x` there.
pub fn strays_of_an_example()
    ensures least { IsLeast (IsStrayText (parts_of (statement (codes "urn:a") ∷ []) []
        (statement (codes "urn:c") ∷ statement (codes "urn:b") ∷ [])))
        (codes "<urn:s> <urn:p> <urn:b> .") }
    ensures not_another { IsLeast (IsStrayText (parts_of (statement (codes "urn:a") ∷ []) []
        (statement (codes "urn:c") ∷ statement (codes "urn:b") ∷ [])))
        (codes "<urn:s> <urn:p> <urn:c> .") → ⊥ }
    ensures blank { (b c d : Blank) → IsTextOf (record {
      subject = blank b;
      predicate = codes "urn:p";
      object = blank c;
      graph = Some (blank d);
    }) (codes "_:x <urn:p> _:x _:x .") }
{}

/// Examples of marks and lines: those of two statements of which one is mandatory and both are
/// chosen; with what a mark says exchanged they are none.
pub fn marks_and_lines_of_an_example()
    ensures marks { AreMarks store_texts two_parts two_marks }
    ensures not_swapped { AreMarks store_texts two_parts swapped_marks → ⊥ }
    ensures lines { AreGroups (λ b. []) two_parts two_lines }
{}

/// Where the statements have labels, the lines in groups are canonical ones: all of them those of
/// the whole, the mandatory ones those of the mandatory part, the chosen ones those of the chosen
/// part, and the others those of all other statements.
pub fn grouped_lines_are_canonical()
    ensures whole { (label : Blank → List ℕ) (p : Parts Statement) (lines : List Line)
        → IsLabelled (under label p.whole) → AreGroups label p lines
        → texts_of lines ≡ canonical_lines label p.whole }
    ensures mandatory { (label : Blank → List ℕ) (p : Parts Statement) (lines : List Line)
        → IsLabelled (under label p.whole) → AreGroups label p lines
        → All (Contains p.whole) p.mandatory
        → mandatory_texts lines ≡ canonical_lines label p.mandatory }
    ensures chosen { (label : Blank → List ℕ) (p : Parts Statement) (lines : List Line)
        → IsLabelled (under label p.whole) → AreGroups label p lines
        → All (Contains p.whole) p.chosen
        → chosen_texts lines ≡ canonical_lines label p.chosen }
    ensures others { (label : Blank → List ℕ) (p : Parts Statement) (lines : List Line)
        (others : List Statement) → IsLabelled (under label p.whole) → AreGroups label p lines
        → IsSplit p.whole p.mandatory others
        → other_texts lines ≡ canonical_lines label others }
{}

/// In groups a mandatory line is a chosen one. Where the statements have labels, there are as many
/// lines as statements.
pub fn groups_have_a_line_for_each_statement()
    ensures chosen { (label : Blank → List ℕ) (p : Parts Statement) (lines : List Line) (l : Line)
        → AreParts p → AreGroups label p lines → Contains lines l
        → l.mandatory ≡ true → l.chosen ≡ true }
    ensures count { (label : Blank → List ℕ) (p : Parts Statement) (lines : List Line)
        → IsLabelled (under label p.whole) → IsDataset p.whole → AreGroups label p lines
        → length lines ≡ length p.whole }
{}

/// The mandatory lines of groups and the others make a record, with the lines of the options.
pub fn groups_make_the_record()
    ensures { (options : LabelledDataset) (label : Blank → List ℕ) (p : Parts Statement)
        (lines : List Line) (r : BaseRecord)
        → IsLabelled (under label p.whole) → IsLabelled options → AreParts p
        → AreGroups label p lines → r.mandatory ≡ mandatory_texts lines
        → r.others ≡ other_texts lines → r.options ≡ dataset_lines options
        → IsRecord (under label p.whole) options p.mandatory r }
{}

/// Bytes that are signed tell their hash, where the names of keys have their length; and then the
/// key and both digests.
pub fn signed_bytes_tell_their_hash()
    ensures { (g h : Hash) (o p : List (List ℕ)) (k l : KeyName) (m n : List (List ℕ))
        → IsKeySized k → IsKeySized l → sign_data_by g o k m ≡ sign_data_by h p l n
        → (g ≡ h) × (k ≡ l) × (digest g (concat o) ≡ digest h (concat p))
        × (digest g (concat m) ≡ digest h (concat n)) }
{}

/// The bytes that the issuer key signs in the same example, by SHA-384. The digests are those of
/// another implementation.
pub fn sign_data_by_sha384_of_an_example()
    ensures { sign_data_by Sha384 (codes "<urn:o> <urn:p> \"o\" .\n" ∷ [])
        (record { bytes = codes "key-of-thirty-five-bytes-in-letters" })
        (codes "<urn:m> <urn:p> \"1\" .\n" ∷ codes "<urn:m> <urn:p> \"2\" .\n" ∷ [])
        ≡ (
        214 ∷ 116 ∷ 9 ∷ 25 ∷ 47 ∷ 58 ∷ 241 ∷ 211 ∷
        29 ∷ 178 ∷ 174 ∷ 171 ∷ 121 ∷ 248 ∷ 90 ∷ 202 ∷
        173 ∷ 65 ∷ 140 ∷ 74 ∷ 51 ∷ 210 ∷ 204 ∷ 178 ∷
        198 ∷ 223 ∷ 137 ∷ 195 ∷ 156 ∷ 123 ∷ 212 ∷ 95 ∷
        95 ∷ 146 ∷ 196 ∷ 133 ∷ 78 ∷ 198 ∷ 122 ∷ 180 ∷
        184 ∷ 21 ∷ 231 ∷ 134 ∷ 69 ∷ 137 ∷ 136 ∷ 55 ∷ [])
        ++ codes "key-of-thirty-five-bytes-in-letters" ++ (
        53 ∷ 137 ∷ 128 ∷ 201 ∷ 3 ∷ 140 ∷ 19 ∷ 46 ∷
        255 ∷ 27 ∷ 83 ∷ 61 ∷ 122 ∷ 65 ∷ 53 ∷ 185 ∷
        182 ∷ 177 ∷ 158 ∷ 158 ∷ 168 ∷ 81 ∷ 249 ∷ 64 ∷
        231 ∷ 19 ∷ 253 ∷ 80 ∷ 189 ∷ 57 ∷ 138 ∷ 186 ∷
        136 ∷ 240 ∷ 63 ∷ 211 ∷ 226 ∷ 67 ∷ 19 ∷ 163 ∷
        100 ∷ 99 ∷ 200 ∷ 40 ∷ 26 ∷ 215 ∷ 229 ∷ 175 ∷ []) }
{}

/// What is asked of a history by a hash can be met, by either hash: a record alone covers by its
/// own hash lines that have exactly its mandatory ones at the indexes, and of which each other line
/// is one of its others, with its options.
pub fn a_record_covers_by_its_hash_what_it_holds_of()
    ensures { (r : BaseRecord) (accepts : Acceptance) (v : VerifyData)
        → HasLines r → IsKeySized r.key → r.key ≢ r.issuer → v.issuer ≡ r.issuer
        → v.proof.key ≡ r.key → mandatory_lines v ≡ r.mandatory
        → All (Contains r.others) (non_mandatory_lines v) → dataset_lines v.options ≡ r.options
        → IsCoveredBy r.hash (r ∷ []) accepts v }
{}

/// The definitions without a hash are those by SHA-256, where each record is by it and the names of
/// keys have their length; and what is named by a hash is named without.
pub fn definitions_without_a_hash_are_by_sha256()
    ensures signed { (options : List (List ℕ)) (key : KeyName) (mandatory : List (List ℕ))
        → sign_data_by Sha256 options key mandatory ≡ sign_data options key mandatory }
    ensures signings { (history : List BaseRecord) → AreBy Sha256 history
        → signings_for_all history ≡ history_signings history }
    ensures good { (accepts : Acceptance) (v : VerifyData)
        → IsGood accepts v ↔ IsGoodBy Sha256 accepts v }
    ensures covered { (history : List BaseRecord) (accepts : Acceptance) (v : VerifyData)
        → AreBy Sha256 history → HaveSizedKeys history → IsKeySized v.proof.key
        → IsCovered history accepts v → IsCoveredBy Sha256 history accepts v }
    ensures named { (hash : Hash) (history : List BaseRecord) (v : VerifyData)
        → NamesOneBy hash history v → NamesOne history v }
{}

/// Without blank nodes no label counts: a record is that of an issue under any secret, and a good
/// proof is a good value with the empty label map.
pub fn without_blank_nodes_no_label_counts()
    ensures issued { (secret : List ℕ) (document options : LabelledDataset)
        (mandatory : List Statement) (r : BaseRecord)
        → ((b : Blank) → StandsIn document.statements b → ⊥)
        → ((b : Blank) → StandsIn options.statements b → ⊥)
        → IsRecord document options mandatory r
        → IsIssueRecord secret document options mandatory r }
    ensures good { (hash : Hash) (accepts : Acceptance) (issuer : KeyName) (q : List Statement)
        (options : LabelledDataset) (proof : DerivedProof)
        → IsGoodBy hash accepts (record {
          issuer = issuer;
          document = labelled_by [] q;
          options = options;
          proof = proof;
        }) ↔ IsGoodValue accepts issuer (record { statements = q; hash = hash; numbered = [] })
        options (record { hash = hash; labels = []; proof = proof }) }
{}

/// Where a dataset of an issue has one blank node, its number is 0: in the document it has the label
/// under the secret, and in the options the canonical one.
pub fn labels_of_an_issue_with_one_blank_node()
    ensures document { (secret : List ℕ) (document options : LabelledDataset)
        (mandatory : List Statement) (r : BaseRecord) (b : Blank)
        → IsIssueRecord secret document options mandatory r → StandsIn document.statements b
        → ((a : Blank) → StandsIn document.statements a → a ≡ b)
        → document.label b ≡ hmac_label r.hash secret 0 }
    ensures options { (secret : List ℕ) (document options : LabelledDataset)
        (mandatory : List Statement) (r : BaseRecord) (b : Blank)
        → IsIssueRecord secret document options mandatory r → StandsIn options.statements b
        → ((a : Blank) → StandsIn options.statements a → a ≡ b)
        → options.label b ≡ codes "c14n0" }
{}

/// A label map for the canonical numbers of a dataset makes a renaming that names each blank node;
/// and its labels are labels of the dataset, where they are in the grammar.
pub fn a_label_map_makes_a_renaming()
    ensures renaming { (q : List Statement) (numbered : List Blank) (entries : List LabelEntry)
        → AreNumbered q numbered → IsLabelMap (length numbered) entries
        → All (λ (e : LabelEntry). IsBytes e.digest) entries
        → IsRenaming (renaming_by numbered entries)
        × NamesAll (renaming_by numbered entries) q }
    ensures labels { (q : List Statement) (numbered : List Blank) (entries : List LabelEntry)
        → AreNumbered q numbered → IsLabelMap (length numbered) entries
        → All (λ (e : LabelEntry). IsBytes e.digest) entries
        → All (λ (e : LabelEntry). IsLabel (multibase_text e.digest)) entries
        → All IsStatement q → IsLabelled (labelled_by (renaming_by numbered entries) q) }
{}

/// Which label maps there are for so many numbers, in any order: none where a number has no entry,
/// has two, or is too great, or where two numbers have one digest.
pub fn label_maps_name_each_number_once()
    ensures is_one { (a b : List ℕ) → a ≢ b → IsLabelMap 2 (entry 1 a ∷ entry 0 b ∷ []) }
    ensures no_number { (a : List ℕ) → IsLabelMap 2 (entry 0 a ∷ []) → ⊥ }
    ensures twice { (a b : List ℕ) → IsLabelMap 1 (entry 0 a ∷ entry 0 b ∷ []) → ⊥ }
    ensures too_great { (a b : List ℕ) → IsLabelMap 1 (entry 0 a ∷ entry 1 b ∷ []) → ⊥ }
    ensures one_digest { (a : List ℕ) → IsLabelMap 2 (entry 0 a ∷ entry 1 a ∷ []) → ⊥ }
    ensures renames { (b c : Blank)
        → renaming_by (b ∷ c ∷ []) (entry 1 (codes "fo") ∷ entry 0 (codes "f") ∷ [])
        ≡ pair b (named_by (codes "uZg")) ∷ pair c (named_by (codes "uZm8")) ∷ [] }
{}

/// What holds of a document and its options holds of the document under a renaming: the one by its
/// labels.
pub fn what_holds_does_so_under_a_renaming()
    ensures { (r : BaseRecord) (document options : LabelledDataset) (indexes : List ℕ)
        → Holds r document options indexes → (pairs : List Pair)
        × HoldsUnder r pairs document.statements options.statements indexes }
{}

/// What a yes means for a value with a label map. Where the value is good and a history of records
/// covers what it is verified with, exactly one record has the accepted keys, it was made by the
/// hash of the value, and it holds of the document under the renaming that the label map makes.
pub fn a_good_value_names_one_record()
    ensures { (history : List BaseRecord) (accepts : Acceptance) (issuer : KeyName)
        (document : NumberedDataset) (options : LabelledDataset) (value : DerivedProofValue)
        → AreNumbered document.statements document.numbered
        → All (λ (e : LabelEntry). IsBytes e.digest) value.labels
        → IsLabelled (labelled_by (renaming_by document.numbered value.labels)
        document.statements)
        → IsLabelled options → IsGoodValue accepts issuer document options value
        → IsCoveredBy value.hash history accepts (value_data issuer document options value)
        → (n : NamesOneBy value.hash history (value_data issuer document options value))
        × HoldsUnder n.one (renaming_by document.numbered value.labels) document.statements
        options.statements value.proof.indexes }
{}
