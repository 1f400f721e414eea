//! Laws of the definitions: each is the contract of a function that does nothing.

ghost use Rattle.std.specs.Prelude.{◌≡◌, ◌≢◌, ◌↔◌, ◌≤◌, ◌+◌, ◌-◌, ◌*◌, ◌/◌, ℕ, ℤ, pos, negsuc, neg_ℤ, ◌+ℤ◌, List, [], ◌∷◌, codes, map, sum, take, true, false, Some, None, Result, Err};
ghost use Rattle.jiff_core.specs.Calendar as kit;
ghost use Rattle.json_tree.specs.declared.tree.Tree.{Tree};
ghost use Rattle.json_tree.specs.Members.{without};
ghost use Rattle.proof_options.specs.declared.fault.OptionFault.{OptionFault};
ghost use Rattle.proof_options.specs.declared.fault.OptionFault.TheVariants.{Memory};
ghost use Rattle.proof_options.specs.declared.fault.Suite.{Suite};
ghost use Rattle.proof_options.specs.declared.proofs.Options.{Options};
ghost use Rattle.proof_options.specs.declared.proofs.SplitProof.{SplitProof};
ghost use Rattle.proof_options.specs.Calendar.{Date, IsDate, days_before, days_before_year, epoch_day, is_leap, month_lengths, year_length};
ghost use Rattle.proof_options.specs.Stamps.{IsStamp};
ghost use Rattle.proof_options.specs.Shape.{HasShape, IsAbsent, IsText};
ghost use Rattle.proof_options.specs.Outcomes.{Checks, Splits};

/// A date that the calendar has is one of the kit's, and has its day number.
pub fn the_kit_has_this_calendar()
    ensures dates { (d : Date) → IsDate d
        ↔ ((1 ≤ d.year) × kit.IsDate (pos d.year) (pos d.month) (pos d.day)) }
    ensures days { (d : Date) → IsDate d
        → kit.days_from_civil (pos d.year) d.month d.day ≡ epoch_day d }
{}

/// The days before a year in closed form. XML Schema 1.1, part 2, E.3.4, timeOnTimeline.
pub fn days_before_a_year()
    ensures { (y : ℕ) → days_before_year (y + 1)
        ≡ 366 + 365 * y + y / 4 + y / 400 - y / 100 }
{}

/// A text is a stamp in one way: it has one instant.
pub fn a_stamp_has_one_instant()
    ensures { (text : List ℕ) (i j : ℤ) → IsStamp text i → IsStamp text j → i ≡ j }
{}

/// Of options there is one outcome of checking, and of a document one of splitting, but for out of
/// memory: one field is the first that is bad, or none is and the parts are the same.
pub fn options_have_one_outcome()
    ensures checked { (suite : Suite) (t : Tree) (r s : Result Options OptionFault)
        → Checks suite t r → Checks suite t s
        → r ≢ Err Memory → s ≢ Err Memory → r ≡ s }
    ensures split { (suite : Suite) (t : Tree) (r s : Result SplitProof OptionFault)
        → Splits suite t r → Splits suite t s
        → r ≢ Err Memory → s ≢ Err Memory → r ≡ s }
{}

/// The options of a secured document have the shape of options by themselves.
pub fn split_options_have_the_shape()
    ensures { (suite : Suite) (proof : Tree) → HasShape suite IsText (Some proof)
        → HasShape suite IsAbsent (Some (without (codes "proofValue") proof)) }
{}

/// Worked rows of the calendar: leap years, the lengths of years, and the days of dates.
pub fn worked_dates()
    ensures leap_years { map is_leap (1900 ∷ 2000 ∷ 2023 ∷ 2024 ∷ 2100 ∷ [])
        ≡ false ∷ true ∷ false ∷ true ∷ false ∷ [] }
    ensures lengths { map year_length (1900 ∷ 2000 ∷ 2023 ∷ 2024 ∷ [])
        ≡ 365 ∷ 366 ∷ 365 ∷ 366 ∷ [] }
    ensures epoch { epoch_day (record { year = 1970; month = 1; day = 1 }) ≡ pos 0 }
    ensures before { epoch_day (record { year = 1969; month = 12; day = 31 }) ≡ negsuc 0 }
    ensures leap_day { epoch_day (record { year = 2000; month = 2; day = 29 }) ≡ pos 11_016 }
    ensures after_leap_day { epoch_day (record { year = 2000; month = 3; day = 1 }) ≡ pos 11_017 }
    ensures first { epoch_day (record { year = 1; month = 1; day = 1 }) ≡ neg_ℤ (pos 719_162) }
    ensures last { epoch_day (record { year = 9999; month = 12; day = 31 }) ≡ pos 2_932_896 }
{}

/// Worked rows: the instants of stamps. RFC 3339, 5.8.
pub fn worked_stamps()
    ensures epoch { IsStamp (codes "1970-01-01T00:00:00Z") (pos 0) }
    ensures fraction { IsStamp (codes "1985-04-12T23:20:50.52Z") (pos 482_196_050_520_000_000) }
    ensures behind { IsStamp (codes "1996-12-19T16:39:57-08:00") (pos 851_042_397_000_000_000) }
    ensures ahead { IsStamp (codes "1937-01-01T12:00:27.87+00:20")
        (neg_ℤ (pos 1_041_337_172_130_000_000)) }
{}
