//! References to IRIs by RFC 3986, sections 3 and 5: `parse` says where each component of a text
//! stands, `is_absolute` whether a text is an IRI with a scheme, `resolve` what a reference means at
//! a base, and `split_at_colon` parts a compact IRI.
//!
//! Texts are read as bytes. The characters that no IRI holds are those of N-Quads (RDF 1.1 N-Quads,
//! 4, IRIREF); nothing else of RFC 3987's grammar is asked for. A text whose part before the first
//! colon is no scheme, as `1a:b`, has no scheme, and what stands there is path.
#![tactic(auto)]

mod dots;
mod fault;
mod laws;
mod places;
mod reading;
mod resolving;
mod splitting;

pub use base_types::{Memory, Text};
pub use fault::{BadAt, IriFault};
pub use laws::{
    ascii_characters, recompose_gives_back, segments_agree_with_buffers, spans_cut_the_components,
    worked_resolutions,
};
pub use places::{Parts, Span};
pub use reading::{is_absolute, parse};
pub use resolving::resolve;
pub use splitting::split_at_colon;
