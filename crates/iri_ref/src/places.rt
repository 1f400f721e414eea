//! Where the components of a text stand. RFC 3986, section 3.
/// Bytes `from` up to, and without, `to` of a text.
#[derive(Clone, Copy, Debug, PartialEq, Eq)]
pub struct Span {
    pub from: u64,
    pub to: u64,
}

/// Where the components of a text stand, each without its mark (`:`, `//`, `?`, `#`). RFC 3986,
/// section 3.
#[derive(Clone, Copy, Debug, PartialEq, Eq)]
pub struct Parts {
    pub scheme: Option<Span>,
    pub authority: Option<Span>,
    pub path: Span,
    pub query: Option<Span>,
    pub fragment: Option<Span>,
}
