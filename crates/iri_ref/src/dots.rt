//! Removal of dot segments. RFC 3986, section 5.2.4.
ghost use Rattle.std.specs.Prelude.{◌≡◌, ◌||◌, [], string_bytes, IfOk, OnOk};
ghost use Rattle.std.specs.List.{fold};
ghost use Rattle.iri_ref.specs.Internal.Pieces.{borrowed_texts};
ghost use Rattle.iri_ref.specs.Resolution.{with_end, enter, is_dot, is_dot_dot, remove_dot_segments, segments, up};

use base_types::Memory;
use std::alloc::Global;

fn go_up(kept: &mut Vec<&str>)
    ensures { borrowed_texts kept.new.items ≡ up (borrowed_texts kept.old.items) }
{
    let count = kept.len();
    if count > 1 {
        kept.truncate(count - 1);
    } else if count == 1 {
        kept[0] = "";
    }
}

fn keep<'a>(kept: &mut Vec<&'a str>, segment: &'a str) -> Result<(), Memory>
    ensures { OnOk result (borrowed_texts kept.new.items
        ≡ enter (borrowed_texts kept.old.items) segment.now) }
{
    if segment == "." {
        return Ok(());
    }
    if segment == ".." {
        go_up(kept);
        return Ok(());
    }
    kept.push(segment)?;
    Ok(())
}

fn is_dot_segment(segment: &str) -> bool
    ensures { result ≡ (is_dot segment.now || is_dot_dot segment.now) }
{
    segment == "." || segment == ".."
}

/// The segments that are left when the dot segments have done what they say.
fn kept_segments(alloc: Global, path: &str) -> Result<Vec<&str>, Memory>
    ensures { IfOk result (λ kept.
        borrowed_texts kept.items ≡ fold enter [] (with_end (segments path.now))) }
{
    let mut kept = Vec::new(alloc);
    let mut rest = path;
    while let Some((segment, later)) = rest.split_once('/') {
        keep(&mut kept, segment)?;
        rest = later;
    }
    keep(&mut kept, rest)?;
    if is_dot_segment(rest) {
        kept.push("")?;
    }
    Ok(kept)
}

/// The path without its dot segments. RFC 3986, section 5.2.4.
#[tactic(auto, unfolding(crate::specs::Resolution::remove_dot_segments))]
pub(crate) fn path_without_dots(alloc: Global, path: &str) -> Result<String, Memory>
    ensures { IfOk result (λ s. string_bytes s ≡ remove_dot_segments path.now) }
{
    let kept = kept_segments(alloc, path)?;
    Ok(kept.as_slice().join(alloc, "/")?)
}
