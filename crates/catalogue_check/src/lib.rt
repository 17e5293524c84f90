// The catalogue check (SCOPE 4.14).
#![tactic(auto)]

ghost use Rattle.std.specs.Prelude.{◌≡◌};
ghost use Rattle.ground.specs.Refusals.{done_said};
ghost use Rattle.catalogue_tables.specs.Tables.{tables};
ghost use Rattle.catalogue_check.specs.Catalogue.{plain_rule, check_said};

use ground::{Reason, Refusal};

// Whether every rule is kept but the one that titles are UTF-8 (SCOPE 4.12).
fn plain_right(groups: &[u32], tracks: &[u32], segments: &[u32], text: &[u8]) -> bool
    ensures { result ≡ plain_rule (tables groups.now tracks.now segments.now text.now) }
{
    if !catalogue_rules::sizes_right(groups.len(), tracks.len(), segments.len(), text.len()) {
        return false;
    }
    if !catalogue_rules::parents_right(groups) {
        return false;
    }
    let count = tracks.len() / 6;
    if !catalogue_rules::runs_right(groups, groups.len() / 3, 3, 1, count) {
        return false;
    }
    if !catalogue_rules::tracks_right(tracks, segments.len(), text.len()) {
        return false;
    }
    if !catalogue_rules::starts_right(tracks, segments) {
        return false;
    }
    true
}

// The catalogue check: fine, or 200, which for a title that is not UTF-8 carries the track and the offset. That titles are UTF-8 is asked last (SCOPE 4.14).
pub fn check(groups: &[u32], tracks: &[u32], segments: &[u32], text: &[u8]) -> Result<(), Refusal>
    ensures { done_said result ≡ check_said (tables groups.now tracks.now segments.now text.now) }
{
    if !plain_right(groups, tracks, segments, text) {
        return Err(Refusal::from(Reason::BadCatalogue));
    }
    catalogue_rules::titles_text(tracks, text)?;
    Ok(())
}
