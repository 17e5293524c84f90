// The title of a service's player: the part of a lent text that it is, and which part that is. Each call checks all that is lent and the state itself, and alters
// nothing.
#![tactic(auto)]

ghost use Rattle.std.specs.Prelude.{◌≡◌};
ghost use Rattle.catalogue_titles.specs.Titles.{IsPart};
ghost use Rattle.catalogue_titles.specs.Lent.{lent, lending};
ghost use Rattle.mcs_state.specs.Codec.{desk_of};
ghost use Rattle.desk_title.specs.Title.{title_call, titled_by};

use catalogue_titles::{Loan, Part};
use ground::Refusal;

// Of which text the title is a part, and where it stands in it; or the refusal.
pub fn which(loan: &Loan, state: &[u8; 649], service: u32) -> Result<Part, Refusal>
    ensures { titled_by result ≡ title_call (lent loan.now) (desk_of state.now) service }
{
    desk_replies::service_gate(loan, state, service)?;
    let p = mcs_state::player_at(state, service);
    Ok(player_values::title_part(loan.tracks, loan.renames, p))
}

// The title itself, out of the text that it is a part of; the empty front of the card's text where it is refused (SCOPE 5.7).
// Stays a function of the six slices: what is handed back lives as long as the two texts, and a `Loan` would tie the tables to that.
pub fn title<'a>(
    groups: &[u32],
    tracks: &[u32],
    segments: &[u32],
    text: &'a [u8],
    renames: &[u32],
    office: &'a [u8],
    state: &[u8; 649],
    service: u32,
) -> &'a [u8]
    ensures { IsPart (title_call (lending groups.now tracks.now segments.now text.now renames.now office.now) (desk_of state.now) service).state text.entry office.entry result }
{
    let loan = Loan {
        groups: groups,
        tracks: tracks,
        segments: segments,
        text: text,
        renames: renames,
        office: office,
    };
    let part = which(&loan, state, service).unwrap_or(catalogue_titles::front_part());
    catalogue_titles::cut(part, text, office)
}
