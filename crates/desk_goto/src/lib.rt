// The manual's Goto of a service's player: it checks all that is lent and the state itself, and alters nothing.
#![tactic(auto)]

ghost use Rattle.std.specs.Prelude.{◌≡◌};
ghost use Rattle.catalogue_titles.specs.Lent.{lent};
ghost use Rattle.mcs_state.specs.Codec.{desk_of};
ghost use Rattle.desk_goto.specs.Manual.{manual_call, shown_by};

use catalogue_titles::Loan;
use ground::Refusal;

// A result code, or 0 where the allowed steps ran out; the steps made; and where the player would be.
#[derive(Clone, Copy)]
pub struct Arrival {
    pub outcome: u8,
    pub steps: u32,
    pub place: player_state::Place,
}

// Goto a signed number, as its word in two's complement, with so many steps allowed.
pub fn manual_goto(
    loan: &Loan,
    state: &[u8; 649],
    service: u32,
    opcode: u32,
    n: u32,
    allowed: u32,
) -> Result<Arrival, Refusal>
    ensures { shown_by result ≡ manual_call (lent loan.now) (desk_of state.now) service opcode n allowed }
{
    desk_replies::service_gate(loan, state, service)?;
    let p = mcs_state::player_at(state, service);
    let gone = player_goto::goto_by_steps(
        loan.groups,
        loan.tracks,
        loan.segments,
        p,
        opcode,
        n,
        allowed,
    );
    Ok(Arrival {
        outcome: gone.outcome,
        steps: gone.steps,
        place: gone.player.place,
    })
}
