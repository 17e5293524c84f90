// What the calls on the whole answer, and the rows of the refusal table that many of them share.
#![tactic(auto)]

ghost use Rattle.std.specs.Prelude.{◌≡◌, ℕ, [], ◌∷◌, ◌++◌, ◌≤◌, length};
ghost use Rattle.ground.specs.Refusals.{done_said, said_by, number_of, refusal_of};
ghost use Rattle.catalogue_titles.specs.Lent.{lent};
ghost use Rattle.mcs_state.specs.Codec.{desk_of};
ghost use Rattle.desk_replies.specs.Replies.{lent_rows, fronted, on_service, client_row, of_caller, of_characteristic, link_of, barred_of, barred_said};

use catalogue_titles::Loan;
use ground::{Reason, Refusal};

// What a call on the whole answers where it is accepted; where it is not, its answer is a refusal.
#[derive(Clone, Copy, PartialEq, Eq)]
pub enum Reply {
    // Accepted. Of a take: nothing is owed.
    Done,
    // A read handed out so many octets.
    Octets(usize),
    // A take served this client, of this service, this characteristic in so many octets.
    Served(u32, u32, u32, usize),
    // A take of a client's own record handed out, of this service, this characteristic in so many octets.
    Handed(u32, u32, usize),
}

// Why the gate of a characteristic does not let a call through: by a row that gates share; or by the call's own row, under the name that the call has for it.
#[derive(Clone, Copy, PartialEq, Eq)]
pub enum Barred<R> {
    Shared(Refusal),
    Own(R),
}

impl From<Barred<Reason>> for Refusal {
    ghost from_gives = { λ barred refusal. refusal_of refusal ≡ barred_of number_of barred };

    fn from(barred: Barred<Reason>) -> Refusal
        ensures { refusal_of result ≡ barred_of number_of barred }
    {
        match barred {
            Barred::Shared(refusal) => refusal,
            Barred::Own(reason) => Refusal::from(reason),
        }
    }
}

// 200, 224, 205. small: the lent output has under 128 octets; false where none is lent. It stands within its callers, which saves a frame on the stack of a chip.
#[inline(always)]
pub fn lent_gate(loan: &Loan, small: bool) -> Result<(), Refusal>
    ensures { done_said result ≡ said_by (lent_rows (lent loan.now) small) }
{
    catalogue_titles::check(loan)?;
    if small {
        return Err(Refusal::from(Reason::SmallOutput));
    }
    Ok(())
}

// 200, 224, 205, 201: the state is looked at last.
pub fn front_gate(loan: &Loan, small: bool, state: &[u8]) -> Result<(), Refusal>
    requires { 649 ≤ length state.now }
    ensures { done_said result ≡ said_by (fronted (lent loan.now) small (desk_of state.now)) }
{
    lent_gate(loan, small)?;
    if !mcs_state::desk_right(loan.groups, loan.tracks, state) {
        return Err(Refusal::from(Reason::BadState));
    }
    Ok(())
}

// The same, and then 219: of a call on a service.
pub fn service_gate(loan: &Loan, state: &[u8], service: u32) -> Result<(), Refusal>
    requires { 649 ≤ length state.now }
    ensures { done_said result ≡ said_by (on_service (lent loan.now) (desk_of state.now) service) }
{
    front_gate(loan, false, state)?;
    if desk_slots::SERVICES <= service {
        return Err(Refusal::from(Reason::NoService));
    }
    Ok(())
}

// The same as the first, and then 202: of a call by a client.
pub fn client_gate(loan: &Loan, small: bool, state: &[u8], who: u32) -> Result<(), Refusal>
    requires { 649 ≤ length state.now }
    ensures { done_said result ≡ said_by (fronted (lent loan.now) small (desk_of state.now) ++ (client_row who ∷ [])) }
{
    front_gate(loan, small, state)?;
    if desk_slots::CLIENTS <= who {
        return Err(Refusal::from(Reason::NoClient));
    }
    Ok(())
}

// The same, and then 219 and 203: of a call by a connected client on a service.
pub fn caller_gate(
    loan: &Loan,
    small: bool,
    state: &[u8],
    who: u32,
    service: u32,
) -> Result<(), Refusal>
    requires { 649 ≤ length state.now }
    ensures { done_said result ≡ said_by (fronted (lent loan.now) small (desk_of state.now) ++ of_caller who service (link_of (desk_of state.now) who).connected) }
{
    client_gate(loan, small, state, who)?;
    if desk_slots::SERVICES <= service {
        return Err(Refusal::from(Reason::NoService));
    }
    let l = mcs_state::link_at(state, who);
    if !l.connected {
        return Err(Refusal::from(Reason::NotConnected));
    }
    Ok(())
}

// The same, and then what read, write, subscribe and unsubscribe ask of the characteristic; `own` is what the call itself names the row by which it is not allowed.
// Whatever number that name stands for, the gate says what the rows with that number say.
pub fn characteristic_gate<R: Copy>(
    loan: &Loan,
    small: bool,
    state: &[u8],
    who: u32,
    service: u32,
    characteristic: u32,
    own: R,
    allowed: bool,
) -> Result<(), Barred<R>>
    requires { 649 ≤ length state.now }
    ensures { (number : R → ℕ) → barred_said number result ≡ said_by (fronted (lent loan.now) small (desk_of state.now) ++ (of_caller who service (link_of (desk_of state.now) who).connected ++ of_characteristic (link_of (desk_of state.now) who).encrypted characteristic (number own) allowed)) }
{
    if let Err(refusal) = caller_gate(loan, small, state, who, service) {
        return Err(Barred::Shared(refusal));
    }
    if !desk_slots::is_characteristic(characteristic) {
        return Err(Barred::Shared(Refusal::from(Reason::NoCharacteristic)));
    }
    if !allowed {
        return Err(Barred::Own(own));
    }
    let l = mcs_state::link_at(state, who);
    if !l.encrypted {
        return Err(Barred::Shared(Refusal::from(Reason::NotEncrypted)));
    }
    Ok(())
}
