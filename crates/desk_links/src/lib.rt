// Devices come and go, and say which values they want to be told of. Each call checks catalogue and state itself, and refuses by the numbers of SCOPE 20.2.
#![tactic(auto)]

ghost use Rattle.std.specs.Prelude.{◌≡◌, ◌<◌};
ghost use Rattle.ground.specs.Cases.{pick};
ghost use Rattle.catalogue_titles.specs.Lent.{lent};
ghost use Rattle.desk_slots.specs.Slots.{slot_count};
ghost use Rattle.desk_client.specs.Duties.{joined, dropped};
ghost use Rattle.mcs_state.specs.Codec.{desk_of};
ghost use Rattle.desk_replies.specs.Replies.{Answers};
ghost use Rattle.desk_links.specs.Links.{connect_call, disconnect_call, slot_call, subscribe_call, unsubscribe_call};

use catalogue_titles::Loan;
use desk_replies::Reply;
use ground::{Reason, Refusal};

// A device connects, with its ATT_MTU, encrypted or not.
pub fn connect(
    loan: &Loan,
    state: &mut [u8; 649],
    who: u32,
    mtu: u32,
    encrypted: bool,
) -> Result<Reply, Refusal>
    ensures { Answers (connect_call (lent loan.now) (desk_of state.old) who mtu encrypted) state.old result state.new }
{
    desk_replies::client_gate(loan, false, state, who)?;
    let old = mcs_state::link_at(state, who);
    if old.connected {
        return Err(Refusal::from(Reason::AlreadyConnected));
    }
    if !desk_client::mtu_right(mtu) {
        return Err(Refusal::from(Reason::BadMtu));
    }
    let link = desk_client::connected_link(mtu, encrypted);
    let fresh = desk_client::blank_client(link);
    mcs_state::are_octets(state);
    mcs_state::put_client(state, who, fresh);
    Ok(Reply::Done)
}

// A device leaves.
pub fn disconnect(loan: &Loan, state: &mut [u8; 649], who: u32) -> Result<Reply, Refusal>
    ensures { Answers (disconnect_call (lent loan.now) (desk_of state.old) who) state.old result state.new }
{
    desk_replies::client_gate(loan, false, state, who)?;
    let old = mcs_state::link_at(state, who);
    if !old.connected {
        return Err(Refusal::from(Reason::NotConnected));
    }
    let link = desk_client::fresh_link();
    let fresh = desk_client::blank_client(link);
    mcs_state::are_octets(state);
    mcs_state::put_client(state, who, fresh);
    Ok(Reply::Done)
}

// An account that subscribes to a slot, or unsubscribes from it.
fn with_slot(a: desk_client::Account, s: u32, on: bool) -> desk_client::Account
    requires { s < slot_count }
    ensures { result ≡ pick on joined dropped s a }
{
    if on {
        return desk_client::join(a, s);
    }
    desk_client::leave(a, s)
}

// Subscribe, where `on` says so, and unsubscribe else.
fn set_slot(
    loan: &Loan,
    state: &mut [u8; 649],
    who: u32,
    service: u32,
    characteristic: u32,
    on: bool,
) -> Result<Reply, Refusal>
    ensures { Answers (slot_call (lent loan.now) (desk_of state.old) who service characteristic (pick on joined dropped)) state.old result state.new }
{
    let s = desk_slots::slot_of(characteristic);
    desk_replies::characteristic_gate(
        loan,
        false,
        state,
        who,
        service,
        characteristic,
        Reason::NoSlot,
        s < desk_slots::SLOTS,
    )?;
    let a = mcs_state::account_at(state, service, who);
    let next = with_slot(a, s, on);
    mcs_state::are_octets(state);
    mcs_state::put_account(state, service, who, next);
    Ok(Reply::Done)
}

// A client asks to be told of a characteristic of a service.
pub fn subscribe(
    loan: &Loan,
    state: &mut [u8; 649],
    who: u32,
    service: u32,
    characteristic: u32,
) -> Result<Reply, Refusal>
    ensures { Answers (subscribe_call (lent loan.now) (desk_of state.old) who service characteristic) state.old result state.new }
{
    set_slot(loan, state, who, service, characteristic, true)
}

// A client no longer wants to be told of a characteristic of a service.
pub fn unsubscribe(
    loan: &Loan,
    state: &mut [u8; 649],
    who: u32,
    service: u32,
    characteristic: u32,
) -> Result<Reply, Refusal>
    ensures { Answers (unsubscribe_call (lent loan.now) (desk_of state.old) who service characteristic) state.old result state.new }
{
    set_slot(loan, state, who, service, characteristic, false)
}
