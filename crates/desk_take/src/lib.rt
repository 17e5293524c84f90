// What is owed is handed out, to one client at a time.
#![tactic(auto)]

ghost use Rattle.std.specs.Prelude.{◌≡◌, true, ◌<◌, ◌≤◌, ◌^◌, length, ◌∷◌, []};
ghost use Rattle.ground.specs.Lists.{filled, table_after};
ghost use Rattle.catalogue_titles.specs.Lent.{Fit, lent};
ghost use Rattle.desk_slots.specs.Slots.{client_count, place_count};
ghost use Rattle.desk_client.specs.Client.{client_rule};
ghost use Rattle.desk_state.specs.Desk.{client_at};
ghost use Rattle.mcs_state.specs.Codec.{desk_of};
ghost use Rattle.desk_replies.specs.Replies.{said_of, Answers};
ghost use Rattle.desk_take.specs.Serving.{places_owed, handed_octets, handed_values, after_serving, players_rule, OwnTake, answer_by, record_by};
ghost use Rattle.desk_take.specs.Take.{AllRight, owed_sets, players_of, take_call, take_octets};

use catalogue_titles::Loan;
use desk_client::Client;
use desk_replies::Reply;
use ground::{Reason, Refusal};
use player_state::Player;

// What a client was served, of which service, in how many octets, and its record afterwards.
#[derive(Clone, Copy)]
struct Serving {
    service: u32,
    characteristic: u32,
    len: usize,
    client: Client,
}

// What a take of a client's own record replies, and the record afterwards.
#[derive(Clone, Copy)]
pub struct Own {
    pub reply: Reply,
    pub client: Client,
}

// The places at which a client is owed something.
fn places_owed(c: Client) -> u32
    requires { client_rule c ≡ true }
    ensures { (result < 2 ^ place_count) × (result ≡ places_owed c) }
{
    let accounts = c.accounts;
    let generic = accounts[0];
    let named = accounts[1];
    desk_slots::places_of(generic.owed, named.owed)
}

// A client is served its next place: the present value over the front of out, or of 18 the oldest result.
fn hand_out(loan: &Loan, players: [Player; 2], c: Client, out: &mut [u8]) -> Serving
    requires fit { Fit (lent loan.now) }
    requires players_value { players_rule loan.now.groups.now loan.now.tracks.now players ≡ true }
    requires c_value { (client_rule c ≡ true) × (0 < places_owed c) × (128 ≤ length out.old) }
    ensures len_value { (result.service ∷ result.characteristic ∷ result.len ∷ [] ≡ handed_values (lent loan.now) players c) × (result.client ≡ after_serving c) }
    ensures out_after { out.new ≡ filled (handed_octets (lent loan.now) players c) out.old }
{
    let owed = places_owed(c);
    let place = desk_slots::next_place(owed, c.link.mark);
    let service = desk_slots::service_of(place);
    let s = desk_slots::slot_at(place);
    let characteristic = desk_slots::characteristic_of(s);
    let next = desk_client::serve(c, place);
    let at = service as usize;
    if desk_client::is_control(s) {
        let accounts = c.accounts;
        let a = accounts[at];
        let results = a.results;
        let e = results[0];
        let octets = [e.opcode, e.code];
        let n = player_values::put(out, &octets, 0, 2);
        return Serving {
            service: service,
            characteristic: characteristic,
            len: n,
            client: next,
        };
    }
    let p = players[at];
    let most = ground::wide_word(c.link.mtu - 3);
    let n = player_values::value(
        out,
        loan.groups,
        loan.tracks,
        loan.text,
        loan.renames,
        loan.office,
        p,
        characteristic,
        0,
        most,
    );
    Serving {
        service: service,
        characteristic: characteristic,
        len: n,
        client: next,
    }
}

fn players_right(groups: &[u32], tracks: &[u32], players: [Player; 2]) -> bool
    ensures { result ≡ players_rule groups.now tracks.now players }
{
    let mut good = true;
    for p in &players {
        let right = player_check::player_right(groups, tracks, *p);
        good = good & right;
    }
    good
}

// A client takes what its own record owes it, by either service.
pub fn take_own(
    c: Client,
    loan: &Loan,
    players: [Player; 2],
    out: &mut [u8],
) -> Result<Own, Refusal>
    ensures { OwnTake (lent loan.now) players c out.old (answer_by result) (record_by c result) out.new }
{
    desk_replies::lent_gate(loan, out.len() < ground::LEAST_OUTPUT)?;
    let stand = players_right(loan.groups, loan.tracks, players);
    let record = desk_client::client_right(c);
    if !(stand & record) {
        return Err(Refusal::from(Reason::BadState));
    }
    let owed = places_owed(c);
    if owed == 0 {
        return Ok(Own {
            reply: Reply::Done,
            client: c,
        });
    }
    let h = hand_out(loan, players, c, out);
    Ok(Own {
        reply: Reply::Handed(h.service, h.characteristic, h.len),
        client: h.client,
    })
}

// The same on a record that is lent, and updated where it stands.
pub fn take_in(
    c: &mut Client,
    loan: &Loan,
    players: [Player; 2],
    out: &mut [u8],
) -> Result<Reply, Refusal>
    ensures { OwnTake (lent loan.now) players c.old out.old result c.new out.new }
{
    let own = take_own(*c, loan, players, out)?;
    *c = own.client;
    Ok(own.reply)
}

// The places at which a client is owed something, by the two services.
fn owed_to(state: &[u8], who: u32) -> u32
    requires in_bounds { 649 ≤ length state.now }
    requires who_lt_client_count { who < client_count }
    requires who_value { client_rule (client_at (desk_of state.now) who) ≡ true }
    ensures { result ≡ places_owed (client_at (desk_of state.now) who) }
{
    let c = mcs_state::client_at(state, who);
    places_owed(c)
}

// The places at which each client is owed something.
fn owed_sets(state: &[u8]) -> [u32; 4]
    requires in_bounds { 649 ≤ length state.now }
    requires all_right { AllRight (desk_of state.now) }
    ensures { result ≡ owed_sets (desk_of state.now) }
{
    let a = owed_to(state, 0);
    let b = owed_to(state, 1);
    let c = owed_to(state, 2);
    let d = owed_to(state, 3);
    [a, b, c, d]
}

// The player of each service.
fn players_of(state: &[u8]) -> [Player; 2]
    requires { 649 ≤ length state.now }
    ensures { result ≡ players_of (desk_of state.now) }
{
    let p = mcs_state::player_at(state, 0);
    let q = mcs_state::player_at(state, 1);
    [p, q]
}

// The next value or result that is owed to anybody, over the front of out.
pub fn take(loan: &Loan, state: &mut [u8; 649], out: &mut [u8]) -> Result<Reply, Refusal>
    ensures answers { Answers (take_call (lent loan.now) (desk_of state.old) (length out.old)) state.old result state.new }
    ensures out_after { out.new ≡ table_after (said_of result) (take_octets (lent loan.now) (desk_of state.old)) out.old }
{
    desk_replies::front_gate(loan, out.len() < ground::LEAST_OUTPUT, state)?;
    mcs_state::are_octets(state);
    let sets = owed_sets(state);
    let turn = mcs_state::turn_of(state);
    let who = desk_slots::next_client(sets, turn);
    if desk_slots::CLIENTS <= who {
        return Ok(Reply::Done);
    }
    let players = players_of(state);
    let c = mcs_state::client_at(state, who);
    let h = hand_out(loan, players, c, out);
    mcs_state::put_served(state, who, h.client);
    Ok(Reply::Served(who, h.service, h.characteristic, h.len))
}
