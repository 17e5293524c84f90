// The calls of the desk itself, as the clients see them. Each checks catalogue and state itself, and refuses by the numbers of SCOPE 20.2.
#![tactic(auto)]

ghost use Rattle.std.specs.Prelude.{◌≡◌, true, [], ◌≤◌, length, Ok};
ghost use Rattle.ground.specs.Refusals.{granted, said_by};
ghost use Rattle.ground.specs.Limits.{most_title};
ghost use Rattle.catalogue_titles.specs.Lent.{lent};
ghost use Rattle.player_state.specs.Player.{started_player};
ghost use Rattle.player_check.specs.Standing.{player_rule};
ghost use Rattle.desk_state.specs.Desk.{started_desk};
ghost use Rattle.mcs_state.specs.Codec.{desk_of};
ghost use Rattle.desk_replies.specs.declared.Reply.TheVariants.{Done};
ghost use Rattle.desk_replies.specs.Replies.{on_service, Answers};
ghost use Rattle.desk_console.specs.Console.{start_call, becoming, name_call, activate_call, deactivate_call, quiet_advance, advance_call};

use catalogue_titles::Loan;
use desk_replies::Reply;
use ground::{Reason, Refusal};

// A desk with these players, and nobody connected.
fn fresh(
    name0: &[u8],
    mask0: u32,
    ccid0: u8,
    name1: &[u8],
    mask1: u32,
    ccid1: u8,
) -> desk_state::Desk
    requires { (length name0.now ≤ most_title) × (length name1.now ≤ most_title) }
    ensures { result ≡ started_desk (started_player name0.now mask0 ccid0) (started_player name1.now mask1 ccid1) }
{
    let p = player_state::start(name0, mask0, ccid0);
    let q = player_state::start(name1, mask1, ccid1);
    desk_state::fresh_desk(p, q)
}

// Start: both players with their names, the generic one's looked at first, and nobody connected.
pub fn start(
    loan: &Loan,
    name0: &[u8],
    mask0: u32,
    ccid0: u8,
    name1: &[u8],
    mask1: u32,
    ccid1: u8,
    state: &mut [u8; 649],
) -> Result<Reply, Refusal>
    ensures { Answers (start_call (lent loan.now) (record { name = name0.now; mask = mask0; ccid = ccid0 }) (record { name = name1.now; mask = mask1; ccid = ccid1 })) state.old result state.new }
{
    desk_replies::lent_gate(loan, false)?;
    player_check::check_name(name0)?;
    player_check::check_name(name1)?;
    let d = fresh(name0, mask0, ccid0, name1, mask1, ccid1);
    mcs_state::encode(d, state);
    Ok(Reply::Done)
}

// The service's player becomes q by a call of no client, and every client is told. quiet: an advance in Playing that stays below D.
fn becoming(loan: &Loan, state: &mut [u8; 649], service: u32, q: player_state::Player, quiet: bool)
    requires passed { granted [] ≡ said_by (on_service (lent loan.now) (desk_of state.old) service) }
    requires stands { player_rule loan.now.groups.now loan.now.tracks.now q ≡ true }
    ensures { Answers (becoming (lent loan.now) (desk_of state.old) service quiet q) state.old (Ok Done) state.new }
{
    let cause = desk_notices::no_writer(quiet);
    let s = mcs_state::service_at(state, service);
    let told = desk_notices::settle(
        loan.groups,
        loan.tracks,
        loan.text,
        loan.renames,
        loan.office,
        s,
        q,
        cause,
    );
    mcs_state::are_octets(state);
    mcs_state::put_service(state, service, told);
}

// Another name.
pub fn set_name(
    loan: &Loan,
    state: &mut [u8; 649],
    service: u32,
    name: &[u8],
) -> Result<Reply, Refusal>
    ensures { Answers (name_call (lent loan.now) (desk_of state.old) service name.now) state.old result state.new }
{
    desk_replies::service_gate(loan, state, service)?;
    player_check::check_name(name)?;
    let p = mcs_state::player_at(state, service);
    let q = player_state::set_name(p, name);
    becoming(loan, state, service, q, false);
    Ok(Reply::Done)
}

// A group becomes current.
pub fn activate(
    loan: &Loan,
    state: &mut [u8; 649],
    service: u32,
    group: catalogue_tables::GroupNo,
) -> Result<Reply, Refusal>
    ensures { Answers (activate_call (lent loan.now) (desk_of state.old) service group.0) state.old result state.new }
{
    desk_replies::service_gate(loan, state, service)?;
    if !player_check::group_right(loan.groups, group) {
        return Err(Refusal::from(Reason::BadGroup));
    }
    let p = mcs_state::player_at(state, service);
    let q = player_moves::activate(loan.groups, loan.tracks, p, group);
    becoming(loan, state, service, q, false);
    Ok(Reply::Done)
}

// No track is current.
pub fn deactivate(loan: &Loan, state: &mut [u8; 649], service: u32) -> Result<Reply, Refusal>
    ensures { Answers (deactivate_call (lent loan.now) (desk_of state.old) service) state.old result state.new }
{
    desk_replies::service_gate(loan, state, service)?;
    let p = mcs_state::player_at(state, service);
    let q = player_state::deactivate(p);
    becoming(loan, state, service, q, false);
    Ok(Reply::Done)
}

// Whether a step of time stays below the end of the track that plays.
#[tactic(auto, unfolding(crate::specs::Console::quiet_advance))]
fn is_quiet(tracks: &[u32], p: player_state::Player, step: u32) -> bool
    ensures { result ≡ quiet_advance tracks.now step p }
{
    p.mode.media == player_state::PLAYING && player_moves::stays_below(tracks, p, step)
}

// A step of time.
pub fn advance(
    loan: &Loan,
    state: &mut [u8; 649],
    service: u32,
    step: u32,
) -> Result<Reply, Refusal>
    ensures { Answers (advance_call (lent loan.now) (desk_of state.old) service step) state.old result state.new }
{
    desk_replies::service_gate(loan, state, service)?;
    let p = mcs_state::player_at(state, service);
    let q = player_moves::advance(loan.groups, loan.tracks, p, step);
    let quiet = is_quiet(loan.tracks, p, step);
    becoming(loan, state, service, q, quiet);
    Ok(Reply::Done)
}
