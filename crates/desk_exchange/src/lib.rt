// Clients read and write. Each call checks catalogue and state itself, and refuses by the numbers of SCOPE 20.2.
#![tactic(auto)]

ghost use Rattle.std.specs.Prelude.{◌≡◌, ◌<◌, ◌≤◌, true, false, ◌++◌, ltb, length as len};
ghost use Rattle.ground.specs.Limits.{most_groups, least_output};
ghost use Rattle.ground.specs.Lists.{table_after};
ghost use Rattle.ground.specs.Refusals.{done_said, said_by};
ghost use Rattle.catalogue_tables.specs.Tables.{group_count};
ghost use Rattle.catalogue_titles.specs.Lent.{Fit, lent, catalogue_of};
ghost use Rattle.catalogue_tables.specs.Objects.{track_objects, group_objects};
ghost use Rattle.catalogue_check.specs.Catalogue.{Right};
ghost use Rattle.player_check.specs.Standing.{player_rule};
ghost use Rattle.desk_slots.specs.Slots.{client_count};
ghost use Rattle.mcs_state.specs.Codec.{desk_of};
ghost use Rattle.desk_replies.specs.Replies.{Answers, said_of, fronted};
ghost use Rattle.desk_exchange.specs.Read.{value_now, reader_rows, after_read, read_octets, read_call};
ghost use Rattle.desk_exchange.specs.Write.{writer_rows, control_length, length_right, object_of, track_at, group_at, own_track, any_group, allowed, number_of, control_written, player_written, written, write_call};

use catalogue_titles::Loan;
use desk_replies::Reply;
use ground::{Reason, Refusal};

// What a read leaves of the client's account.
fn after_read(a: desk_client::Account, characteristic: u32, offset: u32) -> desk_client::Account
    requires { characteristic < 32 }
    ensures { result ≡ after_read characteristic offset a }
{
    if offset == 0 {
        return desk_client::mark_read(a, characteristic);
    }
    a
}

// The refusals of a read.
fn read_gate(
    loan: &Loan,
    state: &[u8],
    who: u32,
    service: u32,
    characteristic: u32,
    offset: u32,
    room: usize,
) -> Result<(), Refusal>
    requires { 649 ≤ len state.now }
    ensures { done_said result ≡ said_by (fronted (lent loan.now) (ltb room least_output) (desk_of state.now) ++ reader_rows (desk_of state.now) who service characteristic offset (len (value_now (lent loan.now) (desk_of state.now) service characteristic))) }
{
    desk_replies::characteristic_gate(
        loan,
        room < ground::LEAST_OUTPUT,
        state,
        who,
        service,
        characteristic,
        Reason::NotReadable,
        desk_slots::may_read(characteristic),
    )?;
    if offset == 0 {
        return Ok(());
    }
    let a = mcs_state::account_at(state, service, who);
    if !ground::has_bit(a.fresh, characteristic) {
        return Err(Refusal::from(Reason::ValueChanged));
    }
    let p = mcs_state::player_at(state, service);
    let n = player_values::length_of(
        loan.groups,
        loan.tracks,
        loan.text,
        loan.renames,
        loan.office,
        p,
        characteristic,
    );
    if n < ground::wide_word(offset) {
        return Err(Refusal::from(Reason::BeyondEnd));
    }
    Ok(())
}

// A client reads a characteristic from an offset on, over the front of out.
pub fn read(
    loan: &Loan,
    state: &mut [u8; 649],
    who: u32,
    service: u32,
    characteristic: u32,
    offset: u32,
    out: &mut [u8],
) -> Result<Reply, Refusal>
    ensures answers { Answers (read_call (lent loan.now) (desk_of state.old) who service characteristic offset (len out.old)) state.old result state.new }
    ensures out_after { out.new ≡ table_after (said_of result) (read_octets (lent loan.now) (desk_of state.old) who service characteristic offset) out.old }
{
    read_gate(loan, state, who, service, characteristic, offset, out.len())?;
    let l = mcs_state::link_at(state, who);
    let a = mcs_state::account_at(state, service, who);
    let p = mcs_state::player_at(state, service);
    let from = ground::wide_word(offset);
    let most = ground::wide_word(l.mtu - 1);
    let n = player_values::value(
        out,
        loan.groups,
        loan.tracks,
        loan.text,
        loan.renames,
        loan.office,
        p,
        characteristic,
        from,
        most,
    );
    let next = after_read(a, characteristic, offset);
    mcs_state::are_octets(state);
    mcs_state::put_account(state, service, who, next);
    Ok(Reply::Octets(n))
}

// Whether a write to 18 has as many octets as its opcode asks.
fn control_length(value: &[u8]) -> bool
    ensures { result ≡ control_length value.now }
{
    let n = value.len();
    let opcode = ground::octet_or_zero(value, 0);
    let asked = player_opcodes::parameter_length(opcode);
    (1 <= n) & (n <= 5) & ((asked == 0) | (asked == n))
}

// Whether a write has as many octets as its characteristic asks.
fn length_right(characteristic: u32, value: &[u8]) -> bool
    ensures { result ≡ length_right characteristic value.now }
{
    if characteristic == 18 {
        return control_length(value);
    }
    value.len() == desk_slots::size_of(characteristic)
}

// Whether the object of a track of the current group is written, and there is one.
fn own_track(groups: &[u32], p: player_state::Player, value: &[u8]) -> bool
    requires { 6 ≤ len value.now }
    ensures { result ≡ own_track groups.now p value.now }
{
    let object = ground::six_at(value, 0);
    if (p.mode.media == player_state::INACTIVE) | (object < catalogue_tables::TRACK_OBJECTS) {
        return false;
    }
    player_check::in_group(
        groups,
        p.place.group,
        object - catalogue_tables::TRACK_OBJECTS,
    )
}

// Whether the object of a group with tracks is written, while there is a current one.
fn any_group(groups: &[u32], p: player_state::Player, value: &[u8]) -> bool
    requires bound { 6 ≤ len value.now }
    requires groups_bound { group_count groups.now ≤ most_groups }
    ensures { result ≡ any_group groups.now p value.now }
{
    let object = ground::six_at(value, 0);
    if (p.mode.media == player_state::INACTIVE) | (object < catalogue_tables::GROUP_OBJECTS) {
        return false;
    }
    let number = object - catalogue_tables::GROUP_OBJECTS;
    if ground::MOST_GROUPS <= number {
        return false;
    }
    let g = catalogue_tables::GroupNo(number as u32);
    player_check::group_right(groups, g)
}

// Whether a value of the right length may be written.
fn is_allowed(groups: &[u32], p: player_state::Player, characteristic: u32, value: &[u8]) -> bool
    requires value_value { length_right characteristic value.now ≡ true }
    requires groups_bound { group_count groups.now ≤ most_groups }
    ensures { result ≡ allowed groups.now p characteristic value.now }
{
    let first = ground::octet_or_zero(value, 0);
    match characteristic {
        15 => (1 <= first) & (first <= 8),
        11 => own_track(groups, p, value),
        12 => own_track(groups, p, value),
        14 => any_group(groups, p, value),
        _ => true,
    }
}

// The track and the group of an object that is written.
fn track_at(value: &[u8]) -> catalogue_tables::TrackNo
    requires bound { 6 ≤ len value.now }
    requires track_objects_bound { (track_objects ≤ object_of value.now) × (track_at value.now < 4294967295) }
    ensures { (result.0 ≡ track_at value.now) × (result.0 < 4294967295) }
{
    let object = ground::six_at(value, 0);
    let number = object - catalogue_tables::TRACK_OBJECTS;
    catalogue_tables::TrackNo(number as u32)
}

fn group_at(value: &[u8]) -> catalogue_tables::GroupNo
    requires bound { 6 ≤ len value.now }
    requires group_objects_bound { (group_objects ≤ object_of value.now) × (group_at value.now < 4294967295) }
    ensures { result.0 ≡ group_at value.now }
{
    let object = ground::six_at(value, 0);
    let number = object - catalogue_tables::GROUP_OBJECTS;
    catalogue_tables::GroupNo(number as u32)
}

// The refusals of a write.
fn write_gate(
    loan: &Loan,
    state: &[u8],
    who: u32,
    service: u32,
    characteristic: u32,
    value: &[u8],
) -> Result<(), Refusal>
    requires { 649 ≤ len state.now }
    ensures { done_said result ≡ said_by (fronted (lent loan.now) false (desk_of state.now) ++ writer_rows (lent loan.now) (desk_of state.now) who service characteristic value.now) }
{
    desk_replies::characteristic_gate(
        loan,
        false,
        state,
        who,
        service,
        characteristic,
        Reason::NotWritable,
        desk_slots::may_write(characteristic),
    )?;
    if !length_right(characteristic, value) {
        return Err(Refusal::from(Reason::BadLength));
    }
    let p = mcs_state::player_at(state, service);
    if !is_allowed(loan.groups, p, characteristic, value) {
        return Err(Refusal::from(Reason::NotAllowed));
    }
    let a = mcs_state::account_at(state, service, who);
    if (characteristic == 18) & (desk_client::MOST_RESULTS <= a.waiting) {
        return Err(Refusal::from(Reason::TooManyResults));
    }
    Ok(())
}

// The number that an opcode carries, where it does.
fn number_of(value: &[u8]) -> u32
    ensures { result ≡ number_of value.now }
{
    if value.len() == 5 {
        return ground::word_at(value, 1);
    }
    0
}

// An opcode is carried out, and the writer gets its result.
fn control(loan: &Loan, s: desk_state::Service, who: u32, value: &[u8]) -> desk_state::Service
    requires fit { Fit (lent loan.now) }
    requires player_value { player_rule loan.now.groups.now loan.now.tracks.now s.player ≡ true }
    requires who_lt_client_count { who < client_count }
    ensures { result ≡ control_written (lent loan.now) s who value.now }
{
    let p = s.player;
    let opcode = ground::octet_or_zero(value, 0);
    let number = number_of(value);
    let done = player_moves::control(loan.groups, loan.tracks, loan.segments, p, opcode, number);
    let q = done.player;
    let code = done.result;
    let cause = desk_notices::by_writer(who, 18);
    let t = desk_notices::settle(
        loan.groups,
        loan.tracks,
        loan.text,
        loan.renames,
        loan.office,
        s,
        q,
        cause,
    );
    let a = desk_state::account_in(t, who);
    let next = desk_client::note_result(a, opcode, code);
    desk_state::with_account(t, who, next)
}

// What the player becomes by an allowed write to any but 18.
fn player_written(
    loan: &Loan,
    p: player_state::Player,
    characteristic: u32,
    value: &[u8],
) -> player_state::Player
    requires right { Right (catalogue_of (lent loan.now)) }
    requires value_value { length_right characteristic value.now ≡ true }
    requires value_value_2 { allowed loan.now.groups.now p characteristic value.now ≡ true }
    ensures { result ≡ player_written (catalogue_of (lent loan.now)) p characteristic value.now }
{
    let first = ground::octet_or_zero(value, 0);
    match characteristic {
        7 => player_moves::write_position(loan.tracks, p, ground::word_at(value, 0)),
        8 => player_state::with_speed(p, first),
        11 => player_state::move_to(p, p.place.group, track_at(value)),
        12 => player_state::name_track(p, track_at(value)),
        14 => player_moves::write_group(loan.groups, loan.tracks, p, group_at(value)),
        _ => player_state::with_order(p, first),
    }
}

// What a write does.
fn carry_out(
    loan: &Loan,
    s: desk_state::Service,
    who: u32,
    characteristic: u32,
    value: &[u8],
) -> desk_state::Service
    requires fit { Fit (lent loan.now) }
    requires player_value { player_rule loan.now.groups.now loan.now.tracks.now s.player ≡ true }
    requires who_lt_client_count { who < client_count }
    requires value_value { length_right characteristic value.now ≡ true }
    requires value_value_2 { allowed loan.now.groups.now s.player characteristic value.now ≡ true }
    ensures { result ≡ written (lent loan.now) s who characteristic value.now }
{
    if characteristic == 18 {
        return control(loan, s, who, value);
    }
    let p = s.player;
    let q = player_written(loan, p, characteristic, value);
    let cause = desk_notices::by_writer(who, characteristic);
    desk_notices::settle(
        loan.groups,
        loan.tracks,
        loan.text,
        loan.renames,
        loan.office,
        s,
        q,
        cause,
    )
}

// A client writes a characteristic.
pub fn write(
    loan: &Loan,
    state: &mut [u8; 649],
    who: u32,
    service: u32,
    characteristic: u32,
    value: &[u8],
) -> Result<Reply, Refusal>
    ensures { Answers (write_call (lent loan.now) (desk_of state.old) who service characteristic value.now) state.old result state.new }
{
    write_gate(loan, state, who, service, characteristic, value)?;
    let s = mcs_state::service_at(state, service);
    let written = carry_out(loan, s, who, characteristic, value);
    mcs_state::are_octets(state);
    mcs_state::put_service(state, service, written);
    Ok(Reply::Done)
}
