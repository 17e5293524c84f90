// What C calls, by the exports of `mcs_c` (include/mcs.h). The state is 649 octets that the caller keeps (`mcs_state`); each call reads it out of them, makes its call, and writes it back
// where that is accepted. A call returns 0, or the number of the refusal: then nothing that was lent is altered, but for the words that are lent for what a
// refusal carries.
#![tactic(auto)]

ghost use Rattle.std.specs.Prelude.{◌≡◌, length as len};
ghost use Rattle.catalogue_tables.specs.Tables.{tables};
ghost use Rattle.catalogue_titles.specs.Lent.{lending};
ghost use Rattle.ground.specs.Lists.{table_after};
ghost use Rattle.ground.specs.Words.{words};
ghost use Rattle.card_load.specs.Card.{blocks_of, gather, octets};
ghost use Rattle.card_load.specs.Load.{load_said};
ghost use Rattle.card_write.specs.Card.{card_of};
ghost use Rattle.card_write.specs.Write.{write_said};
ghost use Rattle.catalogue_cue.specs.Sheet.{cue_said, sheet_lines, starts_of};
ghost use Rattle.catalogue_objects.specs.Objects.{group_octets, segments_octets, has_group, has_segments, write_said as object_said};
ghost use Rattle.catalogue_objects.specs.Reading.{entries_of, read_said};
ghost use Rattle.catalogue_objects.specs.declared.Kind.TheVariants.{Group, Segments};
ghost use Rattle.mcs_state.specs.Codec.{flag, desk_of};
ghost use Rattle.desk_console.specs.Console.{start_call, name_call, activate_call, deactivate_call, advance_call};
ghost use Rattle.desk_links.specs.Links.{connect_call, disconnect_call, subscribe_call, unsubscribe_call};
ghost use Rattle.desk_exchange.specs.Read.{read_call, read_octets};
ghost use Rattle.desk_exchange.specs.Write.{write_call};
ghost use Rattle.desk_take.specs.Take.{take_call, take_octets};
ghost use Rattle.desk_title.specs.Title.{title_call};
ghost use Rattle.desk_goto.specs.Manual.{manual_call};
ghost use Rattle.mcs_told.specs.Calls.{Ends, words_after, carried_after, track_after, offset_after, part_after, made_after, arrival_after};

use catalogue_titles::Loan;

// Card load.
pub fn mcs_card_load(
    card: &[u8],
    groups: &mut [u32],
    tracks: &mut [u32],
    segments: &mut [u32],
    text: &mut [u8],
    counts: &mut [u32; 4],
    block: &mut [u32; 1],
) -> u32
    ensures value { result ≡ (load_said card.now (len groups.old) (len tracks.old) (len segments.old) (len text.old)).number }
    ensures groups_after { groups.new ≡ table_after (load_said card.now (len groups.old) (len tracks.old) (len segments.old) (len text.old)) (gather words 1 (blocks_of card.now)) groups.old }
    ensures tracks_after { tracks.new ≡ table_after (load_said card.now (len groups.old) (len tracks.old) (len segments.old) (len text.old)) (gather words 2 (blocks_of card.now)) tracks.old }
    ensures segments_after { segments.new ≡ table_after (load_said card.now (len groups.old) (len tracks.old) (len segments.old) (len text.old)) (gather words 3 (blocks_of card.now)) segments.old }
    ensures text_after { text.new ≡ table_after (load_said card.now (len groups.old) (len tracks.old) (len segments.old) (len text.old)) (gather octets 4 (blocks_of card.now)) text.old }
    ensures counts_after { counts.new ≡ words_after (load_said card.now (len groups.old) (len tracks.old) (len segments.old) (len text.old)) counts.old }
    ensures block_after { block.new ≡ carried_after (load_said card.now (len groups.old) (len tracks.old) (len segments.old) (len text.old)) block.old }
{
    let l = card_load::load(card, groups, tracks, segments, text);
    let t = mcs_told::told_of_load(l);
    let values = t.values;
    mcs_told::tell(t.granted, values, counts);
    mcs_told::tell(t.carries, values, block);
    t.number
}

// Card write.
pub fn mcs_card_write(
    groups: &[u32],
    tracks: &[u32],
    segments: &[u32],
    text: &[u8],
    card: &mut [u8],
    blocks: &mut [u32; 1],
    track: &mut [u32; 1],
    octet: &mut [u32; 1],
) -> u32
    ensures value { result ≡ (write_said (tables groups.now tracks.now segments.now text.now) (len card.old)).number }
    ensures card_after { card.new ≡ table_after (write_said (tables groups.now tracks.now segments.now text.now) (len card.old)) (card_of (tables groups.now tracks.now segments.now text.now)) card.old }
    ensures blocks_after { blocks.new ≡ words_after (write_said (tables groups.now tracks.now segments.now text.now) (len card.old)) blocks.old }
    ensures track_after { track.new ≡ track_after (write_said (tables groups.now tracks.now segments.now text.now) (len card.old)) track.old }
    ensures octet_after { octet.new ≡ offset_after (write_said (tables groups.now tracks.now segments.now text.now) (len card.old)) octet.old }
{
    let w = card_write::write(groups, tracks, segments, text, card);
    let t = mcs_told::told_of_count(w);
    let values = t.values;
    mcs_told::tell(t.granted, values, blocks);
    mcs_told::tell_place(t, track, octet);
    t.number
}

// Cue sheet.
pub fn mcs_cue_sheet(
    sheet: &[u8],
    starts: &mut [u32],
    count: &mut [u32; 1],
    line: &mut [u32; 1],
) -> u32
    ensures value { result ≡ (cue_said sheet.now (len starts.old)).number }
    ensures starts_after { starts.new ≡ table_after (cue_said sheet.now (len starts.old)) (starts_of (sheet_lines sheet.now)) starts.old }
    ensures count_after { count.new ≡ words_after (cue_said sheet.now (len starts.old)) count.old }
    ensures line_after { line.new ≡ carried_after (cue_said sheet.now (len starts.old)) line.old }
{
    let a = catalogue_cue::read(sheet, starts);
    let t = mcs_told::told_of_count(a);
    let values = t.values;
    mcs_told::tell(t.granted, values, count);
    mcs_told::tell(t.carries, values, line);
    t.number
}

// The Group object of a group, written.
pub fn mcs_group_object_write(
    groups: &[u32],
    tracks: &[u32],
    segments: &[u32],
    text: &[u8],
    group: u32,
    out: &mut [u8],
    written: &mut [u32; 1],
    track: &mut [u32; 1],
    octet: &mut [u32; 1],
) -> u32
    ensures value { result ≡ (object_said (tables groups.now tracks.now segments.now text.now) (has_group (tables groups.now tracks.now segments.now text.now) group) (group_octets groups.now group) (len out.old)).number }
    ensures out_after { out.new ≡ table_after (object_said (tables groups.now tracks.now segments.now text.now) (has_group (tables groups.now tracks.now segments.now text.now) group) (group_octets groups.now group) (len out.old)) (group_octets groups.now group) out.old }
    ensures written_after { written.new ≡ words_after (object_said (tables groups.now tracks.now segments.now text.now) (has_group (tables groups.now tracks.now segments.now text.now) group) (group_octets groups.now group) (len out.old)) written.old }
    ensures track_after { track.new ≡ track_after (object_said (tables groups.now tracks.now segments.now text.now) (has_group (tables groups.now tracks.now segments.now text.now) group) (group_octets groups.now group) (len out.old)) track.old }
    ensures octet_after { octet.new ≡ offset_after (object_said (tables groups.now tracks.now segments.now text.now) (has_group (tables groups.now tracks.now segments.now text.now) group) (group_octets groups.now group) (len out.old)) octet.old }
{
    let a = catalogue_objects::write_group(
        groups,
        tracks,
        segments,
        text,
        catalogue_tables::GroupNo(group),
        out,
    );
    let t = mcs_told::told_of_count(a);
    let values = t.values;
    mcs_told::tell(t.granted, values, written);
    mcs_told::tell_place(t, track, octet);
    t.number
}

// The Track Segments object of a track, written.
pub fn mcs_segments_object_write(
    groups: &[u32],
    tracks: &[u32],
    segments: &[u32],
    text: &[u8],
    ofTrack: u32,
    out: &mut [u8],
    written: &mut [u32; 1],
    track: &mut [u32; 1],
    octet: &mut [u32; 1],
) -> u32
    ensures value { result ≡ (object_said (tables groups.now tracks.now segments.now text.now) (has_segments (tables groups.now tracks.now segments.now text.now) ofTrack) (segments_octets tracks.now segments.now ofTrack) (len out.old)).number }
    ensures out_after { out.new ≡ table_after (object_said (tables groups.now tracks.now segments.now text.now) (has_segments (tables groups.now tracks.now segments.now text.now) ofTrack) (segments_octets tracks.now segments.now ofTrack) (len out.old)) (segments_octets tracks.now segments.now ofTrack) out.old }
    ensures written_after { written.new ≡ words_after (object_said (tables groups.now tracks.now segments.now text.now) (has_segments (tables groups.now tracks.now segments.now text.now) ofTrack) (segments_octets tracks.now segments.now ofTrack) (len out.old)) written.old }
    ensures track_after { track.new ≡ track_after (object_said (tables groups.now tracks.now segments.now text.now) (has_segments (tables groups.now tracks.now segments.now text.now) ofTrack) (segments_octets tracks.now segments.now ofTrack) (len out.old)) track.old }
    ensures octet_after { octet.new ≡ offset_after (object_said (tables groups.now tracks.now segments.now text.now) (has_segments (tables groups.now tracks.now segments.now text.now) ofTrack) (segments_octets tracks.now segments.now ofTrack) (len out.old)) octet.old }
{
    let a = catalogue_objects::write_segments(
        groups,
        tracks,
        segments,
        text,
        catalogue_tables::TrackNo(ofTrack),
        out,
    );
    let t = mcs_told::told_of_count(a);
    let values = t.values;
    mcs_told::tell(t.granted, values, written);
    mcs_told::tell_place(t, track, octet);
    t.number
}

// A Group object, read back.
pub fn mcs_group_object_read(octets: &[u8], members: &mut [u32], count: &mut [usize; 1]) -> u32
    ensures value { result ≡ (read_said Group octets.now (len members.old)).number }
    ensures members_after { members.new ≡ table_after (read_said Group octets.now (len members.old)) (entries_of Group octets.now).words members.old }
    ensures count_after { count.new ≡ words_after (read_said Group octets.now (len members.old)) count.old }
{
    let a = catalogue_objects::read(octets, catalogue_objects::Kind::Group, members);
    mcs_told::tell_count(a, count)
}

// A Track Segments object, read back.
pub fn mcs_segments_object_read(octets: &[u8], positions: &mut [u32], count: &mut [usize; 1]) -> u32
    ensures value { result ≡ (read_said Segments octets.now (len positions.old)).number }
    ensures positions_after { positions.new ≡ table_after (read_said Segments octets.now (len positions.old)) (entries_of Segments octets.now).words positions.old }
    ensures count_after { count.new ≡ words_after (read_said Segments octets.now (len positions.old)) count.old }
{
    let a = catalogue_objects::read(octets, catalogue_objects::Kind::Segments, positions);
    mcs_told::tell_count(a, count)
}

// Start.
pub fn mcs_start(
    groups: &[u32],
    tracks: &[u32],
    segments: &[u32],
    text: &[u8],
    renames: &[u32],
    office: &[u8],
    name0: &[u8],
    mask0: u32,
    ccid0: u8,
    name1: &[u8],
    mask1: u32,
    ccid1: u8,
    state: &mut [u8; 649],
    track: &mut [u32; 1],
    octet: &mut [u32; 1],
) -> u32
    ensures { Ends (start_call (lending groups.now tracks.now segments.now text.now renames.now office.now) (record { name = name0.now; mask = mask0; ccid = ccid0 }) (record { name = name1.now; mask = mask1; ccid = ccid1 })) state.old track.old octet.old result state.new track.new octet.new }
{
    let loan = Loan {
        groups,
        tracks,
        segments,
        text,
        renames,
        office,
    };
    let o = desk_console::start(&loan, name0, mask0, ccid0, name1, mask1, ccid1, state);
    mcs_told::finish(o, track, octet)
}

// Set name.
pub fn mcs_set_name<'a>(
    groups: &[u32],
    tracks: &[u32],
    segments: &[u32],
    text: &'a [u8],
    renames: &[u32],
    office: &'a [u8],
    state: &mut [u8; 649],
    service: u32,
    name: &[u8],
    track: &mut [u32; 1],
    octet: &mut [u32; 1],
) -> u32
    ensures { Ends (name_call (lending groups.now tracks.now segments.now text.now renames.now office.now) (desk_of state.old) service name.now) state.old track.old octet.old result state.new track.new octet.new }
{
    let loan = Loan {
        groups,
        tracks,
        segments,
        text,
        renames,
        office,
    };
    let o = desk_console::set_name(&loan, state, service, name);
    mcs_told::finish(o, track, octet)
}

// Activate a group.
pub fn mcs_activate<'a>(
    groups: &[u32],
    tracks: &[u32],
    segments: &[u32],
    text: &'a [u8],
    renames: &[u32],
    office: &'a [u8],
    state: &mut [u8; 649],
    service: u32,
    group: u32,
    track: &mut [u32; 1],
    octet: &mut [u32; 1],
) -> u32
    ensures { Ends (activate_call (lending groups.now tracks.now segments.now text.now renames.now office.now) (desk_of state.old) service group) state.old track.old octet.old result state.new track.new octet.new }
{
    let g = catalogue_tables::GroupNo(group);
    let loan = Loan {
        groups,
        tracks,
        segments,
        text,
        renames,
        office,
    };
    let o = desk_console::activate(&loan, state, service, g);
    mcs_told::finish(o, track, octet)
}

// Deactivate.
pub fn mcs_deactivate<'a>(
    groups: &[u32],
    tracks: &[u32],
    segments: &[u32],
    text: &'a [u8],
    renames: &[u32],
    office: &'a [u8],
    state: &mut [u8; 649],
    service: u32,
    track: &mut [u32; 1],
    octet: &mut [u32; 1],
) -> u32
    ensures { Ends (deactivate_call (lending groups.now tracks.now segments.now text.now renames.now office.now) (desk_of state.old) service) state.old track.old octet.old result state.new track.new octet.new }
{
    let loan = Loan {
        groups,
        tracks,
        segments,
        text,
        renames,
        office,
    };
    let o = desk_console::deactivate(&loan, state, service);
    mcs_told::finish(o, track, octet)
}

// Advance.
pub fn mcs_advance<'a>(
    groups: &[u32],
    tracks: &[u32],
    segments: &[u32],
    text: &'a [u8],
    renames: &[u32],
    office: &'a [u8],
    state: &mut [u8; 649],
    service: u32,
    step: u32,
    track: &mut [u32; 1],
    octet: &mut [u32; 1],
) -> u32
    ensures { Ends (advance_call (lending groups.now tracks.now segments.now text.now renames.now office.now) (desk_of state.old) service step) state.old track.old octet.old result state.new track.new octet.new }
{
    let loan = Loan {
        groups,
        tracks,
        segments,
        text,
        renames,
        office,
    };
    let o = desk_console::advance(&loan, state, service, step);
    mcs_told::finish(o, track, octet)
}

// Connect; 0 is not encrypted.
pub fn mcs_connect(
    groups: &[u32],
    tracks: &[u32],
    segments: &[u32],
    text: &[u8],
    renames: &[u32],
    office: &[u8],
    state: &mut [u8; 649],
    client: u32,
    mtu: u32,
    encrypted: u8,
    track: &mut [u32; 1],
    octet: &mut [u32; 1],
) -> u32
    ensures { Ends (connect_call (lending groups.now tracks.now segments.now text.now renames.now office.now) (desk_of state.old) client mtu (flag encrypted)) state.old track.old octet.old result state.new track.new octet.new }
{
    let loan = Loan {
        groups,
        tracks,
        segments,
        text,
        renames,
        office,
    };
    let o = desk_links::connect(&loan, state, client, mtu, encrypted != 0);
    mcs_told::finish(o, track, octet)
}

// Disconnect.
pub fn mcs_disconnect(
    groups: &[u32],
    tracks: &[u32],
    segments: &[u32],
    text: &[u8],
    renames: &[u32],
    office: &[u8],
    state: &mut [u8; 649],
    client: u32,
    track: &mut [u32; 1],
    octet: &mut [u32; 1],
) -> u32
    ensures { Ends (disconnect_call (lending groups.now tracks.now segments.now text.now renames.now office.now) (desk_of state.old) client) state.old track.old octet.old result state.new track.new octet.new }
{
    let loan = Loan {
        groups,
        tracks,
        segments,
        text,
        renames,
        office,
    };
    let o = desk_links::disconnect(&loan, state, client);
    mcs_told::finish(o, track, octet)
}

// Subscribe.
pub fn mcs_subscribe(
    groups: &[u32],
    tracks: &[u32],
    segments: &[u32],
    text: &[u8],
    renames: &[u32],
    office: &[u8],
    state: &mut [u8; 649],
    client: u32,
    service: u32,
    characteristic: u32,
    track: &mut [u32; 1],
    octet: &mut [u32; 1],
) -> u32
    ensures { Ends (subscribe_call (lending groups.now tracks.now segments.now text.now renames.now office.now) (desk_of state.old) client service characteristic) state.old track.old octet.old result state.new track.new octet.new }
{
    let loan = Loan {
        groups,
        tracks,
        segments,
        text,
        renames,
        office,
    };
    let o = desk_links::subscribe(&loan, state, client, service, characteristic);
    mcs_told::finish(o, track, octet)
}

// Unsubscribe.
pub fn mcs_unsubscribe(
    groups: &[u32],
    tracks: &[u32],
    segments: &[u32],
    text: &[u8],
    renames: &[u32],
    office: &[u8],
    state: &mut [u8; 649],
    client: u32,
    service: u32,
    characteristic: u32,
    track: &mut [u32; 1],
    octet: &mut [u32; 1],
) -> u32
    ensures { Ends (unsubscribe_call (lending groups.now tracks.now segments.now text.now renames.now office.now) (desk_of state.old) client service characteristic) state.old track.old octet.old result state.new track.new octet.new }
{
    let loan = Loan {
        groups,
        tracks,
        segments,
        text,
        renames,
        office,
    };
    let o = desk_links::unsubscribe(&loan, state, client, service, characteristic);
    mcs_told::finish(o, track, octet)
}

// Read at an offset.
pub fn mcs_read<'a>(
    groups: &[u32],
    tracks: &[u32],
    segments: &[u32],
    text: &'a [u8],
    renames: &[u32],
    office: &'a [u8],
    state: &mut [u8; 649],
    client: u32,
    service: u32,
    characteristic: u32,
    offset: u32,
    out: &mut [u8],
    length: &mut [u32; 1],
    track: &mut [u32; 1],
    octet: &mut [u32; 1],
) -> u32
    ensures ends { Ends (read_call (lending groups.now tracks.now segments.now text.now renames.now office.now) (desk_of state.old) client service characteristic offset (len out.old)) state.old track.old octet.old result state.new track.new octet.new }
    ensures out_after { out.new ≡ table_after (read_call (lending groups.now tracks.now segments.now text.now renames.now office.now) (desk_of state.old) client service characteristic offset (len out.old)).said (read_octets (lending groups.now tracks.now segments.now text.now renames.now office.now) (desk_of state.old) client service characteristic offset) out.old }
    ensures length_after { length.new ≡ words_after (read_call (lending groups.now tracks.now segments.now text.now renames.now office.now) (desk_of state.old) client service characteristic offset (len out.old)).said length.old }
{
    let loan = Loan {
        groups,
        tracks,
        segments,
        text,
        renames,
        office,
    };
    let o = desk_exchange::read(&loan, state, client, service, characteristic, offset, out);
    let t = mcs_told::told_of(o);
    let values = t.values;
    mcs_told::tell(t.granted, values, length);
    mcs_told::finish(o, track, octet)
}

// Take.
pub fn mcs_take<'a>(
    groups: &[u32],
    tracks: &[u32],
    segments: &[u32],
    text: &'a [u8],
    renames: &[u32],
    office: &'a [u8],
    state: &mut [u8; 649],
    out: &mut [u8],
    served: &mut [u32; 4],
    track: &mut [u32; 1],
    octet: &mut [u32; 1],
) -> u32
    ensures ends { Ends (take_call (lending groups.now tracks.now segments.now text.now renames.now office.now) (desk_of state.old) (len out.old)) state.old track.old octet.old result state.new track.new octet.new }
    ensures out_after { out.new ≡ table_after (take_call (lending groups.now tracks.now segments.now text.now renames.now office.now) (desk_of state.old) (len out.old)).said (take_octets (lending groups.now tracks.now segments.now text.now renames.now office.now) (desk_of state.old)) out.old }
    ensures served_after { served.new ≡ words_after (take_call (lending groups.now tracks.now segments.now text.now renames.now office.now) (desk_of state.old) (len out.old)).said served.old }
{
    let loan = Loan {
        groups,
        tracks,
        segments,
        text,
        renames,
        office,
    };
    let o = desk_take::take(&loan, state, out);
    let t = mcs_told::told_of(o);
    let values = t.values;
    mcs_told::tell(t.granted, values, served);
    mcs_told::finish(o, track, octet)
}

// Write.
pub fn mcs_write<'a>(
    groups: &[u32],
    tracks: &[u32],
    segments: &[u32],
    text: &'a [u8],
    renames: &[u32],
    office: &'a [u8],
    state: &mut [u8; 649],
    client: u32,
    service: u32,
    characteristic: u32,
    value: &[u8],
    track: &mut [u32; 1],
    octet: &mut [u32; 1],
) -> u32
    ensures { Ends (write_call (lending groups.now tracks.now segments.now text.now renames.now office.now) (desk_of state.old) client service characteristic value.now) state.old track.old octet.old result state.new track.new octet.new }
{
    let loan = Loan {
        groups,
        tracks,
        segments,
        text,
        renames,
        office,
    };
    let o = desk_exchange::write(&loan, state, client, service, characteristic, value);
    mcs_told::finish(o, track, octet)
}

// Title: of which text, from where on and how long. The state is lent to be read alone.
pub fn mcs_title(
    groups: &[u32],
    tracks: &[u32],
    segments: &[u32],
    text: &[u8],
    renames: &[u32],
    office: &[u8],
    state: &[u8; 649],
    service: u32,
    part: &mut [u32; 3],
    track: &mut [u32; 1],
    octet: &mut [u32; 1],
) -> u32
    ensures value { result ≡ (title_call (lending groups.now tracks.now segments.now text.now renames.now office.now) (desk_of state.now) service).said.number }
    ensures part_after { part.new ≡ part_after (title_call (lending groups.now tracks.now segments.now text.now renames.now office.now) (desk_of state.now) service) part.old }
    ensures track_after { track.new ≡ track_after (title_call (lending groups.now tracks.now segments.now text.now renames.now office.now) (desk_of state.now) service).said track.old }
    ensures octet_after { octet.new ≡ offset_after (title_call (lending groups.now tracks.now segments.now text.now renames.now office.now) (desk_of state.now) service).said octet.old }
{
    let loan = Loan {
        groups,
        tracks,
        segments,
        text,
        renames,
        office,
    };
    let w = desk_title::which(&loan, state, service);
    let t = mcs_told::told_of_shown(w);
    mcs_told::tell_part(w, part);
    mcs_told::tell_place(t, track, octet);
    t.number
}

// The manual's Goto: what it comes to, the steps made, and where the player would be. The state is lent to be read alone.
pub fn mcs_manual_goto(
    groups: &[u32],
    tracks: &[u32],
    segments: &[u32],
    text: &[u8],
    renames: &[u32],
    office: &[u8],
    state: &[u8; 649],
    service: u32,
    opcode: u32,
    number: u32,
    allowed: u32,
    made: &mut [u32; 2],
    place: &mut [u32; 4],
    track: &mut [u32; 1],
    octet: &mut [u32; 1],
) -> u32
    ensures value { result ≡ (manual_call (lending groups.now tracks.now segments.now text.now renames.now office.now) (desk_of state.now) service opcode number allowed).said.number }
    ensures made_after { made.new ≡ made_after (manual_call (lending groups.now tracks.now segments.now text.now renames.now office.now) (desk_of state.now) service opcode number allowed) made.old }
    ensures place_after { place.new ≡ arrival_after (manual_call (lending groups.now tracks.now segments.now text.now renames.now office.now) (desk_of state.now) service opcode number allowed) place.old }
    ensures track_after { track.new ≡ track_after (manual_call (lending groups.now tracks.now segments.now text.now renames.now office.now) (desk_of state.now) service opcode number allowed).said track.old }
    ensures octet_after { octet.new ≡ offset_after (manual_call (lending groups.now tracks.now segments.now text.now renames.now office.now) (desk_of state.now) service opcode number allowed).said octet.old }
{
    let loan = Loan {
        groups,
        tracks,
        segments,
        text,
        renames,
        office,
    };
    let s = desk_goto::manual_goto(&loan, state, service, opcode, number, allowed);
    let t = mcs_told::told_of_shown(s);
    mcs_told::tell_arrival(s, made, place);
    mcs_told::tell_place(t, track, octet);
    t.number
}
