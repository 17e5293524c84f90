// Group moves: along the groups of one parent (SCOPE 12.1, 12.2).
#![tactic(auto)]

ghost use Rattle.std.specs.Prelude.{◌≡◌, false, ◌≤◌, length};
ghost use Rattle.ground.specs.Limits.{most_groups};
ghost use Rattle.ground.specs.Lists.{span, those};
ghost use Rattle.player_walk.specs.Steps.{at, move_in};
ghost use Rattle.player_groups.specs.Family.{is_sibling, siblings, near_group, Current};

fn is_sibling(groups: &[u32], g: catalogue_tables::GroupNo, h: catalogue_tables::GroupNo) -> bool
    ensures { result ≡ is_sibling groups.now g.0 h.0 }
{
    let a = catalogue_tables::parent(groups, h);
    let b = catalogue_tables::parent(groups, g);
    let n = catalogue_tables::tracks_in(groups, h);
    (h.0 != 0) & (a.0 == b.0) & (n != 0)
}

// How many siblings of g have a number below the bound.
pub fn siblings_below(
    groups: &[u32],
    g: catalogue_tables::GroupNo,
    bound: catalogue_tables::GroupNo,
) -> usize
    requires { bound.0 ≤ most_groups }
    ensures { (result ≡ length (those (is_sibling groups.now g.0) (span 0 bound.0))) × (result ≤ bound.0) }
{
    let mut n: usize = 0;
    for i in 0..bound.0 {
        let h = catalogue_tables::GroupNo(i);
        let found = is_sibling(groups, g, h);
        if found {
            n += 1;
        }
    }
    n
}

// The sibling at place k, of those with a number below the bound.
pub fn nth_sibling(
    groups: &[u32],
    g: catalogue_tables::GroupNo,
    bound: catalogue_tables::GroupNo,
    k: usize,
) -> Option<catalogue_tables::GroupNo>
    requires { bound.0 ≤ most_groups }
    ensures { near_group result ≡ at (those (is_sibling groups.now g.0) (span 0 bound.0)) k }
{
    let mut left: usize = k;
    for i in 0..bound.0 {
        let h = catalogue_tables::GroupNo(i);
        let found = is_sibling(groups, g, h);
        if found {
            if left == 0 {
                return Some(h);
            }
            left -= 1;
        }
    }
    None
}

// A move from the current group.
pub fn group_after(
    groups: &[u32],
    g: catalogue_tables::GroupNo,
    step: player_walk::Step,
) -> Option<catalogue_tables::GroupNo>
    requires { Current groups.now g.0 }
    ensures { near_group result ≡ move_in step false (siblings groups.now g.0) g.0 }
{
    if g.0 == 0 {
        player_walk::place_after(step, false, 1, 0)?;
        return Some(g);
    }
    let count = catalogue_tables::group_count(groups) as u32;
    let bound = catalogue_tables::GroupNo(count);
    let k = siblings_below(groups, g, g);
    let n = siblings_below(groups, g, bound);
    let j = player_walk::place_after(step, false, n, k)?;
    nth_sibling(groups, g, bound, j)
}
