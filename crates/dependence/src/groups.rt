//! The groups of arrays, by which of them reach which.
ghost use Rattle.std.specs.Prelude.{◌≡◌, ◌+◌, ◌*◌, ◌<◌, ◌≤◌, ◌↔◌, ℕ, IsTrue, length, slice_index, not};
ghost use Rattle.std.specs.List.{slice_index_or};
ghost use Rattle.dependence.specs.Groups.{RestsOn, AreGroups, Linked, IsClosed, IsOn, group_of};
ghost use Rattle.dependence.specs.Levels.{AreNextLevels, AreLevels, IsLevelOver, links};
ghost use Rattle.dependence.specs.Leaders.{Joined, AreLeaders, IsLeader, Leads, AreLeast, Numbered, Gives};

use crate::table::Table;

/// The groups of sixteen arrays.
#[derive(Debug, Drop)]
pub struct ArrayGroups {
    /// The number of each array's group; none where the array isn't touched.
    pub of: [Option<u32>; 16],
    /// How many groups there are.
    pub count: u32,
}

/// The groups of the touched arrays: arrays that reach each other are of one group. A group's level is 0 where it
/// reaches no other, else 1 more than the greatest level of those. Groups are numbered from 0 by level, and within a
/// level by their least array. In the table what is marked through others is marked too. That an array reaches itself
/// need not be marked.
pub fn number_groups(table: &Table, touched: &[bool; 16]) -> ArrayGroups
    requires closed { IsClosed table.now }
    ensures groups { AreGroups (IsOn touched.now) (Linked table.now) result.count result.of }
    ensures wide { length result.of ≡ 16 }
    ensures few { result.count ≤ 16 }
{
    let levels = levels(table);
    let leaders = leaders(table, touched);
    let mut groups = ArrayGroups {
        of: [None; 16],
        count: 0,
    };
    for level in 0..16 {
        groups.number_level(&levels, &leaders, level);
    }
    groups
}

// Whether an array reaches another, or both are the same.
fn links(table: &Table, a: usize, b: usize) -> bool
    requires a { a < 16 }
    requires b { b < 16 }
    ensures { result ≡ links table.now a b }
{
    a == b || table[a][b]
}

// Whether an array reaches another that doesn't reach it.
fn rests_on(table: &Table, a: usize, b: usize) -> bool
    requires a { a < 16 }
    requires b { b < 16 }
    ensures { IsTrue result ↔ RestsOn (Linked table.now) a b }
{
    links(table, a, b) && !links(table, b, a)
}

// Whether two arrays reach each other.
fn joins(table: &Table, a: usize, b: usize) -> bool
    requires a { a < 16 }
    requires b { b < 16 }
    ensures { IsTrue result ↔ Joined table.now a b }
{
    links(table, a, b) && links(table, b, a)
}

// The level of each array: the longest path of arrays each of which rests on the next.
fn levels(table: &Table) -> [u32; 16]
    requires closed { IsClosed table.now }
    ensures { AreLevels table.now result }
{
    let mut levels = [0; 16];
    for _round in 0..16u32 {
        levels = next_levels(table, &levels);
    }
    levels
}

// The level of each array, where those of the arrays that it rests on are known.
fn next_levels(table: &Table, levels: &[u32; 16]) -> [u32; 16]
    requires small { (b : ℕ) → b < 16 → slice_index levels.now b ≤ 16 }
    ensures { AreNextLevels table.now levels.now result }
{
    let mut next = [0; 16];
    for array in 0..16 {
        next[array] = level_over(table, levels, array);
    }
    next
}

// One more than the greatest level of the arrays that an array rests on; 0 where there is none.
fn level_over(table: &Table, levels: &[u32; 16], array: usize) -> u32
    requires array { array < 16 }
    requires small { (b : ℕ) → b < 16 → slice_index levels.now b ≤ 16 }
    ensures { IsLevelOver table.now levels.now array result }
{
    let mut level = 0;
    for other in 0..16 {
        if rests_on(table, array, other) {
            level = level.max(levels[other] + 1);
        }
    }
    level
}

// For each touched array the least of its group.
fn leaders(table: &Table, touched: &[bool; 16]) -> [Option<u32>; 16]
    ensures { AreLeaders touched.now table.now result }
{
    let mut leaders = [None; 16];
    for array in 0..16 {
        leaders[array] = leader(table, touched, array);
    }
    leaders
}

// The least touched array that an array reaches and that reaches it; none where it isn't touched itself.
fn leader(table: &Table, touched: &[bool; 16], array: usize) -> Option<u32>
    requires { array < 16 }
    ensures { IsLeader touched.now table.now array result }
{
    if !touched[array] {
        return None;
    }
    for other in 0..array {
        if touched[other] && joins(table, array, other) {
            return Some(other as u32);
        }
    }
    Some(array as u32)
}

// Whether an array is the least of a group of the level.
fn leads(levels: &[u32; 16], leaders: &[Option<u32>; 16], level: u32, array: usize) -> bool
    requires { array < 16 }
    ensures { IsTrue result ↔ Leads levels.now leaders.now level array }
{
    levels[array] == level && leaders[array] == Some(array as u32)
}

impl ArrayGroups {
    // Numbers the groups of a level, by their least arrays.
    fn number_level(&mut self, levels: &[u32; 16], leaders: &[Option<u32>; 16], level: u32)
        requires level { level < 16 }
        requires least { AreLeast leaders.now }
        requires before { Numbered levels.now leaders.now (16 * level) self.old }
        ensures { Numbered levels.now leaders.now (16 * level + 16) self.new }
    {
        for array in 0..16 {
            if leads(levels, leaders, level, array) {
                self.number(leaders, array as u32);
            }
        }
    }

    // Gives the next number to the arrays with this least one.
    fn number(&mut self, leaders: &[Option<u32>; 16], least: u32)
        requires { self.old.count < 1000 }
        ensures of { Gives leaders.now least self.old self.new }
        ensures count { self.new.count ≡ self.old.count + 1 }
    {
        for array in 0..16 {
            if leaders[array] == Some(least) {
                self.of[array] = Some(self.count);
            }
        }
        self.count += 1;
    }
}

#[cfg(test)]
mod tests {
    use super::*;
    use crate::table::close;
    use std::process::Abort;
    use std::test::Fail;

    /// The groups of sixteen arrays of which the first so many are touched, and of which each of these pairs reaches.
    fn groups_of(touched: usize, pairs: &[(usize, usize)]) -> ArrayGroups {
        let mut table = [[false; 16]; 16];
        for (a, b) in pairs {
            if *a < 16 && *b < 16 {
                table[*a][*b] = true;
            }
        }
        close(&mut table);
        let mut marks = [false; 16];
        for (array, mark) in marks.iter_mut().enumerate() {
            *mark = array < touched;
        }
        number_groups(&table, &marks)
    }

    /// These are the numbers of the first arrays, and so many groups; the other arrays have none.
    fn assert_groups(rt: &impl Abort, groups: &ArrayGroups, of: &[u32], count: u32) {
        for (array, number) in groups.of.iter().enumerate() {
            assert_eq!(rt; *number, of.get(array).copied(), "at array {array}");
        }
        assert_eq!(rt; groups.count, count);
    }

    #[test]
    fn none_is_touched(rt: HostRuntime) -> Result<(), Fail> {
        assert_groups(&rt, &groups_of(0, &[]), &[], 0);
        Ok(())
    }

    #[test]
    fn two_groups_on_one_level_go_by_least_array(rt: HostRuntime) -> Result<(), Fail> {
        // 1 and 2 reach each other, 0 and 3 nothing: three groups of level 0
        assert_groups(&rt, &groups_of(4, &[(1, 2), (2, 1)]), &[0, 1, 1, 2], 3);
        Ok(())
    }

    #[test]
    fn a_chain_goes_by_level(rt: HostRuntime) -> Result<(), Fail> {
        // 0 reaches 1 reaches 2: the last has level 0
        assert_groups(&rt, &groups_of(3, &[(0, 1), (1, 2)]), &[2, 1, 0], 3);
        Ok(())
    }

    #[test]
    fn a_level_is_a_path_and_no_number(rt: HostRuntime) -> Result<(), Fail> {
        // 0 reaches three others that reach nothing: level 1, behind all of level 0; 4 reaches 1 and is of level 1 too
        let groups = groups_of(5, &[(0, 1), (0, 2), (0, 3), (4, 1)]);
        assert_groups(&rt, &groups, &[3, 0, 1, 2, 4], 5);
        Ok(())
    }

    #[test]
    fn a_group_goes_by_its_least_array(rt: HostRuntime) -> Result<(), Fail> {
        // 0 and 4 reach each other and 2; 1 and 3 reach 2 too
        let groups = groups_of(5, &[(0, 4), (4, 0), (4, 2), (1, 2), (3, 2)]);
        assert_groups(&rt, &groups, &[1, 2, 0, 3, 1], 4);
        Ok(())
    }

    #[test]
    fn all_in_one_or_each_alone(rt: HostRuntime) -> Result<(), Fail> {
        let mut pairs = [(0usize, 15usize); 16];
        for (array, pair) in pairs.iter_mut().enumerate() {
            if array > 0 {
                *pair = (array, array - 1);
            }
        }
        assert_groups(&rt, &groups_of(16, &pairs), &[0; 16], 1);
        let alone = [0, 1, 2, 3, 4, 5, 6, 7, 8, 9, 10, 11, 12, 13, 14, 15];
        assert_groups(&rt, &groups_of(16, &[]), &alone, 16);
        let chain = [0, 1, 2, 3, 4, 5, 6, 7, 8, 9, 10, 11, 12, 13, 14, 15];
        assert_groups(&rt, &groups_of(16, &pairs[1..]), &chain, 16);
        Ok(())
    }
}
