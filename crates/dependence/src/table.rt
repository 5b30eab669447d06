//! Which of sixteen arrays reach which.
ghost use Rattle.std.specs.Prelude.{◌≡◌, ◌<◌, ◌||◌, ℕ};
ghost use Rattle.dependence.specs.Tables.{has, Passes, PassesAll, Closes};

/// A mark for each pair of arrays: row `a` has a mark at `b` where `a` reaches `b`.
pub type Table = [[bool; 16]; 16];

/// Marks what is reached by any number of steps, where what is reached in one step is marked. That an array reaches
/// itself by no step is no mark. It takes time in proportion to 16 times 16 times 16.
pub fn close(table: &mut Table)
    ensures { Closes table.old table.new }
{
    for node in 0..16 {
        pass(table, node);
    }
}

/// Marks what the other row marks too.
pub fn unite(row: &mut [bool; 16], other: &[bool; 16])
    ensures { (b : ℕ) → b < 16 → has row.new b ≡ (has row.old b || has other.now b) }
{
    for i in 0..16 {
        row[i] |= other[i];
    }
}

// Marks what is reached by passing the node once more.
fn pass(table: &mut Table, node: usize)
    requires { node < 16 }
    ensures { PassesAll node table.old table.new }
{
    let through = table[node];
    for row in table.iter_mut() {
        pass_row(row, &through, node);
    }
}

// Marks what the node reaches, in a row that reaches the node.
fn pass_row(row: &mut [bool; 16], through: &[bool; 16], node: usize)
    requires { node < 16 }
    ensures { Passes node through.now row.old row.new }
{
    if row[node] {
        unite(row, through);
    }
}

#[cfg(test)]
mod tests {
    use super::*;
    use std::test::Fail;

    #[test]
    fn a_chain_and_a_cycle(rt: HostRuntime) -> Result<(), Fail> {
        let mut table = [[false; 16]; 16];
        table[3][1] = true;
        table[1][15] = true;
        table[15][1] = true;
        close(&mut table);
        assert!(rt; table[3][15], "through 1");
        assert!(rt; table[15][15], "through the cycle");
        assert!(rt; !table[1][3], "no way back");
        assert!(rt; !table[3][3], "by no step alone");
        Ok(())
    }

    #[test]
    fn two_rows(rt: HostRuntime) -> Result<(), Fail> {
        let mut row = [false; 16];
        row[0] = true;
        let mut other = [false; 16];
        other[15] = true;
        unite(&mut row, &other);
        assert!(rt; row[0], "what was there stays");
        assert!(rt; row[15], "what the other has");
        assert!(rt; !row[1], "and no more");
        Ok(())
    }

    #[test]
    fn all_in_one_cycle_against_the_numbers(rt: HostRuntime) -> Result<(), Fail> {
        let mut table = [[false; 16]; 16];
        for a in 0..16usize {
            table[a][if a == 0 { 15 } else { a - 1 }] = true;
        }
        close(&mut table);
        for row in &table {
            for mark in row {
                assert!(rt; *mark);
            }
        }
        Ok(())
    }
}
