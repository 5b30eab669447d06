//! The text of a program, made from a seed.
ghost use Rattle.std.specs.Prelude.{◌≤◌, ◌<◌};

use std::alloc::{AllocError, Global};

/// What each text begins with: arrays of several lengths and starts, and four fields, of which `p.x` and `p.y`
/// stand in indexes.
const HEAD: &str = "int a[4] = 3; int b[4]; int c[3]; int d[5] = {2}; int e = 1; \
    struct P { int x; int y; int n; int m; }; void f(struct P p) { ";

/// Each array with its index.
const CELLS: [&str; 5] = ["a[p.x]", "b[p.x]", "c[p.y + 1]", "d[hash2(p.x, p.y)]", "e"];

const FIELDS: [&str; 4] = ["p.x", "p.y", "p.n", "p.m"];

/// The fields that stand in no index.
const FREE: [&str; 2] = ["p.n", "p.m"];

const NUMBERS: [&str; 8] = ["0", "1", "2", "3", "7", "31", "2147483648", "4294967295"];

/// What stands before the operands of each form, and what behind each of them.
const FORMS: [[&str; 4]; 27] = [
    ["(-", ")", "", ""],
    ["(!", ")", "", ""],
    ["(~", ")", "", ""],
    ["(", " * ", ")", ""],
    ["(", " / ", ")", ""],
    ["(", " % ", ")", ""],
    ["(", " + ", ")", ""],
    ["(", " - ", ")", ""],
    ["(", " << ", ")", ""],
    ["(", " >> ", ")", ""],
    ["(", " < ", ")", ""],
    ["(", " <= ", ")", ""],
    ["(", " > ", ")", ""],
    ["(", " >= ", ")", ""],
    ["(", " == ", ")", ""],
    ["(", " != ", ")", ""],
    ["(", " & ", ")", ""],
    ["(", " ^ ", ")", ""],
    ["(", " | ", ")", ""],
    ["(", " && ", ")", ""],
    ["(", " || ", ")", ""],
    ["(", " ? ", " : ", ")"],
    ["(", " ? ", " : ", ")"],
    ["hash2(", ", ", ")", ""],
    ["hash2a(", ", ", ")", ""],
    ["hash2b(", ", ", ")", ""],
    ["hash3(", ", ", ", ", ")"],
];

/// How deep chains stand in chains.
const CHAINS: u32 = 3;

/// A text under way, and a generator of numbers.
#[derive(Drop)]
struct Maker {
    state: u64,
    text: String,
}

/// The text of the program of this seed.
pub fn made_text(alloc: Global, seed: u64) -> Result<String, AllocError> {
    let mut maker = Maker {
        state: seed,
        text: String::from_str(alloc, HEAD)?,
    };
    if maker.below(2) == 0 {
        // An index may rest on what is assigned before the array is touched.
        maker.text.push_str("p.x = p.x + p.m; ")?;
    }
    maker.block(CHAINS)?;
    maker.text.push('}')?;
    Ok(maker.text)
}

/// The numbers that a state leads to, one after another.
pub fn next(state: &mut u64) -> u32 {
    *state = state
        .wrapping_mul(6_364_136_223_846_793_005)
        .wrapping_add(1_442_695_040_888_963_407);
    (*state >> 33) as u32
}

impl Maker {
    // A number below the bound.
    fn below(&mut self, bound: u32) -> u32
        requires { 1 ≤ bound }
        ensures { result < bound }
    {
        next(&mut self.state) % bound
    }

    // One of the words.
    fn one_of(&mut self, words: &[&str]) -> Result<(), AllocError> {
        let count = u32::try_from(words.len()).unwrap_or(1).max(1);
        let at = self.below(count) as usize;
        match words.get(at) {
            Some(word) => self.text.push_str(word),
            None => Ok(()),
        }
    }

    // A number, a field or, as often as both, a cell.
    fn leaf(&mut self) -> Result<(), AllocError> {
        match self.below(4) {
            0 => self.one_of(&NUMBERS),
            1 => self.one_of(&FIELDS),
            _ => self.one_of(&CELLS),
        }
    }

    // An expression, in which forms stand at most so deep.
    fn expr(&mut self, depth: u32) -> Result<(), AllocError> {
        let Some(depth) = depth.checked_sub(1) else {
            return self.leaf();
        };
        if self.below(4) == 0 {
            return self.leaf();
        }
        let [front, first, second, third] = FORMS[self.below(27) as usize];
        self.text.push_str(front)?;
        for behind in [first, second, third] {
            if !behind.is_empty() {
                self.expr(depth)?;
                self.text.push_str(behind)?;
            }
        }
        Ok(())
    }

    // An assignment.
    fn set(&mut self) -> Result<(), AllocError> {
        if self.below(2) == 0 {
            self.one_of(&FREE)?;
        } else {
            self.one_of(&CELLS)?;
        }
        self.text.push_str(" = ")?;
        self.expr(2)?;
        self.text.push_str("; ")
    }

    // Assignments, and a chain behind them as often as not, in which chains stand less deep.
    #[cycle(block)]
    fn block(&mut self, depth: u32) -> Result<(), AllocError> {
        for _ in 0..self.below(3) {
            self.set()?;
        }
        let Some(depth) = depth.checked_sub(1) else {
            return Ok(());
        };
        if depth + 1 == CHAINS || self.below(2) == 0 {
            self.chain(depth)?;
        }
        Ok(())
    }

    // One to four arms, and a last block as often as not.
    #[cycle(block)]
    fn chain(&mut self, depth: u32) -> Result<(), AllocError> {
        for arm in 0..=self.below(4) {
            self.text
                .push_str(if arm == 0 { "if (" } else { "else if (" })?;
            self.expr(1)?;
            self.text.push_str(") { ")?;
            self.block(depth)?;
            self.text.push_str("} ")?;
        }
        if self.below(2) == 0 {
            self.text.push_str("else { ")?;
            self.block(depth)?;
            self.text.push_str("} ")?;
        }
        self.set()
    }
}
