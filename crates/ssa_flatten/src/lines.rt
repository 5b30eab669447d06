//! The code of lines, one after another.
ghost use Rattle.std.specs.Prelude.{◌≡◌, ◌+◌, ◌≤◌, ◌<◌, ◌++◌, OnOk, IfOk, All, List, ℕ, length, map, flat_map};
ghost use Rattle.std.specs.List.{fold};
ghost use Rattle.code_forms.specs.GuardValid.{arrays_in, line_arrays, line_count};
ghost use Rattle.code_forms.specs.GuardMeaning.{line_guard};
ghost use Rattle.ssa_flatten.specs.Counting.{unloaded};
ghost use Rattle.ssa_flatten.specs.Views.{arrays_in_all, Keeps, Does, HasRoom};
ghost use Rattle.ssa_flatten.specs.Flattening.{touch_array, flat_done, flat_line, Sofar as Exact};

use crate::expression::operand_at;
use crate::sofar::Sofar;
use code_forms::{ArrayShape, GuardExpr, GuardLine, Operand};
use std::alloc::{AllocError, Global};

// Adds the arrays in an expression, in text order.
#[cycle(mentioned)]
fn mentioned(expr: &GuardExpr, arrays: &mut Vec<u32>) -> Result<(), AllocError>
    ensures { OnOk result (arrays.new.items ≡ arrays.old.items ++ arrays_in expr.now) }
{
    match expr {
        GuardExpr::Number(_) | GuardExpr::Field(_) => Ok(()),
        GuardExpr::Cell(array) => {
            arrays.push(*array)?;
            Ok(())
        }
        GuardExpr::One(_, a) => mentioned(a.get(), arrays),
        GuardExpr::Two(_, a, b) => {
            mentioned(a.get(), arrays)?;
            mentioned(b.get(), arrays)
        }
        GuardExpr::Pick(c, a, b) => {
            mentioned(c.get(), arrays)?;
            mentioned(a.get(), arrays)?;
            mentioned(b.get(), arrays)
        }
        GuardExpr::Hash(_, args) => mentioned_all(args.as_slice(), arrays),
    }
}

// Adds the arrays in expressions, in text order.
#[cycle(mentioned)]
fn mentioned_all(args: &[GuardExpr], arrays: &mut Vec<u32>) -> Result<(), AllocError>
    ensures { OnOk result (arrays.new.items ≡ arrays.old.items ++ arrays_in_all args.now) }
{
    for arg in args {
        mentioned(arg, arrays)?;
    }
    Ok(())
}

// The arrays that a line touches, in text order.
fn line_arrays(alloc: Global, line: &GuardLine) -> Result<Vec<u32>, AllocError>
    ensures { IfOk result (λ arrays. arrays.items ≡ line_arrays line.now) }
{
    let mut arrays = Vec::new(alloc);
    match line {
        GuardLine::Test { cond, .. } => mentioned(cond, &mut arrays)?,
        GuardLine::SetField { value, .. } => mentioned(value, &mut arrays)?,
        GuardLine::SetCell { array, value, .. } => {
            arrays.push(*array)?;
            mentioned(value, &mut arrays)?;
        }
    }
    Ok(arrays)
}

// The guard that a line stands under.
fn line_guard(line: &GuardLine) -> u32
    ensures { result ≡ line_guard line.now }
{
    match line {
        GuardLine::Test { under, .. } => *under,
        GuardLine::SetField { guard, .. } | GuardLine::SetCell { guard, .. } => *guard,
    }
}

impl Sofar {
    // Touches arrays under a guard, one after another.
    fn touch_all(
        &mut self,
        alloc: Global,
        shapes: &[ArrayShape],
        arrays: &[u32],
        on: Operand,
    ) -> Result<(), AllocError>
        requires there { All (λ array. array < length shapes.now) arrays.now }
        requires copies { length self.old.copies.items ≡ length shapes.now }
        requires arrays { length self.old.arrays.items ≡ length shapes.now }
        requires room { HasRoom shapes.now self.old 0 }
        ensures line { OnOk result (Does self.old self.new (λ s.
            fold (touch_array shapes.now on) s arrays.now)) }
        ensures keeps { OnOk result (Keeps shapes.now self.old self.new) }
    {
        for array in arrays {
            self.touch(alloc, shapes, *array, on)?;
        }
        Ok(())
    }

    // A line whose arrays are touched.
    fn finish(&mut self, alloc: Global, header: u32, line: &GuardLine) -> Result<(), AllocError>
        requires room { self.old.out.next + line_count line.now ≤ 1990 }
        requires behind { header ≤ self.old.out.next }
        requires there { All (λ array. array < length self.old.arrays.items)
            (line_arrays line.now) }
        ensures { OnOk result (Does self.old self.new (flat_done header line.now)) }
    {
        match line {
            GuardLine::Test { cond, under, .. } => {
                self.test(alloc, *under, cond)?;
                Ok(())
            }
            GuardLine::SetField {
                field,
                guard,
                value,
            } => { self.set_field(alloc, header, *field, *guard, value) }
            GuardLine::SetCell {
                array,
                guard,
                value,
            } => { self.set_cell(alloc, header, *array, *guard, value) }
        }
    }

    /// A line: its arrays are touched, and then it does what it says.
    pub(crate) fn line(
        &mut self,
        alloc: Global,
        header: u32,
        shapes: &[ArrayShape],
        line: &GuardLine,
    ) -> Result<(), AllocError>
        requires there { All (λ array. array < length shapes.now) (line_arrays line.now) }
        requires copies { length self.old.copies.items ≡ length shapes.now }
        requires arrays { length self.old.arrays.items ≡ length shapes.now }
        requires behind { header ≤ self.old.out.next }
        requires room { HasRoom shapes.now self.old (line_count line.now) }
        ensures { OnOk result (Does self.old self.new (λ s.
            flat_line header shapes.now s line.now)) }
    {
        let on = operand_at(&self.guards, line_guard(line) as usize);
        let arrays = line_arrays(alloc, line)?;
        self.touch_all(alloc, shapes, &arrays, on)?;
        self.finish(alloc, header, line)
    }
}
